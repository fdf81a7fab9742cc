ghost use Rattle.std.specs.Prelude.{◌≡◌, length};
ghost use Rattle.xc_tree.specs.Least.{IsLeastOf};
ghost use Rattle.xc_names.specs.Meanings.{AreMeanings};
ghost use Rattle.xc_names.specs.NameRules.{at_declaration as by_declaration, at_use as by_use, broken_by as rule_of, IsBrokenBefore};

use xc_tree::{Mark, earlier};
use xw_words::{Broken, Pos};

/// The first of the rules 301 and 302 that names break, by what they mean.
pub fn broken_name(marks: &[Mark], meant: &[Option<usize>]) -> Option<Broken>
    requires { AreMeanings marks.now meant.now }
    ensures { IsLeastOf (λ b. IsBrokenBefore marks.now (length marks.now) b) result }
{
    let mut best = None;
    for at in 0..marks.len() {
        best = earlier(best, broken_by(&marks[at], at, meant[at]));
    }
    best
}

/// The rule that a mark breaks, by what its name means.
fn broken_by(mark: &Mark, at: usize, meant: Option<usize>) -> Option<Broken>
    ensures { result ≡ rule_of mark.now at meant }
{
    match mark {
        Mark::Opens => None,
        Mark::Closes => None,
        Mark::Declares(decl) => at_declaration(decl.name.pos, at, meant),
        Mark::Uses(name) => at_use(name.pos, meant),
        Mark::Calls(name) => at_use(name.pos, meant),
    }
}

fn at_declaration(pos: Pos, at: usize, meant: Option<usize>) -> Option<Broken>
    ensures { result ≡ by_declaration pos at meant }
{
    match meant {
        None => None,
        Some(d) => {
            if d == at {
                None
            } else {
                Some(Broken { rule: 302, pos })
            }
        }
    }
}

fn at_use(pos: Pos, meant: Option<usize>) -> Option<Broken>
    ensures { result ≡ by_use pos meant }
{
    match meant {
        None => Some(Broken { rule: 301, pos }),
        Some(_) => None,
    }
}
