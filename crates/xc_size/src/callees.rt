ghost use Rattle.std.specs.Prelude.{◌≡◌, [], ◌∷◌, ◌++◌, IfOk, OnOk};
ghost use Rattle.xc_size.specs.Callees.{called_numbers, callees_of};
ghost use Rattle.xc_size.specs.Numbers.{number_of};

use crate::names::Names;
use std::alloc::Global;
use xc_names::marks_of_statement;
use xc_tree::{Mark, Stmt};
use xw_words::{List, Memory};

/// The numbers of the functions that a statement calls, in the order of the text, with `None` for a name that none has.
#[tactic(auto, using(crate::proofs::Called::called))]
pub fn callees<'a>(
    alloc: Global,
    names: &Names<'a>,
    s: &Stmt,
) -> Result<List<Option<usize>>, Memory>
    ensures { IfOk result (λ list. list ≡ callees_of (number_of names.now) s.now) }
{
    let marks = marks_of_statement(alloc, s)?;
    let mut list = List::new(alloc);
    for mark in marks.as_slice() {
        add(&mut list, names, mark)?;
    }
    Ok(list)
}

/// Adds the number of the function that is called at one place, if one is.
#[tactic(auto, using(crate::proofs::Called::called))]
fn add<'a>(list: &mut List<Option<usize>>, names: &Names<'a>, mark: &Mark) -> Result<(), Memory>
    ensures { OnOk result
        (list.new ≡ list.old ++ called_numbers (number_of names.now) (mark.now ∷ [])) }
{
    match mark {
        Mark::Opens => Ok(()),
        Mark::Closes => Ok(()),
        Mark::Declares(_) => Ok(()),
        Mark::Uses(_) => Ok(()),
        Mark::Calls(name) => list.push(names.number(name.text.as_slice())),
    }
}
