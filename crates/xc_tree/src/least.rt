ghost use Rattle.std.specs.Prelude.{◌≡◌};
ghost use Rattle.xc_tree.specs.Least.{comes_before as is_before, first_of};

use xw_words::Broken;

/// Of two broken rules, each of which may be absent, the one that stands first, and at one place that of the lesser number.
pub fn earlier(a: Option<Broken>, b: Option<Broken>) -> Option<Broken>
    ensures { result ≡ first_of a b }
{
    match (a, b) {
        (None, b) => b,
        (Some(a), None) => Some(a),
        (Some(a), Some(b)) => { if comes_before(b, a) { Some(b) } else { Some(a) } }
    }
}

/// Whether one broken rule stands before another, or at its place and has the lesser number.
pub fn comes_before(a: Broken, b: Broken) -> bool
    ensures { result ≡ is_before a b }
{
    a.pos.line < b.pos.line
        || a.pos.line == b.pos.line
            && (a.pos.col < b.pos.col || a.pos.col == b.pos.col && a.rule < b.rule)
}
