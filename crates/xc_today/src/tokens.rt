//! What stands among tokens.

ghost use Rattle.std.specs.Prelude.{IsTrue, ◌↔◌};
ghost use Rattle.xc_today.specs.Today as today;

use xc_tree::words::{MASTER_WORD, SLAVE_WORD};
use xc_tree::{Kind, Tok};

/// The words of later forms.
const LATER_WORDS: [u8; 2] = [MASTER_WORD, SLAVE_WORD];

/// Whether the program that tokens are is built today: no word of a later form stands among them.
pub fn is_supported(toks: &[Tok]) -> bool
    ensures { IsTrue result ↔ today.IsSupported toks.now }
{
    let mut rest = toks;
    'each: while let [first, behind @ ..] = rest {
        if !is_kind_supported(&first.kind) {
            return false;
        }
        rest = behind;
    }
    true
}

/// Whether a token is no word of a later form.
fn is_kind_supported(kind: &Kind) -> bool
    ensures { IsTrue result ↔ today.KindIsSupported kind.now }
{
    match kind {
        Kind::Name(_) => true,
        Kind::Num(_, _) => true,
        Kind::Key(place) => is_none_of(&LATER_WORDS, *place),
        Kind::Sym(_) => true,
    }
}

/// Whether a place is none of some.
fn is_none_of(places: &[u8], place: u8) -> bool
    ensures { IsTrue result ↔ today.IsNoneOf places.now place }
{
    let mut rest = places;
    'each: while let [first, behind @ ..] = rest {
        if place == *first {
            return false;
        }
        rest = behind;
    }
    true
}
