// How a line is cut into words, and what words are numbers or names.
ghost use Rattle.std.specs.List.{position};
ghost use Rattle.std.specs.Prelude.{◌≡◌, ◌==◌, ◌<◌, ◌∷◌, [], None, Some, length, IfSome, MatchOption};
ghost use Rattle.xr_assembly.specs.Cuts as spec;
ghost use Rattle.xr_assembly.specs.Cuts.{parts};

use xr_stim::number;

/// What stands before the first byte of this value, and what stands behind it. `None` where there is no such byte.
pub fn split(text: &[u8], byte: u8) -> Option<(&[u8], &[u8])>
    ensures parts { MatchOption result
        (parts byte text.now ≡ text.now ∷ [])
        (λ r. parts byte text.now ≡ r.0.now ∷ parts byte r.1.now) }
    ensures shorter { IfSome result (λ r. length r.1.now < length text.now) }
{
    match place_of(text, byte) {
        Some(place) => Some((&text[..place], &text[place + 1..])),
        None => None,
    }
}

/// The place of the first byte of this value. `None` where there is none.
fn place_of(text: &[u8], byte: u8) -> Option<usize>
    ensures place { result ≡ position (λ b. b == byte) text.now }
    ensures within { IfSome result (λ place. place < length text.now) }
{
    text.iter().position(|b| *b == byte)
}

/// What stands before a byte of this value that ends the word, if one does.
pub fn before_last(word: &[u8], byte: u8) -> Option<&[u8]>
    ensures { MatchOption result
        (spec.before_last byte word.now ≡ None)
        (λ before. spec.before_last byte word.now ≡ Some before.now) }
{
    let [before @ .., last] = word else {
        return None;
    };
    if *last == byte { Some(before) } else { None }
}

/// What stands behind a byte of this value that begins the word, if one does.
pub fn behind_first(word: &[u8], byte: u8) -> Option<&[u8]>
    ensures { MatchOption result
        (spec.behind_first byte word.now ≡ None)
        (λ behind. spec.behind_first byte word.now ≡ Some behind.now) }
{
    match word {
        [first, behind @ ..] if *first == byte => Some(behind),
        _ => None,
    }
}

/// The number that a word is, if it is one: one or more digits, without a zero in front of others. The inner `None` tells a number of
/// 2^32 or more.
pub fn numeral(word: &[u8]) -> Option<Option<u32>>
    ensures { result ≡ spec.numeral word.now }
{
    if has_leading_zero(word) {
        return None;
    }
    let n = number(word)?;
    if n > u32::MAX as u64 {
        return Some(None);
    }
    Some(Some(n as u32))
}

fn has_leading_zero(word: &[u8]) -> bool
    ensures { result ≡ spec.has_leading_zero word.now }
{
    match word {
        [first, _, ..] => *first == b'0',
        _ => false,
    }
}

/// The value in the first of these rows that has this text. `None` where none has it.
pub fn named<T: Copy>(rows: &[(&[u8], T)], word: &[u8]) -> Option<T>
    ensures { result ≡ spec.value_named rows.now word.now }
{
    let mut rest = rows;
    'each: while let [row, behind @ ..] = rest {
        if row.0 == word {
            return Some(row.1);
        }
        rest = behind;
    }
    None
}
