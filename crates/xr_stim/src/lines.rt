// Lines.
ghost use Rattle.std.specs.Prelude.{◌≡◌, ◌<◌, [], ◌∷◌, length, IfSome, MatchOption};
ghost use Rattle.std.specs.Str.Lines.{lines, strip_carriage_return};
ghost use Rattle.xr_stim.specs.Lines as spec;

use crate::words::{past_spaces, place_of};

/// The first line of a text, and what stands behind it. `None` where the text has no line, which is where it is empty.
///
/// A line ends with a line feed, which the last line may lack. A carriage return right before a line feed is dropped.
pub fn first_line(text: &[u8]) -> Option<(&[u8], &[u8])>
    ensures line { MatchOption result (lines text.now ≡ []) (λ r. lines text.now ≡ r.0.now ∷ lines r.1.now) }
    ensures shorter { IfSome result (λ r. length r.1.now < length text.now) }
{
    match place_of(text, b'\n') {
        Some(end) => Some((without_return(&text[..end]), &text[end + 1..])),
        None if text.is_empty() => None,
        None => Some((text, &text[text.len()..])),
    }
}

// The line without the carriage return at its end, if it has one.
fn without_return(line: &[u8]) -> &[u8]
    ensures { result.now ≡ strip_carriage_return line.now }
{
    match line {
        [before @ .., b'\r'] => before,
        _ => line,
    }
}

/// Whether a line says nothing: it is empty or of spaces alone, or its first byte past spaces is `#`.
pub fn is_skipped(line: &[u8]) -> bool
    ensures { result ≡ spec.is_skipped line.now }
{
    match past_spaces(line) {
        [] => true,
        [first, ..] => *first == b'#',
    }
}
