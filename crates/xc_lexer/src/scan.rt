ghost use Rattle.std.specs.Prelude.{◌≡◌, ℕ, ◌+◌, ◌^◌, ◌<◌, ◌≤◌, length, true, false, IfSome, IfNone};
ghost use Rattle.xc_tree.specs.Bytes as spec;
ghost use Rattle.xc_tree.specs.declared.lexing.Start.TheVariants.{End, LineComment, BlockComment, Letter, Digit};
ghost use Rattle.xc_tree.specs.Bytes.{Span, ClosedAt, Unclosed, HasBytesAt, start_at, part};

use xc_tree::Start;

#[tactic(auto, unfolding(xc_tree::specs::Bytes::is_letter))]
/// Whether a byte is a letter or `_`.
pub fn is_letter(b: u8) -> bool
    ensures { result ≡ spec.is_letter b }
{
    if b >= b'a' && b <= b'z' {
        return true;
    }
    if b >= b'A' && b <= b'Z' {
        return true;
    }
    b == b'_'
}

#[tactic(auto, unfolding(xc_tree::specs::Bytes::is_digit))]
/// Whether a byte is a decimal digit.
pub fn is_digit(b: u8) -> bool
    ensures { result ≡ spec.is_digit b }
{
    b >= b'0' && b <= b'9'
}

#[tactic(auto, unfolding(xc_tree::specs::Bytes::is_of_word))]
/// Whether a byte is a letter, a digit or `_`.
pub fn is_of_word(b: u8) -> bool
    ensures { result ≡ spec.is_of_word b }
{
    is_letter(b) || is_digit(b)
}

#[tactic(auto, unfolding(xc_tree::specs::Bytes::is_blank))]
/// Whether a byte is a blank within a line.
pub fn is_blank(b: u8) -> bool
    ensures { result ≡ spec.is_blank b }
{
    b == b' ' || b == b'\t' || b == b'\r'
}

#[tactic(auto, unfolding(xc_tree::specs::Bytes::is_letter))]
/// Whether a letter or `_` stands at a place.
pub fn has_letter(text: &[u8], at: usize) -> bool
    ensures { result ≡ spec.is_letter (spec.byte text.now at) }
{
    at < text.len() && is_letter(text[at])
}

#[tactic(auto, unfolding(xc_tree::specs::Bytes::is_digit))]
/// Whether a decimal digit stands at a place.
pub fn has_digit(text: &[u8], at: usize) -> bool
    ensures { result ≡ spec.is_digit (spec.byte text.now at) }
{
    at < text.len() && is_digit(text[at])
}

/// Where a row of letters, digits and `_` ends.
pub fn run_end(text: &[u8], at: usize) -> usize
    requires { at ≤ length text.now }
    ensures span { Span spec.is_of_word text.now at result }
    ensures within { result ≤ length text.now }
{
    let mut end = at;
    'run: while end < text.len() {
        if !is_of_word(text[end]) {
            return end;
        }
        end += 1;
    }
    end
}

/// Where a row of blanks ends.
pub fn blanks_end(text: &[u8], at: usize) -> usize
    requires { at ≤ length text.now }
    ensures span { Span spec.is_blank text.now at result }
    ensures within { result ≤ length text.now }
{
    let mut end = at;
    'run: while end < text.len() {
        if !is_blank(text[end]) {
            return end;
        }
        end += 1;
    }
    end
}

#[tactic(auto, unfolding(xc_tree::specs::Bytes::is_in_line))]
/// Whether a byte is none that ends a line.
fn is_in_line(b: u8) -> bool
    ensures { result ≡ spec.is_in_line b }
{
    b != b'\n'
}

/// Where a line ends: at its line feed, or with the text.
pub fn line_end(text: &[u8], at: usize) -> usize
    requires { at ≤ length text.now }
    ensures span { Span spec.is_in_line text.now at result }
    ensures within { result ≤ length text.now }
{
    let mut end = at;
    'run: while end < text.len() {
        if !is_in_line(text[end]) {
            return end;
        }
        end += 1;
    }
    end
}

/// Where the first `*/` from a place on ends.
pub fn comment_end(text: &[u8], at: usize) -> Option<usize>
    requires { at ≤ length text.now }
    ensures closed { IfSome result (λ j. ClosedAt text.now at j × (j ≤ length text.now)) }
    ensures open { IfNone result (Unclosed text.now at) }
{
    let mut k = at;
    'bytes: while k < text.len() && text.len() - k > 1 {
        if text[k] == b'*' && text[k + 1] == b'/' {
            return Some(k + 2);
        }
        k += 1;
    }
    None
}

#[tactic(auto, unfolding(xc_tree::specs::Bytes::start_of, xc_tree::specs::Bytes::is_of_word, xc_tree::specs::Bytes::is_in_line))]
/// What a place begins.
pub fn starts(text: &[u8], at: usize) -> Start
    ensures is { result ≡ start_at text.now at }
    ensures within { (result ≡ End → ⊥) → at < length text.now }
    ensures end { result ≡ End → length text.now ≤ at }
    ensures comment { result ≡ BlockComment → at + 2 ≤ length text.now }
    ensures line { result ≡ LineComment → spec.is_in_line (spec.byte text.now at) ≡ true }
    ensures letter { result ≡ Letter → spec.is_of_word (spec.byte text.now at) ≡ true }
    ensures digit { result ≡ Digit → spec.is_of_word (spec.byte text.now at) ≡ true }
{
    if at >= text.len() {
        return Start::End;
    }
    let b = text[at];
    if is_blank(b) {
        return Start::Blank;
    }
    if b == b'\n' {
        return Start::LineEnd;
    }
    let next = if text.len() - at > 1 {
        text[at + 1]
    } else {
        b' '
    };
    if b == b'/' && next == b'/' {
        return Start::LineComment;
    }
    if b == b'/' && next == b'*' {
        return Start::BlockComment;
    }
    if b == b'#' {
        return Start::Hash;
    }
    if is_letter(b) {
        return Start::Letter;
    }
    if is_digit(b) {
        return Start::Digit;
    }
    Start::Other
}

/// Where these bytes end, if they stand at a place.
pub fn past(text: &[u8], at: usize, spelled: &[u8]) -> Option<usize>
    requires { 0 < length spelled.now }
    ensures some { IfSome result
        (λ end. HasBytesAt text.now at spelled.now × (end ≡ at + length spelled.now)
        × (end ≤ length text.now)) }
    ensures none { IfNone result (HasBytesAt text.now at spelled.now → ⊥) }
{
    if at > text.len() || text.len() - at < spelled.len() {
        return None;
    }
    let end = at + spelled.len();
    if &text[at..end] == spelled {
        Some(end)
    } else {
        None
    }
}
