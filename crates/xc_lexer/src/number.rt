ghost use Rattle.std.specs.Prelude.{◌≡◌, ℕ, ◌+◌, ◌^◌, ◌<◌, ◌≤◌, min, length, IfSome, IfNone, Some, None, true};
ghost use Rattle.xc_tree.specs.Numbers as spec;

use xc_tree::{Number, Reading};

/// The least number that is too large.
const TOO_LARGE: u64 = 4_294_967_296;

#[tactic(auto, unfolding(xc_tree::specs::Numbers::digit))]
/// The value of a digit, and 99 of a byte that is none.
fn digit(b: u8) -> u8
    ensures { result ≡ spec.digit b }
{
    if b >= b'0' && b <= b'9' {
        return b - b'0';
    }
    if b >= b'a' && b <= b'f' {
        return b - b'a' + 10;
    }
    if b >= b'A' && b <= b'F' {
        return b - b'A' + 10;
    }
    99
}

/// The number that digits to a base make, and 2^32 for each greater one.
fn numeral(base: u8, digits: &[u8]) -> Option<u64>
    requires low { 0 < base }
    requires high { base ≤ 16 }
    ensures some { IfSome result
        (λ v. (n : ℕ) × (spec.numeral base digits.now ≡ Some n) × (v ≡ min n (2 ^ 32))) }
    ensures none { IfNone result (spec.numeral base digits.now ≡ None) }
{
    if digits.is_empty() {
        return None;
    }
    let mut value = 0u64;
    for b in digits {
        let d = digit(*b);
        if d >= base {
            return None;
        }
        value = (value * base as u64 + d as u64).min(TOO_LARGE);
    }
    Some(value)
}

#[tactic(auto, unfolding(xc_tree::specs::Numbers::value_of, xc_tree::specs::Numbers::numeral))]
/// The number that a run without its suffix is, and 2^32 for each greater one.
fn value_of(digits: &[u8]) -> Option<u64>
    ensures some { IfSome result
        (λ v. (n : ℕ) × (spec.value_of digits.now ≡ Some n) × (v ≡ min n (2 ^ 32))) }
    ensures none { IfNone result (spec.value_of digits.now ≡ None) }
{
    if digits.is_empty() || digits[0] != b'0' {
        return numeral(10, digits);
    }
    if digits.len() == 1 {
        return Some(0);
    }
    if digits[1] == b'x' {
        return numeral(16, &digits[2..]);
    }
    if digits[1] == b'b' {
        return numeral(2, &digits[2..]);
    }
    numeral(8, &digits[1..])
}

#[tactic(auto, unfolding(xc_tree::specs::Numbers::has_suffix))]
/// Whether a run ends in `u` or `U`.
fn has_suffix(run: &[u8]) -> bool
    requires { 0 < length run.now }
    ensures { result ≡ spec.has_suffix run.now }
{
    let last = run[run.len() - 1];
    last == b'u' || last == b'U'
}

#[tactic(auto, unfolding(xc_tree::specs::Numbers::without_suffix))]
/// A run without that.
fn without_suffix(run: &[u8], suffixed: bool) -> &[u8]
    requires some { 0 < length run.now }
    requires suffixed { suffixed ≡ spec.has_suffix run.now }
    ensures { result.now ≡ spec.without_suffix run.now }
{
    if suffixed { &run[..run.len() - 1] } else { run }
}

#[tactic(auto, unfolding(xc_tree::specs::Numbers::reading, xc_tree::specs::Numbers::sized))]
/// What a run that begins with a digit is as a number.
pub fn read(run: &[u8]) -> Reading
    requires { 0 < length run.now }
    ensures { result ≡ spec.reading run.now }
{
    let suffixed = has_suffix(run);
    let digits = without_suffix(run, suffixed);
    let Some(value) = value_of(digits) else {
        return Reading::Formless;
    };
    if value >= TOO_LARGE {
        return Reading::TooLarge;
    }
    Reading::Fine(Number {
        value: value as u32,
        is_unsigned: suffixed || value >= TOO_LARGE / 2,
    })
}
