// Numbers.
ghost use Rattle.std.specs.Prelude.{◌≡◌};
ghost use Rattle.xr_stim.specs.Numbers as spec;

/// The value of a word that is a number: one or more decimal digits, of which zeros may stand first. A value of 2^64 or
/// more is told as 2^64 - 1. `None` where the word is no number.
pub fn number(word: &[u8]) -> Option<u64>
    ensures { result ≡ spec.number_up_to 18446744073709551615 word.now }
{
    if word.is_empty() {
        return None;
    }
    let mut value: u64 = 0;
    for digit in word {
        if !digit.is_ascii_digit() {
            return None;
        }
        value = value
            .saturating_mul(10)
            .saturating_add((*digit - b'0') as u64);
    }
    Some(value)
}
