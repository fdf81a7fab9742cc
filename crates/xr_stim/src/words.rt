// Words.
ghost use Rattle.std.specs.Prelude.{◌≡◌, ◌<◌, ◌==◌, [], ◌∷◌, length, IfSome, MatchOption};
ghost use Rattle.std.specs.List.{position};
ghost use Rattle.xr_stim.specs.Lines as spec;
ghost use Rattle.xr_stim.specs.Lines.{words};

/// The first word of a line, and what stands behind it. `None` where the line has no word.
///
/// Words are parted by one or more spaces, and spaces may also stand at both ends of a line.
pub fn first_word(line: &[u8]) -> Option<(&[u8], &[u8])>
    ensures { MatchOption result (words line.now ≡ []) (λ r. words line.now ≡ r.0.now ∷ words r.1.now) }
{
    let line = past_spaces(line);
    if line.is_empty() {
        return None;
    }
    let end = place_of(line, b' ').unwrap_or(line.len());
    Some((&line[..end], &line[end..]))
}

/// What stands from the first byte on that is no space.
pub fn past_spaces(line: &[u8]) -> &[u8]
    ensures { result.now ≡ spec.past_spaces line.now }
{
    let mut rest = line;
    while let [b' ', behind @ ..] = rest {
        rest = behind;
    }
    rest
}

/// The place of the first byte of this value. `None` where there is none.
pub fn place_of(bytes: &[u8], byte: u8) -> Option<usize>
    ensures place { result ≡ position (λ b. b == byte) bytes.now }
    ensures within { IfSome result (λ place. place < length bytes.now) }
{
    bytes.iter().position(|b| *b == byte)
}
