ghost use Rattle.std.specs.Prelude.{◌≡◌, ◌+◌, ◌^◌, ◌<◌, ◌≤◌, length};
ghost use Rattle.xc_tree.specs.Places.{pos_at, pos_behind as place_behind};
ghost use Rattle.xc_lexer.specs.Places.{IsPlace};

use xw_words::Pos;

/// A place in a text: how many bytes lie before it, and its line and column.
#[derive(Clone, Copy)]
pub struct Place {
    pub at: usize,
    pub pos: Pos,
}

impl Place {
    /// A later place, behind some more bytes.
    pub fn further(self, text: &[u8], end: usize) -> Place
        requires is_in { IsPlace text.now self }
        requires end { self.at ≤ end }
        requires within { end ≤ length text.now }
        ensures { result ≡ record { at = end; pos = pos_at text.now end } }
    {
        Place {
            at: end,
            pos: pos_behind(self.pos, &text[self.at..end]),
        }
    }
}

/// The line and column behind some bytes that begin at `pos`.
fn pos_behind(pos: Pos, bytes: &[u8]) -> Pos
    requires line { pos.line + length bytes.now < 2 ^ 32 }
    requires col { pos.col + length bytes.now + 1 < 2 ^ 32 }
    ensures { result ≡ place_behind pos bytes.now }
{
    let mut behind = pos;
    for b in bytes {
        if *b == b'\n' {
            behind.line += 1;
            behind.col = 1;
        } else {
            behind.col += 1;
        }
    }
    behind
}
