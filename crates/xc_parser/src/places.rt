ghost use Rattle.std.specs.Prelude.{◌≡◌, ◌+◌, ◌^◌, ◌<◌, ◌≤◌, length};
ghost use Rattle.xc_tree.specs.Places.{pos_at};
ghost use Rattle.xw_words.specs.Limits.{longest_text};

use xw_words::Pos;

/// The place just behind a text of at most 4,194,304 bytes: lines and columns count from 1, a line feed ends a line, and a
/// column counts bytes.
pub fn end_pos(text: &[u8]) -> Pos
    requires short { length text.now ≤ longest_text }
    ensures { result ≡ pos_at text.now (length text.now) }
{
    let mut end = Pos { line: 1, col: 1 };
    for b in text {
        if *b == b'\n' {
            end.line += 1;
            end.col = 1;
        } else {
            end.col += 1;
        }
    }
    end
}
