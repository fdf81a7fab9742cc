ghost use Rattle.std.specs.Prelude.{◌≡◌, ◌≤◌, length};
ghost use Rattle.xw_words.specs.Tables as spec;
ghost use Rattle.xw_words.specs.Tables.{texts};

/// The first place of a row of bytes in a table, from 0. `None` where it isn't there.
pub fn place_in(table: &[&[u8]], row: &[u8]) -> Option<u8>
    requires { length table.now ≤ 255 }
    ensures { result ≡ spec.place_in (texts table.now) row.now }
{
    for (k, other) in table.iter().enumerate() {
        if *other == row {
            return Some(k as u8);
        }
    }
    None
}
