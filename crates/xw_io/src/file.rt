// Files in memory.
ghost use Rattle.std.specs.Prelude.{◌≡◌, MatchOption, None, Some};
ghost use Rattle.xw_io.specs.Outside.{found};

use xw_words::List;

/// A file's name and its bytes.
#[derive(Drop)]
pub struct File {
    pub name: List<u8>,
    pub bytes: List<u8>,
}

/// The bytes of the first file of this name. `None` exactly where no file has it.
pub fn find<'a>(files: &'a [File], name: &[u8]) -> Option<&'a List<u8>>
    ensures { MatchOption result (found files.now name.now ≡ None) (λ b. found files.now name.now ≡ Some b.now) }
{
    for file in files {
        if file.name.as_slice() == name {
            return Some(&file.bytes);
        }
    }
    None
}
