// What an identifier names on a core.

ghost use Rattle.std.specs.Prelude.{◌≡◌, ℕ, ◌/◌, ◌%◌, ◌^◌};
ghost use Rattle.xs_core.specs.Names.{meant_by};
ghost use Rattle.xs_instr.specs.Resources.{named, of_kind};

/// A resource of a core by its number among those of its kind, which need not be there.
#[derive(Clone, Copy)]
pub enum Resource {
    Port(u32),
    Timer(u32),
    End(u32),
    Sync(u32),
    Thread(u32),
    Lock(u32),
    Unknown,
}

/// What the identifier names on core `core`. Its top byte is the core, its low byte the kind, and the number stands
/// between.
pub fn look_up(core: u8, identifier: u32) -> Resource
    ensures { meant_by result ≡ named core identifier }
{
    if identifier / 0x100_0000 == core as u32 {
        resource_of(identifier / 0x100 % 0x1_0000, identifier % 0x100)
    } else {
        Resource::Unknown
    }
}

fn resource_of(number: u32, kind: u32) -> Resource
    ensures { meant_by result ≡ of_kind number kind }
{
    match kind {
        0 => Resource::Port(number),
        1 => Resource::Timer(number),
        2 => Resource::End(number),
        3 => Resource::Sync(number),
        4 => Resource::Thread(number),
        5 => Resource::Lock(number),
        _ => Resource::Unknown,
    }
}
