//! The ports of a core: their identifiers and widths. A port is known by its place among them.

ghost use Rattle.std.specs.Prelude.{◌≡◌};
ghost use Rattle.xw_words.specs.Ports as spec;
ghost use Rattle.xw_words.specs.Ports.{identifiers};
ghost use Rattle.xw_words.specs.Tables.{place_in as place};

use crate::tables::place_in;

/// How many ports a core has.
pub const PORT_COUNT: u8 = 29;

/// The identifiers of ports in a source text, in the order of their places: 16 ports of 1 bit, then 6 of 4, 4 of 8, 2 of 16, and
/// one of 32.
pub const IDENTIFIERS: [&[u8]; 29] = [
    b"XS1_PORT_1A",
    b"XS1_PORT_1B",
    b"XS1_PORT_1C",
    b"XS1_PORT_1D",
    b"XS1_PORT_1E",
    b"XS1_PORT_1F",
    b"XS1_PORT_1G",
    b"XS1_PORT_1H",
    b"XS1_PORT_1I",
    b"XS1_PORT_1J",
    b"XS1_PORT_1K",
    b"XS1_PORT_1L",
    b"XS1_PORT_1M",
    b"XS1_PORT_1N",
    b"XS1_PORT_1O",
    b"XS1_PORT_1P",
    b"XS1_PORT_4A",
    b"XS1_PORT_4B",
    b"XS1_PORT_4C",
    b"XS1_PORT_4D",
    b"XS1_PORT_4E",
    b"XS1_PORT_4F",
    b"XS1_PORT_8A",
    b"XS1_PORT_8B",
    b"XS1_PORT_8C",
    b"XS1_PORT_8D",
    b"XS1_PORT_16A",
    b"XS1_PORT_16B",
    b"XS1_PORT_32A",
];

/// The place of a port by its identifier. `None` where no port has it.
#[tactic(auto, unfolding(crate::specs::Ports::identifiers))]
pub fn identifier_place(identifier: &[u8]) -> Option<u8>
    ensures { result ≡ place identifiers identifier.now }
{
    place_in(&IDENTIFIERS, identifier)
}

/// The port's width in bits.
pub fn port_width(port: u8) -> u32
    ensures { result ≡ spec.width_of port }
{
    match port {
        0..16 => 1,
        16..22 => 4,
        22..26 => 8,
        26..28 => 16,
        _ => 32,
    }
}
