// What a port compares: times, conditions and the bits that it has.

ghost use Rattle.std.specs.Prelude.{◌≡◌, ◌≤◌, ◌<◌};
ghost use Rattle.xs_instr.specs.Ports as ports;

use xs_instr::Cond;
use xw_words::port_width;

/// The bits of a value that the port has.
pub fn low_bits(v: u32, id: u8) -> u32
    ensures { result ≡ ports.low_bits v id }
{
    (v as u64 % (1u64 << port_width(id))) as u32
}

/// A port's counter at that clock.
pub fn counter(clock: u32) -> u16
    ensures { result ≡ ports.counter clock }
{
    (clock % 0x1_0000) as u16
}

/// Whether no time is set or it is come.
pub fn time_meets(time: Option<u16>, now: u16) -> bool
    ensures { result ≡ ports.time_meets time now }
{
    match time {
        None => true,
        Some(time) => time == now,
    }
}

/// Whether the pins meet the condition, whose data are the low bits.
pub fn pins_meet(cond: Cond, pins: u32, low: u32) -> bool
    ensures { result ≡ ports.pins_meet cond pins low }
{
    match cond {
        Cond::None => true,
        Cond::Eq => pins == low,
        Cond::Neq => pins != low,
        Cond::After => true,
    }
}
