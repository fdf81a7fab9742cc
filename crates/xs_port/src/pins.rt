// The pins of a core's ports, as the stimulus has set them up to a clock.

ghost use Rattle.std.specs.Prelude.{◌≡◌, ◌+◌, ◌≤◌, drop, IfOk};
ghost use Rattle.xs_instr.specs.Ports.{pins_from};
ghost use Rattle.xs_instr.specs.Valid.{AreGoodLines, IsGoodStim};
ghost use Rattle.xs_port.specs.Lines.{Used};

use std::alloc::Global;
use std::marker::Model;
use xs_instr::{Stim, StimLine};
use xw_words::{List, Memory};

/// The pins at a clock. `values` has them by the ports' identifiers, and `used` lines have set them.
#[derive(Drop)]
pub struct Pins {
    lines: List<StimLine>,
    core: u8,
    clock: u32,
    used: usize,
    values: [u32; 256],
}

impl Model for Pins {
    ghost use Rattle.xs_port.specs.State.{Outside};

    ghost Value = { Outside };

    ghost use Rattle.xs_port.specs.Pins.{outside_of, AreCurrent};

    ghost view = { outside_of };

    ghost invariant = { AreCurrent };
}

impl Pins {
    /// The pins of a core at clock 0.
    pub fn new(alloc: Global, stim: &Stim, core: u8) -> Result<Pins, Memory>
        requires { IsGoodStim stim.now }
        ensures { IfOk result (λ pins. pins ≡ record { stim = stim.now.lines; core = core; clock = 0 }) }
    {
        let lines = stim.lines.copy(alloc)?;
        let mut values = [0; 256];
        let used = advance(lines.as_slice(), core, 0, 0, &mut values);
        Ok(Pins {
            lines,
            core,
            clock: 0,
            used,
            values,
        })
    }

    /// Goes on to a clock, or back to one before the clock that was told last.
    pub fn tick(&mut self, clock: u32)
        ensures { self.new ≡ record self.old { clock = clock } }
    {
        if clock < self.clock {
            self.restart();
        }
        self.go_on(clock);
    }

    /// Goes back to clock 0.
    fn restart(&mut self)
        ensures { self.new ≡ record self.old { clock = 0 } }
    {
        self.values = [0; 256];
        self.used = advance(self.lines.as_slice(), self.core, 0, 0, &mut self.values);
        self.clock = 0;
    }

    /// Goes on to a clock that is not before the one told last.
    fn go_on(&mut self, clock: u32)
        requires { self.old.clock ≤ clock }
        ensures { self.new ≡ record self.old { clock = clock } }
    {
        self.used = advance(
            self.lines.as_slice(),
            self.core,
            self.used,
            clock,
            &mut self.values,
        );
        self.clock = clock;
    }

    /// The clock that was told last.
    pub fn clock(&self) -> u32
        ensures { result ≡ self.now.clock }
    {
        self.clock
    }

    /// The number of the core.
    pub fn core(&self) -> u8
        ensures { result ≡ self.now.core }
    {
        self.core
    }

    /// The pins of the port with that identifier.
    pub fn of(&self, id: u8) -> u32
        ensures { result ≡ pins_from self.now.stim self.now.core id self.now.clock 0 }
    {
        self.values[id as usize]
    }
}

// Uses the lines from place `used` on that are due at that clock, and gives the place of the first that is not.
fn advance(lines: &[StimLine], core: u8, used: usize, clock: u32, values: &mut [u32; 256]) -> usize
    requires { AreGoodLines 0 (drop used lines.now) }
    ensures later { AreGoodLines (clock + 1) (drop result lines.now) }
    ensures used { Used (drop used lines.now) (drop result lines.now) core clock values.old values.new }
{
    let mut next = used;
    while next < lines.len() && lines[next].tick <= clock {
        let line = lines[next];
        if line.core == core {
            values[line.port as usize] = line.value;
        }
        next += 1;
    }
    next
}
