// The ports of a core.

ghost use Rattle.std.specs.Prelude.{◌≡◌, ◌≢◌, ◌%◌, ◌^◌, ◌<◌, ◌≤◌, ◌↔◌, Some, None, false, length, map, nat_lt, IfOk, IfNone};
ghost use Rattle.xs_instr.specs.Machine.{boot_port, boot_ports};
ghost use Rattle.xs_instr.specs.Ports as rules;
ghost use Rattle.xs_instr.specs.Valid.{AreGoodPorts, IsGoodStim};
ghost use Rattle.xs_port.specs.Ports.{port_at, with_port, boot_seen, home_of, input_turn, output_turn, passes_input};

use crate::meeting::{counter, low_bits, pins_meet, time_meets};
use crate::pins::Pins;
use std::alloc::{AllocError, Global};
use std::marker::Model;
use xs_instr::{Cond, Port, PortDecl, PortGot, Stim};
use xw_words::{List, Memory};

/// The ports of a core, which contracts see as the list of their states, the clock, the stimulus and the core. A port
/// is named by its place in the list.
#[derive(Drop)]
pub struct Ports {
    ports: List<Port>,
    pins: Pins,
}

impl Model for Ports {
    ghost use Rattle.xs_port.specs.State.{PortsState};

    ghost Value = { PortsState };

    ghost view = { λ p. record { ports = p.ports; clock = p.pins.clock; stim = p.pins.stim; core = p.pins.core } };
}

impl Ports {
    /// The ports as they start, at clock 0. It takes all memory that is ever taken for them. The one error is want of memory.
    pub fn new(
        alloc: Global,
        decls: &List<PortDecl>,
        stim: &Stim,
        core: u8,
    ) -> Result<Ports, Memory>
        requires ports { AreGoodPorts decls.now }
        requires stim { IsGoodStim stim.now }
        ensures boot { IfOk result (λ ports. ports ≡ boot_seen (boot_ports decls.now) stim.now.lines core) }
        ensures count { IfOk result (λ ports. length ports.ports ≡ length decls.now) }
    {
        let ports = booted(alloc, decls.as_slice())?;
        let pins = Pins::new(alloc, stim, core)?;
        Ok(Ports { ports, pins })
    }

    /// Tells the ports the clock, in ticks. A clock that rises costs the lines that it passes; one that falls costs them all.
    pub fn tick(&mut self, clock: u32)
        ensures { self.new ≡ record self.old { clock = clock } }
    {
        self.pins.tick(clock);
    }

    /// The clock that was told last, in ticks.
    pub fn clock(&self) -> u32
        ensures { result ≡ self.now.clock }
    {
        self.pins.clock()
    }

    /// The number of the core.
    pub fn core(&self) -> u8
        ensures { result ≡ self.now.core }
    {
        self.pins.core()
    }

    /// Whether there is a port at a place.
    pub fn has(&self, p: u32) -> bool
        ensures { result ≡ nat_lt p (length self.now.ports) }
    {
        (p as usize) < self.ports.len()
    }

    /// The port's identifier and the way that it goes.
    pub fn decl(&self, p: u32) -> PortDecl
        requires { p < length self.now.ports }
        ensures { result ≡ (port_at self.now p).decl }
    {
        self.port(p).decl
    }

    /// Whether an output would pass now: no time is set, or the counter is there.
    pub fn can_drive(&self, p: u32) -> bool
        requires { p < length self.now.ports }
        ensures { result ≡ rules.time_meets (port_at self.now p).time (rules.counter self.now.clock) }
    {
        time_meets(self.port(p).time, self.counter())
    }

    /// Whether an input would pass now: something is latched, or the port meets.
    pub fn can_read(&self, p: u32) -> bool
        requires { p < length self.now.ports }
        ensures { result ≡ passes_input (home_of self.now) self.now.clock (port_at self.now p) }
    {
        self.port(p).latch.is_some() || self.meets(p)
    }

    /// The port's pins: the value of the stimulus's last line for it at or before the clock, else 0.
    pub fn pins(&self, p: u32) -> u32
        requires { p < length self.now.ports }
        ensures { result ≡ rules.pins_of (home_of self.now) self.now.clock (port_at self.now p).decl.port }
    {
        self.pins.of(self.port(p).decl.port)
    }

    /// Sets the condition, which is none of timers, and clears latch and time.
    pub fn set_cond(&mut self, p: u32, c: Cond)
        requires there { p < length self.old.ports }
        requires of_ports { c ≢ Cond.After }
        ensures condition { self.new ≡ with_port self.old p (record (port_at self.old p) { cond = c; latch = None; time = None }) }
        ensures count { length self.new.ports ≡ length self.old.ports }
    {
        let port = self.port(p);
        self.put(
            p,
            Port {
                cond: c,
                time: None,
                latch: None,
                ..port
            },
        );
    }

    /// Sets what the condition compares the pins with.
    pub fn set_data(&mut self, p: u32, v: u32)
        requires { p < length self.old.ports }
        ensures data_set { self.new ≡ with_port self.old p (record (port_at self.old p) { datum = v }) }
        ensures count { length self.new.ports ≡ length self.old.ports }
    {
        let port = self.port(p);
        self.put(p, Port { datum: v, ..port });
    }

    /// Sets the time of the next transfer, a value of the counter: the low 16 bits of `t`.
    pub fn set_time(&mut self, p: u32, t: u32)
        requires { p < length self.old.ports }
        ensures time_set { self.new ≡ with_port self.old p (record (port_at self.old p) { time = Some (t % 2 ^ 16) }) }
        ensures count { length self.new.ports ≡ length self.old.ports }
    {
        let port = self.port(p);
        self.put(
            p,
            Port {
                time: Some(counter(t)),
                ..port
            },
        );
    }

    /// Whether an input that finds nothing latched would pass now: time and condition are met.
    pub fn meets(&self, p: u32) -> bool
        requires { p < length self.now.ports }
        ensures { result ≡ rules.meets (home_of self.now) self.now.clock (port_at self.now p) }
    {
        let port = self.port(p);
        let low = low_bits(port.datum, port.decl.port);
        time_meets(port.time, self.counter()) && pins_meet(port.cond, self.pins(p), low)
    }

    /// Keeps the pins and the counter, as an event does, and clears the time.
    pub fn latch(&mut self, p: u32)
        requires { p < length self.old.ports }
        ensures latched { self.new ≡ with_port self.old p (rules.port_latched (home_of self.old) self.old.clock (port_at self.old p)) }
        ensures count { length self.new.ports ≡ length self.old.ports }
    {
        let port = self.port(p);
        let got = self.got(p);
        self.put(
            p,
            Port {
                time: None,
                latch: Some(got),
                ..port
            },
        );
    }

    /// An input: what is latched, which is cleared, or the pins and the counter, where the port meets. `None`: nothing
    /// is latched and the port does not meet, and nothing changes.
    pub fn read(&mut self, p: u32) -> Option<PortGot>
        requires { p < length self.old.ports }

        // The machine's input, at this port.
        ensures turn { let port = port_at self.old p in
            input_turn self.old port result self.new.ports
            ≡ rules.reads_latched (home_of self.old) self.old.clock self.old.ports p port port.latch }
        ensures none { let port = port_at self.old p in
            (result ≡ None) ↔ ((port.latch ≡ None) × (rules.meets (home_of self.old) self.old.clock port ≡ false)) }
        ensures unchanged { IfNone result (self.new ≡ self.old) }
        ensures rest { self.new ≡ record self.old { ports = self.new.ports } }
        ensures count { length self.new.ports ≡ length self.old.ports }
    {
        let port = self.port(p);
        match port.latch {
            Some(got) => {
                self.put(
                    p,
                    Port {
                        latch: None,
                        stamp: got.stamp,
                        ..port
                    },
                );
                Some(got)
            }
            None => {
                if !self.meets(p) {
                    return None;
                }
                let got = self.got(p);
                self.put(p, moved_at(port, got.stamp));
                Some(got)
            }
        }
    }

    /// An output of the low bits of `v`, with the counter. `None`: a time is set and not come, and nothing changes.
    pub fn drive(&mut self, p: u32, v: u32) -> Option<PortGot>
        requires { p < length self.old.ports }

        // The machine's output, at this port.
        ensures turn { let port = port_at self.old p in
            let now = rules.counter self.old.clock in
            output_turn self.old port result self.new.ports
            ≡ rules.drives_by (home_of self.old) now v self.old.ports p port (rules.time_meets port.time now) }
        ensures none { (result ≡ None) ↔ (rules.time_meets (port_at self.old p).time (rules.counter self.old.clock) ≡ false) }
        ensures unchanged { IfNone result (self.new ≡ self.old) }
        ensures rest { self.new ≡ record self.old { ports = self.new.ports } }
        ensures count { length self.new.ports ≡ length self.old.ports }
    {
        let port = self.port(p);
        let now = self.counter();
        if !time_meets(port.time, now) {
            return None;
        }
        self.put(p, moved_at(port, now));
        Some(PortGot {
            value: low_bits(v, port.decl.port),
            stamp: now,
        })
    }

    /// The counter of the last transfer, in ticks modulo 2^16.
    pub fn stamp(&self, p: u32) -> u16
        requires { p < length self.now.ports }
        ensures { result ≡ (port_at self.now p).stamp }
    {
        self.port(p).stamp
    }

    // The port at a place.
    fn port(&self, p: u32) -> Port
        requires { p < length self.now.ports }
        ensures { result ≡ port_at self.now p }
    {
        self.ports.as_slice()[p as usize]
    }

    // Puts another port at a place.
    fn put(&mut self, p: u32, port: Port)
        requires { p < length self.old.ports }
        ensures { self.new ≡ with_port self.old p port }
    {
        self.ports.set(p as usize, port);
    }

    // The counter, which is that of all ports.
    fn counter(&self) -> u16
        ensures { result ≡ rules.counter self.now.clock }
    {
        counter(self.pins.clock())
    }

    // The pins and the counter.
    fn got(&self, p: u32) -> PortGot
        requires { p < length self.now.ports }
        ensures value { result.value ≡ rules.pins_of (home_of self.now) self.now.clock (port_at self.now p).decl.port }
        ensures stamp { result.stamp ≡ rules.counter self.now.clock }
    {
        PortGot {
            value: self.pins(p),
            stamp: self.counter(),
        }
    }
}

// The port after a transfer at that counter which found nothing latched.
fn moved_at(port: Port, now: u16) -> Port
    ensures { result ≡ rules.moved_at port now }
{
    Port {
        time: None,
        stamp: now,
        ..port
    }
}

// The port as it starts.
fn booted_port(decl: PortDecl) -> Port
    ensures { result ≡ boot_port decl }
{
    Port {
        decl,
        cond: Cond::None,
        datum: 0,
        time: None,
        latch: None,
        stamp: 0,
    }
}

// The ports as they start.
fn booted(alloc: Global, decls: &[PortDecl]) -> Result<List<Port>, Memory>
    ensures boot { IfOk result (λ ports. ports ≡ boot_ports decls.now) }
    ensures count { IfOk result (λ ports. length ports ≡ length decls.now) }
{
    let mut ports = List::new(alloc);
    for decl in decls {
        ports.push(booted_port(*decl))?;
    }
    Ok(ports)
}
