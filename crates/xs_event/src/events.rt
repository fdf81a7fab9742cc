ghost use Rattle.std.specs.Prelude.{◌≡◌, ◌<◌, ◌≤◌, ◌↔◌, ◌&&◌, ◌||◌, Some, None, IfNone, IfOk, IfSome, IsSome, length};
ghost use Rattle.xs_event.specs.Picks.{IsLeastPickable, NonePickable};
ghost use Rattle.xs_event.specs.Readiness.{is_set, readiness_of};
ghost use Rattle.xs_event.specs.Watches.{owner_of, HasAll};
ghost use Rattle.xs_instr.specs.Events.{cleared, cleared_by, cleared_in, disabled, enabled, owner_at, picked, picked_in, res_number, vector_of, vector_set, watch_of, watch_put};
ghost use Rattle.xs_instr.specs.Machine.{boot_events, boot_watches};
ghost use Rattle.xs_instr.specs.Resources.{is_num};
ghost use Rattle.xs_instr.specs.Sight.{some_enabled};

use crate::Ready;
use std::alloc::Global;
use std::marker::Model;
use xs_instr::{Res, Watch};
use xw_words::{List, Memory};

/// How many resources there are of each kind.
const RESOURCES: usize = 32;

/// What is watched for each resource of a core: the vector of its event, and the thread that
/// enabled it. A resource's number is below 32: for another one nothing is kept. A thread's number
/// is below 8.
#[derive(Drop)]
pub struct Events {
    watched: xs_instr::Events,
}

impl Model for Events {
    ghost use Rattle.xs_instr.specs.declared.state.Events.{Events};
    ghost use Rattle.xs_event.specs.Watches.{HasAll};

    ghost Value = { Events };

    ghost view = { λ events. events.watched };

    ghost invariant = { λ events. HasAll events.watched };
}

impl Events {
    /// No vector is set and no resource is enabled. `Memory` only where it could not be allocated.
    /// No other call takes memory.
    pub fn new(alloc: Global) -> Result<Events, Memory>
        ensures { IfOk result (λ events. events ≡ boot_events) }
    {
        Ok(Events {
            watched: xs_instr::Events {
                ports: new_watches(alloc)?,
                timers: new_watches(alloc)?,
                ends: new_watches(alloc)?,
            },
        })
    }

    /// Sets the vector of a resource.
    pub fn set_vector(&mut self, r: Res, k: u32)
        ensures set { self.new ≡ vector_set self.old r k }
        ensures last { res_number r < 32 → vector_of self.new r ≡ k }
    {
        if let Some(mut watch) = self.watch(r) {
            watch.vector = k;
            self.put(r, watch);
        }
    }

    /// The vector of a resource that was last set, else 0.
    pub fn vector(&self, r: Res) -> u32
        ensures { result ≡ vector_of self.now r }
    {
        match self.watch(r) {
            Some(watch) => watch.vector,
            None => 0,
        }
    }

    /// Enables a resource for this thread and no other.
    pub fn enable(&mut self, r: Res, thread: u8)
        ensures enabled { self.new ≡ enabled self.old r thread }
        ensures owned { res_number r < 32 → owner_of self.new r ≡ Some thread }
    {
        self.set_owner(r, Some(thread));
    }

    /// Disables a resource, whichever thread enabled it.
    pub fn disable(&mut self, r: Res)
        ensures disabled { self.new ≡ disabled self.old r }
        ensures owned { owner_of self.new r ≡ None }
    {
        self.set_owner(r, None);
    }

    /// Disables all resources that this thread enabled.
    pub fn clear(&mut self, thread: u8)
        ensures { self.new ≡ cleared self.old thread }
    {
        clear_in(&mut self.watched.ports, thread);
        clear_in(&mut self.watched.timers, thread);
        clear_in(&mut self.watched.ends, thread);
    }

    /// The least resource that the thread enabled and that is ready: ports before timers before
    /// channel ends, and then by number. `None` exactly where there is none.
    pub fn pick(&self, thread: u8, ready: &Ready) -> Option<Res>
        ensures picked { result ≡ picked self.now thread (readiness_of ready.now) }
        ensures none { IfNone result (NonePickable self.now thread (readiness_of ready.now)) }
        ensures least { IfSome result (IsLeastPickable self.now thread (readiness_of ready.now)) }
        ensures all { HasAll self.now }
    {
        if let Some(n) = first_ready(self.watched.ports.as_slice(), ready.ports, thread) {
            return Some(Res::Port(n));
        }
        if let Some(n) = first_ready(self.watched.timers.as_slice(), ready.timers, thread) {
            return Some(Res::Timer(n));
        }
        match first_ready(self.watched.ends.as_slice(), ready.ends, thread) {
            Some(n) => Some(Res::End(n)),
            None => None,
        }
    }

    /// Whether the thread enabled a port or a timer.
    pub fn has_timed(&self, thread: u8) -> bool
        ensures { result ≡ (some_enabled self.now.ports thread || some_enabled self.now.timers thread) }
    {
        enabled_one(self.watched.ports.as_slice(), thread)
            || enabled_one(self.watched.timers.as_slice(), thread)
    }

    fn set_owner(&mut self, r: Res, owner: Option<u8>)
        ensures set { self.new ≡ owner_at self.old r owner (watch_of self.old r) }
        ensures owned { res_number r < 32 → owner_of self.new r ≡ owner }
        ensures beyond { 32 ≤ res_number r → owner_of self.new r ≡ None }
    {
        if let Some(mut watch) = self.watch(r) {
            watch.owner = owner;
            self.put(r, watch);
        }
    }

    fn watch(&self, r: Res) -> Option<Watch>
        ensures watch { result ≡ watch_of self.now r }
        ensures there { IsSome result ↔ (res_number r < 32) }
    {
        match r {
            Res::Port(n) => self.watched.ports.get(n as usize).copied(),
            Res::Timer(n) => self.watched.timers.get(n as usize).copied(),
            Res::End(n) => self.watched.ends.get(n as usize).copied(),
        }
    }

    fn put(&mut self, r: Res, watch: Watch)
        requires { res_number r < 32 }
        ensures put { self.new ≡ watch_put self.old r watch }
        ensures there { watch_of self.new r ≡ Some watch }
    {
        match r {
            Res::Port(n) => self.watched.ports.set(n as usize, watch),
            Res::Timer(n) => self.watched.timers.set(n as usize, watch),
            Res::End(n) => self.watched.ends.set(n as usize, watch),
        }
    }
}

fn new_watches(alloc: Global) -> Result<List<Watch>, Memory>
    ensures { IfOk result (λ watches. watches ≡ boot_watches) }
{
    let none = Watch {
        vector: 0,
        owner: None,
    };
    let watches = vec![in alloc; none; RESOURCES]?;
    Ok(List::from_vec(watches))
}

fn clear_in(watches: &mut List<Watch>, thread: u8)
    ensures cleared { watches.new ≡ cleared_in watches.old thread }
    ensures as_many { length watches.new ≡ length watches.old }
{
    for n in 0..watches.len() {
        if let Some(watch) = watches.get(n).copied() {
            watches.set(n, without(watch, thread));
        }
    }
}

fn without(mut watch: Watch, thread: u8) -> Watch
    ensures { result ≡ cleared_by watch (is_num watch.owner thread) }
{
    if is_enabled_by(&watch, thread) {
        watch.owner = None;
    }
    watch
}

fn first_ready(watches: &[Watch], ready: u32, thread: u8) -> Option<u32>
    requires { length watches.now ≤ 32 }
    ensures { result ≡ picked_in watches.now (is_set ready) thread 0 }
{
    for (n, watch) in watches.iter().enumerate() {
        if is_pickable(watch, thread, ready, n) {
            return Some(n as u32);
        }
    }
    None
}

fn enabled_one(watches: &[Watch], thread: u8) -> bool
    ensures { result ≡ some_enabled watches.now thread }
{
    for watch in watches {
        if is_enabled_by(watch, thread) {
            return true;
        }
    }
    false
}

fn is_pickable(watch: &Watch, thread: u8, ready: u32, n: usize) -> bool
    requires { n < 32 }
    ensures { result ≡ (is_num watch.now.owner thread && is_set ready n) }
{
    is_enabled_by(watch, thread) && has_bit(ready, n)
}

fn is_enabled_by(watch: &Watch, thread: u8) -> bool
    ensures { result ≡ is_num watch.now.owner thread }
{
    watch.owner == Some(thread)
}

fn has_bit(word: u32, n: usize) -> bool
    requires { n < 32 }
    ensures { result ≡ is_set word n }
{
    (word >> n) % 2 == 1
}
