// The rows of threads, synchronisers and locks.

ghost use Rattle.std.specs.Bool.{OnFalse, OnTrue};
ghost use Rattle.std.specs.Prelude.{◌≡◌, ◌+◌, ◌<◌, ◌≤◌, ◌^◌, ℕ, IfSome, None, length, slice_set};
ghost use Rattle.xs_core.specs.Pool.{pool_did, PoolFits, IsWaiting};
ghost use Rattle.xs_core.specs.Names.{meant_by};
ghost use Rattle.xs_core.specs.Seen.{home_of, state_of, thread_at};
ghost use Rattle.xs_core.specs.SlotResults.{denote, steps, Fits, IsMade, Keeps};
ghost use Rattle.xs_instr.specs.declared.image.Home.{Home};
ghost use Rattle.xs_instr.specs.declared.state.CoreState.{CoreState};
ghost use Rattle.xs_instr.specs.declared.trace.Trap.TheVariants.{Resource as NoResource};
ghost use Rattle.xs_instr.specs.Did.{is_step, map_did, Traps};
ghost use Rattle.xs_instr.specs.Pool.{all_joined, all_started, all_wait, first_free, is_tied, joined, joined_by, lock_got, locks_taken, on_lock, prepared, some_tied, started_by, sync_got, synced, thread_got, thread_got_by, threads_taken, tied_to, with_pc, with_reg};
ghost use Rattle.xs_instr.specs.Resources.{ALock, ASync, AThread, name_of, on_sync, on_thread};
ghost use Rattle.xs_instr.specs.Rows.{free_row, gets_with, goes_with, in_row, out_row, put_threads, wait_row, end_row};

use crate::names::Resource;
use crate::slot_result::SlotResult;
use crate::state::{LOCKS, State, THREADS};
use crate::threads::{pass, pass_with, put_next, put_with};
use xs_instr::{Lock, Mode, Reg, Regs, Thread, Trap};
use xs_pool::{Pool, PoolKind};
use xs_state::Registers;

/// What a thread does with threads, synchronisers and locks, which are meant by their numbers.
#[derive(Clone, Copy)]
pub enum PoolStep {
    /// A register gets the name of a synchroniser that is taken, or 0.
    GetSync(Reg),
    /// A register gets the name of a lock that is taken, or 0.
    GetLock(Reg),
    /// A register gets the name of a thread that is tied to the synchroniser, or 0.
    GetThread(Reg, u8),
    /// The synchroniser is free again.
    FreeSync(u8),
    /// The lock is free again.
    FreeLock(u8),
    /// The waiting thread is to start at an index.
    SetPc(u8, u32),
    /// The waiting thread's register is set.
    SetReg(u8, Reg, u32),
    /// The synchroniser's threads run.
    Start(u8),
    /// The synchroniser's threads are unused.
    Join(u8),
    /// The thread waits.
    Wait,
    /// The thread is unused, and a root has ended.
    End,
    /// The lock is held, and a register gets its name.
    Hold(Reg, u8, u32),
    /// The lock is given back.
    GiveBack(u8),
}

/// FREER on a synchroniser.
pub fn free_sync(state: &State, n: u32) -> SlotResult
    ensures means { (t : ℕ) (x : Thread) → denote (home_of state.now) (state_of state.now) t x result
        ≡ free_row (state_of state.now) t x (ASync n) }
    ensures steps { (t : ℕ) (x : Thread) →
        is_step (denote (home_of state.now) (state_of state.now) t x result) ≡ steps result }
    ensures fits { (t : ℕ) (x : Thread) → Fits (home_of state.now) (state_of state.now) t x result }
{
    if state.pool.has(PoolKind::Sync, n) && !is_some_tied(&state.threads, n as u8) {
        SlotResult::Pool(PoolStep::FreeSync(n as u8))
    } else {
        SlotResult::Trapped(Trap::Resource)
    }
}

/// FREER on a lock.
pub fn free_lock(state: &State, n: u32) -> SlotResult
    ensures means { (t : ℕ) (x : Thread) → denote (home_of state.now) (state_of state.now) t x result
        ≡ free_row (state_of state.now) t x (ALock n) }
    ensures steps { (t : ℕ) (x : Thread) →
        is_step (denote (home_of state.now) (state_of state.now) t x result) ≡ steps result }
    ensures fits { (t : ℕ) (x : Thread) → Fits (home_of state.now) (state_of state.now) t x result }
{
    let Some(lock) = state.locks.get(n as usize) else {
        return SlotResult::Trapped(Trap::Resource);
    };
    if lock.taken && lock.holder.is_none() {
        SlotResult::Pool(PoolStep::FreeLock(n as u8))
    } else {
        SlotResult::Trapped(Trap::Resource)
    }
}

/// GETST.
pub fn get_thread(state: &State, d: Reg, name: Resource) -> SlotResult
    ensures means { (t : ℕ) (x : Thread) → denote (home_of state.now) (state_of state.now) t x result
        ≡ map_did (gets_with put_threads (state_of state.now) t x d) (on_sync (state_of state.now)
        (thread_got (home_of state.now).number (state_of state.now).threads) (meant_by name)) }
    ensures steps { (t : ℕ) (x : Thread) →
        is_step (denote (home_of state.now) (state_of state.now) t x result) ≡ steps result }
    ensures fits { (t : ℕ) (x : Thread) → Fits (home_of state.now) (state_of state.now) t x result }
{
    let Resource::Sync(n) = name else {
        return SlotResult::Trapped(Trap::Resource);
    };
    if state.pool.has(PoolKind::Sync, n) {
        SlotResult::Pool(PoolStep::GetThread(d, n as u8))
    } else {
        SlotResult::Trapped(Trap::Resource)
    }
}

/// TINITPC.
pub fn set_pc(state: &State, name: Resource, k: u32) -> SlotResult
    ensures means { (t : ℕ) (x : Thread) → denote (home_of state.now) (state_of state.now) t x result
        ≡ map_did (goes_with put_threads (state_of state.now) t x) (on_thread (state_of state.now)
        (prepared (with_pc k) (state_of state.now).threads) (meant_by name)) }
    ensures steps { (t : ℕ) (x : Thread) →
        is_step (denote (home_of state.now) (state_of state.now) t x result) ≡ steps result }
    ensures fits { (t : ℕ) (x : Thread) → Fits (home_of state.now) (state_of state.now) t x result }
{
    let Resource::Thread(n) = name else {
        return SlotResult::Trapped(Trap::Resource);
    };
    if waits(state, n) {
        SlotResult::Pool(PoolStep::SetPc(n as u8, k))
    } else {
        SlotResult::Trapped(Trap::Resource)
    }
}

/// TINITDP and TINITSP.
pub fn set_reg(state: &State, name: Resource, r: Reg, value: u32) -> SlotResult
    ensures means { (t : ℕ) (x : Thread) → denote (home_of state.now) (state_of state.now) t x result
        ≡ map_did (goes_with put_threads (state_of state.now) t x) (on_thread (state_of state.now)
        (prepared (with_reg r value) (state_of state.now).threads) (meant_by name)) }
    ensures steps { (t : ℕ) (x : Thread) →
        is_step (denote (home_of state.now) (state_of state.now) t x result) ≡ steps result }
    ensures fits { (t : ℕ) (x : Thread) → Fits (home_of state.now) (state_of state.now) t x result }
{
    let Resource::Thread(n) = name else {
        return SlotResult::Trapped(Trap::Resource);
    };
    if waits(state, n) {
        SlotResult::Pool(PoolStep::SetReg(n as u8, r, value))
    } else {
        SlotResult::Trapped(Trap::Resource)
    }
}

/// MSYNC.
pub fn start(state: &State, name: Resource) -> SlotResult
    ensures means { (t : ℕ) (x : Thread) → denote (home_of state.now) (state_of state.now) t x result
        ≡ map_did (goes_with put_threads (state_of state.now) t x)
        (on_sync (state_of state.now) (synced (state_of state.now).threads) (meant_by name)) }
    ensures steps { (t : ℕ) (x : Thread) →
        is_step (denote (home_of state.now) (state_of state.now) t x result) ≡ steps result }
    ensures fits { (t : ℕ) (x : Thread) → Fits (home_of state.now) (state_of state.now) t x result }
{
    let Resource::Sync(n) = name else {
        return SlotResult::Trapped(Trap::Resource);
    };
    if !state.pool.has(PoolKind::Sync, n) {
        return SlotResult::Trapped(Trap::Resource);
    }
    if do_all_wait(&state.threads, n as u8) {
        SlotResult::Pool(PoolStep::Start(n as u8))
    } else {
        SlotResult::Paused
    }
}

/// MJOIN.
pub fn join(state: &State, name: Resource) -> SlotResult
    ensures means { (t : ℕ) (x : Thread) → denote (home_of state.now) (state_of state.now) t x result
        ≡ map_did (goes_with put_threads (state_of state.now) t x)
        (on_sync (state_of state.now) (joined (state_of state.now).threads) (meant_by name)) }
    ensures steps { (t : ℕ) (x : Thread) →
        is_step (denote (home_of state.now) (state_of state.now) t x result) ≡ steps result }
    ensures fits { (t : ℕ) (x : Thread) → Fits (home_of state.now) (state_of state.now) t x result }
{
    let Resource::Sync(n) = name else {
        return SlotResult::Trapped(Trap::Resource);
    };
    if !state.pool.has(PoolKind::Sync, n) {
        return SlotResult::Trapped(Trap::Resource);
    }
    if do_all_wait(&state.threads, n as u8) {
        SlotResult::Pool(PoolStep::Join(n as u8))
    } else {
        SlotResult::Paused
    }
}

/// SSYNC.
pub fn wait(thread: &Thread) -> SlotResult
    ensures means { (home : Home) (core : CoreState) (t : ℕ) → denote home core t thread.now result
        ≡ wait_row core t thread.now thread.now.tie }
    ensures steps { (home : Home) (core : CoreState) (t : ℕ) →
        is_step (denote home core t thread.now result) ≡ steps result }
    ensures fits { (home : Home) (core : CoreState) (t : ℕ) → Fits home core t thread.now result }
{
    match thread.tie {
        None => SlotResult::Trapped(Trap::Resource),
        Some(_) => SlotResult::Pool(PoolStep::Wait),
    }
}

/// FREET.
pub fn end(thread: &Thread) -> SlotResult
    ensures means { (home : Home) (core : CoreState) (t : ℕ) → denote home core t thread.now result
        ≡ end_row core t thread.now thread.now.tie }
    ensures steps { (home : Home) (core : CoreState) (t : ℕ) →
        is_step (denote home core t thread.now result) ≡ steps result }
    ensures fits { (home : Home) (core : CoreState) (t : ℕ) → Fits home core t thread.now result }
{
    match thread.tie {
        None => SlotResult::Pool(PoolStep::End),
        Some(_) => SlotResult::Trapped(Trap::Resource),
    }
}

/// IN on a lock.
pub fn hold(state: &State, d: Reg, n: u32, name: u32) -> SlotResult
    ensures means { (t : ℕ) (x : Thread) → denote (home_of state.now) (state_of state.now) t x result
        ≡ in_row (home_of state.now) (state_of state.now) t x d name (ALock n) }
    ensures steps { (t : ℕ) (x : Thread) →
        is_step (denote (home_of state.now) (state_of state.now) t x result) ≡ steps result }
    ensures fits { (t : ℕ) (x : Thread) → Fits (home_of state.now) (state_of state.now) t x result }
{
    let Some(lock) = state.locks.get(n as usize) else {
        return SlotResult::Trapped(Trap::Resource);
    };
    if !lock.taken {
        return SlotResult::Trapped(Trap::Resource);
    }
    match lock.holder {
        None => SlotResult::Pool(PoolStep::Hold(d, n as u8, name)),
        Some(_) => SlotResult::Paused,
    }
}

/// OUT on a lock.
pub fn give_back(state: &State, t: u8, n: u32) -> SlotResult
    ensures means { (value : ℕ) (x : Thread) → denote (home_of state.now) (state_of state.now) t x
        result ≡ out_row (home_of state.now) (state_of state.now) t x value (ALock n) }
    ensures steps { (x : Thread) →
        is_step (denote (home_of state.now) (state_of state.now) t x result) ≡ steps result }
    ensures fits { (x : Thread) → Fits (home_of state.now) (state_of state.now) t x result }
{
    let Some(lock) = state.locks.get(n as usize) else {
        return SlotResult::Trapped(Trap::Resource);
    };
    if lock.taken && lock.holder == Some(t) {
        SlotResult::Pool(PoolStep::GiveBack(n as u8))
    } else {
        SlotResult::Trapped(Trap::Resource)
    }
}

/// Whether a thread is tied to the synchroniser.
fn is_some_tied(threads: &[Thread], n: u8) -> bool
    ensures { result ≡ some_tied threads.now n }
{
    for thread in threads {
        if thread.tie == Some(n) {
            return true;
        }
    }
    false
}

/// Whether each thread that is tied to the synchroniser waits.
fn do_all_wait(threads: &[Thread], n: u8) -> bool
    ensures { result ≡ all_wait threads.now n }
{
    for thread in threads {
        if thread.tie == Some(n) && thread.mode != Mode::Waiting {
            return false;
        }
    }
    true
}

/// Whether the thread of that number is there and waits.
fn waits(state: &State, n: u32) -> bool
    ensures there { OnTrue result (IsWaiting (state_of state.now) n) }
    ensures row { (change : Thread → Thread) → OnFalse result (on_thread (state_of state.now)
        (prepared change state.now.threads) (AThread n) ≡ Traps NoResource) }
{
    match state.threads.get(n as usize) {
        None => false,
        Some(thread) => thread.mode == Mode::Waiting,
    }
}

/// Takes the step.
pub fn apply(state: &mut State, t: u8, step: PoolStep)
    requires there { t < 8 }
    requires room { (thread_at state.old.threads t).pc + 1 < 2 ^ 32 }
    requires fits { PoolFits (state_of state.old) t (thread_at state.old.threads t) step }
    ensures made { IsMade (pool_did (home_of state.old) (state_of state.old) t
        (thread_at state.old.threads t) step) (state_of state.new) None }
    ensures keeps { Keeps state.old state.new }
{
    let thread = state.threads[t as usize];
    match step {
        PoolStep::GetSync(d) => {
            let name = take_sync(&mut state.pool, state.ports.core());
            pass_with(&mut state.threads, t, d, name);
        }
        PoolStep::GetLock(d) => {
            let name = take_lock(&mut state.locks, state.ports.core());
            pass_with(&mut state.threads, t, d, name);
        }
        PoolStep::GetThread(d, n) => {
            let name = take_thread(&mut state.threads, state.ports.core(), n);
            put_with(&mut state.threads, t, thread, d, name);
        }
        PoolStep::FreeSync(n) => {
            let _ = state.pool.free(PoolKind::Sync, n);
            pass(&mut state.threads, t);
        }
        PoolStep::FreeLock(n) => {
            state.locks[n as usize] = unheld(false);
            pass(&mut state.threads, t);
        }
        PoolStep::SetPc(n, k) => {
            state.threads[n as usize].pc = k;
            put_next(&mut state.threads, t, thread);
        }
        PoolStep::SetReg(n, r, value) => {
            state.threads[n as usize].regs.set(r, value);
            put_next(&mut state.threads, t, thread);
        }
        PoolStep::Start(n) => {
            start_all(&mut state.threads, n);
            put_next(&mut state.threads, t, thread);
        }
        PoolStep::Join(n) => {
            join_all(&mut state.threads, n);
            put_next(&mut state.threads, t, thread);
        }
        PoolStep::Wait => put_next(&mut state.threads, t, in_mode(thread, Mode::Waiting)),
        PoolStep::End => {
            put_next(&mut state.threads, t, in_mode(thread, Mode::Unused));
            state.roots = state.roots.saturating_sub(1);
        }
        PoolStep::Hold(d, n, name) => {
            state.locks[n as usize].holder = Some(t);
            pass_with(&mut state.threads, t, d, name);
        }
        PoolStep::GiveBack(n) => {
            state.locks[n as usize] = unheld(true);
            pass(&mut state.threads, t);
        }
    }
}

/// The thread in another mode.
fn in_mode(thread: Thread, mode: Mode) -> Thread
    ensures { result ≡ record thread { mode = mode } }
{
    Thread { mode, ..thread }
}

/// A lock that nobody holds.
fn unheld(taken: bool) -> Lock
    ensures { result ≡ record { taken = taken; holder = None } }
{
    Lock {
        taken,
        holder: None,
    }
}

/// Takes the least free synchroniser, and gives its name, or 0 where none is free.
fn take_sync(pool: &mut Pool, core: u8) -> u32
    ensures name { record { left = pool.new.syncs; value = result }
        ≡ sync_got core pool.old.syncs (first_free pool.old.syncs 0) }
{
    match pool.get(PoolKind::Sync) {
        None => 0,
        Some(n) => name(core, n, 3),
    }
}

/// Takes the least free lock, and gives its name, or 0 where none is free.
fn take_lock(locks: &mut [Lock; LOCKS], core: u8) -> u32
    ensures name { record { left = locks.new; value = result }
        ≡ lock_got core locks.old (first_free (locks_taken locks.old) 0) }
{
    match first_lock(&*locks) {
        None => 0,
        Some(n) => {
            locks[n as usize] = unheld(true);
            name(core, n, 5)
        }
    }
}

/// The least lock that is free.
fn first_lock(locks: &[Lock]) -> Option<u8>
    requires { length locks.now ≤ 255 }
    ensures first { result ≡ first_free (locks_taken locks.now) 0 }
    ensures there { IfSome result (λ n. n < length locks.now) }
{
    for (n, lock) in locks.iter().enumerate() {
        if !lock.taken {
            return Some(n as u8);
        }
    }
    None
}

/// Ties the least unused thread to the synchroniser, and gives its name, or 0 where none is unused.
fn take_thread(threads: &mut [Thread; THREADS], core: u8, n: u8) -> u32
    ensures name { record { left = threads.new; value = result }
        ≡ thread_got_by core threads.old n (first_free (threads_taken threads.old) 0) }
{
    match first_unused(&*threads) {
        None => 0,
        Some(place) => {
            tie(threads, place, n);
            name(core, place, 4)
        }
    }
}

/// The least thread that is unused.
fn first_unused(threads: &[Thread]) -> Option<u8>
    requires { length threads.now ≤ 255 }
    ensures first { result ≡ first_free (threads_taken threads.now) 0 }
    ensures there { IfSome result (λ n. n < length threads.now) }
{
    for (n, thread) in threads.iter().enumerate() {
        if thread.mode == Mode::Unused {
            return Some(n as u8);
        }
    }
    None
}

/// Ties a thread to the synchroniser: it waits, at index 0 and with all registers 0.
fn tie(threads: &mut [Thread; THREADS], place: u8, n: u8)
    requires { place < 8 }
    ensures { threads.new ≡ slice_set threads.old place (tied_to n (thread_at threads.old place)) }
{
    let thread = &mut threads[place as usize];
    thread.mode = Mode::Waiting;
    thread.pc = 0;
    thread.regs = Regs::new();
    thread.tie = Some(n);
}

/// The name of the resource with that number and kind.
fn name(core: u8, number: u8, kind: u8) -> u32
    ensures { result ≡ name_of core number kind }
{
    core as u32 * 0x100_0000 + number as u32 * 0x100 + kind as u32
}

/// The threads that are tied to the synchroniser run.
fn start_all(threads: &mut [Thread; THREADS], n: u8)
    ensures { threads.new ≡ all_started threads.old n }
{
    for k in 0..THREADS {
        threads[k] = started(threads[k], n);
    }
}

fn started(thread: Thread, n: u8) -> Thread
    ensures { result ≡ started_by thread (is_tied thread n) }
{
    if thread.tie == Some(n) {
        Thread {
            mode: Mode::Running,
            ..thread
        }
    } else {
        thread
    }
}

/// The threads that are tied to the synchroniser are unused again.
fn join_all(threads: &mut [Thread; THREADS], n: u8)
    ensures { threads.new ≡ all_joined threads.old n }
{
    for k in 0..THREADS {
        threads[k] = freed(threads[k], n);
    }
}

fn freed(thread: Thread, n: u8) -> Thread
    ensures { result ≡ joined_by thread (is_tied thread n) }
{
    if thread.tie == Some(n) {
        Thread {
            mode: Mode::Unused,
            tie: None,
            ..thread
        }
    } else {
        thread
    }
}
