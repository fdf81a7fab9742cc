ghost use Rattle.std.specs.Bool.{OnFalse, OnTrue};
ghost use Rattle.std.specs.Prelude.{◌≡◌, ◌<◌, ◌≤◌, ◌^◌, ◌↔◌, true, false, All, IfNone, IfSome, IsNone, IsTrue, length, slice_set};
ghost use Rattle.xs_instr.specs.Pool.{first_free};
ghost use Rattle.xs_pool.specs.Counts.{count_of};
ghost use Rattle.xs_pool.specs.Taken.{is_taken, none_taken, taken_at, taken_of, with_taken};

use std::marker::Model;

const THREADS: usize = 8;

const SYNCS: usize = 7;

const LOCKS: usize = 4;

/// What is taken by number: a core has 8 threads, 7 synchronisers and 4 locks.
#[derive(Clone, Copy, PartialEq, Eq)]
pub enum PoolKind {
    Thread,
    Sync,
    Lock,
}

/// Which threads, synchronisers and locks of a core are taken. Contracts see a list of truth
/// values for each kind, in the order of the numbers.
#[derive(Drop)]
pub struct Pool {
    threads: [bool; THREADS],
    syncs: [bool; SYNCS],
    locks: [bool; LOCKS],
}

impl Model for Pool {
    ghost use Rattle.xs_pool.specs.Taken.{Taken};

    ghost Value = { Taken };

    ghost view = { λ pool. record { threads = pool.threads; syncs = pool.syncs; locks = pool.locks } };
}

impl Pool {
    /// None are taken. No call takes memory.
    pub fn new() -> Pool
        ensures { result ≡ none_taken }
    {
        Pool {
            threads: [false; THREADS],
            syncs: [false; SYNCS],
            locks: [false; LOCKS],
        }
    }

    /// Takes the least free number. `None` exactly where all are taken; then nothing changes.
    pub fn get(&mut self, k: PoolKind) -> Option<u8>
        ensures least { result ≡ first_free (taken_of self.old k) 0 }
        ensures full { IsNone result ↔ All IsTrue (taken_of self.old k) }
        ensures counted { IfSome result (λ n. n < count_of k) }
        ensures took { IfSome result (λ n. self.new ≡ with_taken self.old k n true) }
        ensures refused { IfNone result (self.new ≡ self.old) }
    {
        match k {
            PoolKind::Thread => take_least(&mut self.threads),
            PoolKind::Sync => take_least(&mut self.syncs),
            PoolKind::Lock => take_least(&mut self.locks),
        }
    }

    /// Makes a number free again. `false` exactly where it isn't taken; then nothing changes.
    pub fn free(&mut self, k: PoolKind, n: u8) -> bool
        ensures was_taken { result ≡ is_taken self.old k n }
        ensures freed { OnTrue result (self.new ≡ with_taken self.old k n false) }
        ensures refused { OnFalse result (self.new ≡ self.old) }
    {
        match k {
            PoolKind::Thread => let_go(&mut self.threads, n),
            PoolKind::Sync => let_go(&mut self.syncs, n),
            PoolKind::Lock => let_go(&mut self.locks, n),
        }
    }

    /// The same as `taken`, for a number of any size.
    pub fn has(&self, k: PoolKind, n: u32) -> bool
        ensures taken { result ≡ is_taken self.now k n }
        ensures counted { OnTrue result (n < count_of k) }
    {
        match k {
            PoolKind::Thread => has_taken(&self.threads, n),
            PoolKind::Sync => has_taken(&self.syncs, n),
            PoolKind::Lock => has_taken(&self.locks, n),
        }
    }

    /// Whether a number is taken. A number that the kind doesn't have never is.
    pub fn taken(&self, k: PoolKind, n: u8) -> bool
        ensures taken { result ≡ is_taken self.now k n }
        ensures counted { OnTrue result (n < count_of k) }
    {
        match k {
            PoolKind::Thread => has_taken(&self.threads, n as u32),
            PoolKind::Sync => has_taken(&self.syncs, n as u32),
            PoolKind::Lock => has_taken(&self.locks, n as u32),
        }
    }
}

fn take_least(taken: &mut [bool]) -> Option<u8>
    requires { length taken.old ≤ 2 ^ 8 }
    ensures least { result ≡ first_free taken.old 0 }
    ensures full { IsNone result ↔ All IsTrue taken.old }
    ensures counted { IfSome result (λ n. n < length taken.old) }
    ensures took { IfSome result (λ n. taken.new ≡ slice_set taken.old n true) }
    ensures refused { IfNone result (taken.new ≡ taken.old) }
{
    for (n, is_taken) in taken.iter_mut().enumerate() {
        if !*is_taken {
            *is_taken = true;
            return Some(n as u8);
        }
    }
    None
}

fn let_go(taken: &mut [bool], n: u8) -> bool
    ensures was_taken { result ≡ taken_at taken.old n }
    ensures freed { OnTrue result (taken.new ≡ slice_set taken.old n false) }
    ensures refused { OnFalse result (taken.new ≡ taken.old) }
{
    if !has_taken(taken, n as u32) {
        return false;
    }
    taken[n as usize] = false;
    true
}

fn has_taken(taken: &[bool], n: u32) -> bool
    ensures taken { result ≡ taken_at taken.now n }
    ensures counted { OnTrue result (n < length taken.now) }
{
    taken.get(n as usize).copied().unwrap_or(false)
}
