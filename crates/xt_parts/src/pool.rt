//! The numbers of threads, synchronisers and locks.

use xs_pool::{Pool, PoolKind};

enum Call {
    Get(PoolKind, Option<u8>),
    Free(PoolKind, u8, bool),
    Taken(PoolKind, u8, bool),
}

const CALLS: [Call; 27] = [
    Call::Taken(PoolKind::Lock, 0, false),
    Call::Free(PoolKind::Lock, 0, false),
    Call::Get(PoolKind::Lock, Some(0)),
    Call::Get(PoolKind::Lock, Some(1)),
    Call::Get(PoolKind::Lock, Some(2)),
    Call::Taken(PoolKind::Lock, 2, true),
    Call::Taken(PoolKind::Lock, 3, false),
    Call::Get(PoolKind::Lock, Some(3)),
    Call::Get(PoolKind::Lock, None),
    Call::Free(PoolKind::Lock, 1, true),
    Call::Free(PoolKind::Lock, 1, false),
    Call::Get(PoolKind::Lock, Some(1)),
    Call::Free(PoolKind::Lock, 4, false),
    Call::Taken(PoolKind::Lock, 4, false),
    Call::Get(PoolKind::Sync, Some(0)),
    Call::Get(PoolKind::Thread, Some(0)),
    Call::Get(PoolKind::Thread, Some(1)),
    Call::Get(PoolKind::Thread, Some(2)),
    Call::Get(PoolKind::Thread, Some(3)),
    Call::Get(PoolKind::Thread, Some(4)),
    Call::Get(PoolKind::Thread, Some(5)),
    Call::Get(PoolKind::Thread, Some(6)),
    Call::Get(PoolKind::Thread, Some(7)),
    Call::Get(PoolKind::Thread, None),
    Call::Taken(PoolKind::Sync, 1, false),
    Call::Taken(PoolKind::Thread, 7, true),
    Call::Taken(PoolKind::Thread, 255, false),
];

/// The place of the first call that is answered otherwise.
pub fn wrong_call() -> Option<usize> {
    let mut pool = Pool::new();
    for (place, call) in CALLS.iter().enumerate() {
        let is_so = match call {
            Call::Get(k, number) => pool.get(*k) == *number,
            Call::Free(k, n, was_taken) => pool.free(*k, *n) == *was_taken,
            Call::Taken(k, n, taken) => pool.taken(*k, *n) == *taken,
        };
        if !is_so {
            return Some(place);
        }
    }
    None
}
