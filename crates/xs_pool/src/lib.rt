//! Which of a core's threads, synchronisers and locks are taken.
#![tactic(auto)]

mod pool;

pub use pool::{Pool, PoolKind};
