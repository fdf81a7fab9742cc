//! Events: where each resource's event leads, which thread enabled it, and which one is taken.
#![tactic(auto)]

mod events;
mod ready;

pub use events::Events;
pub use ready::Ready;
