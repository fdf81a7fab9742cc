//! Lowering of channels: the code of transfers and transactions, by the protocol of tokens on the two ends.
#![tactic(auto)]

mod statement;
mod transaction;
mod transfer;

pub use statement::{emit_receive, emit_send};
pub use transaction::{emit_finish, emit_start};
pub use transfer::{emit_in, emit_out};
