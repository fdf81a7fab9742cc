//! Four cores side by side: up to four threads of the host run the windows of xr_windows, each core in a cell under a lock of its own.
//! The program doesn't go by it yet.
//!
//! Proved is that they answer what the run in lockstep tells, in whatever order they get the locks.
#![tactic(auto)]

mod alone;
mod batches;
mod board;
mod cell;
mod cells;
mod core_name;
mod parts;
mod places;
mod seat;
mod task;
mod turned;
mod waiting;
mod workers;

pub use alone::run_alone;
pub use board::{Board, BoardTurn};
pub use cell::Cell;
pub use cells::{Cells, GatherErr};
pub use core_name::{Core0, Core1, Core2, Core3, CoreName};
pub use turned::Turned;
pub use workers::{run_by_workers, run_workers};
