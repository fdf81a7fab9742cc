//! One core of the machine: it boots from an image, its threads take their turns, and its clock ticks, each exactly
//! as the machine's definitions say.
#![tactic(auto)]

mod boot;
mod counts;
mod did;
mod end_rows;
mod event_rows;
mod local_rows;
mod moves;
mod names;
mod one_core;
mod pool_rows;
mod port_rows;
mod ready;
mod rows;
mod slot_result;
mod slots;
mod state;
mod threads;

pub use did::Did;
pub use one_core::Core;
