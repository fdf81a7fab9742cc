//! A run cut into windows of eight ticks, so that a core can run ahead of the others: what it does in a window depends on its own part
//! of the run and on what the others sent to it in the window before. The program doesn't go by it yet.
//!
//! Proved is that this is so in every run in lockstep, and that the parts of the four cores tell the run's trace and how it ends.
#![tactic(auto)]

mod batch;
mod coming;
mod law;
mod merge;
mod needs;
mod outgoing;
mod part;
mod rounds;
mod run;
mod run_name;
mod stamped;

pub use batch::Batch;
pub use law::{
    due_items_of_a_core_have_room, eight_ticks_of_a_core, parts_tell_the_end,
    records_merge_to_the_trace, windows_depend_on_part_and_batches,
};
pub use merge::merged_run;
pub use needs::Needs;
pub use part::Part;
pub use run::Run;
pub use run_name::RunName;
pub use stamped::Stamped;
