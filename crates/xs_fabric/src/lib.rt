//! The machine: four cores, the links between them and what they recorded, event by event and round by round.
#![tactic(auto)]

mod cores;
mod delivery;
mod law;
mod link;
mod machine;
mod round;
mod totals;
mod turn;

pub use law::{
    clocks_count_rounds, due_items_have_room, finished_exactly_where_all_roots_have_ended,
    first_item_has_room, links_hold_at_most_512, lockstep_is_a_run, own_turns_lead_on,
    pairs_count_eight, ready_is_as_said, round_counts_its_events,
    running_threads_are_left_by_others, step_keeps_others, stuck_stays, threads_step_in_each_round,
    trapped_only_with_a_trap,
};
pub use machine::{Event, Machine};
