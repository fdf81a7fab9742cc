//! The channels' part of the simulation: the relation between the tokens that a channel has on the machine, at its ends and on the
//! links, and what the program has in its inboxes, while code sends and receives.
//!
//! What stands between two sides is told by the phase in which each side is. Laws say that it holds at the start, and
//! what each row of the machine on a channel end, and each delivery over a link, makes of it.
#![tactic(auto)]

mod law;

pub use law::{
    channels_begin, channels_over_links, credits_over_links, ends_agree, none_ready, quiet_channels,
};
