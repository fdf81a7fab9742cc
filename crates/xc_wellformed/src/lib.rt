//! Laws of the kernel alone: the kernel of every typed program is well formed, and its expressions, parameters, transfers and exits are
//! those of the text.
//!
//! Well formed is a kernel whose numbers lie in its lists, whose operations have their operands, whose transfers go through what they
//! can go through, whose exits stand inside their blocks, and whose roots use timers of their cores and, where they keep apart,
//! variables of their cores. The crate has no code: each law is the contract of a function that does nothing.
#![tactic(auto)]

mod promised;

pub use promised::{
    blocks_are_left, code_comes_from_text, counts_are_few, expressions_keep_their_word,
    kernels_are_formed, names_resolve, no_instance_twice, parameters_stand_for_arguments,
    tokens_rise, transfers_store_where_told,
};
