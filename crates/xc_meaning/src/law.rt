//! The laws between a program's text and its kernel.

ghost use Rattle.xc_meaning.specs.Counts.Fit.{CountsFit};
ghost use Rattle.xc_meaning.specs.Follows.{TextFollows, TextFollowsClosely, TypedTextFollows};

/// Each run of a program's kernel has a run of the program's text beside it, cut into a first piece and one piece for each
/// step of the kernel's, some perhaps empty: after the first piece, and again after each step and its piece, the two stand
/// with the same clocks, trace and inboxes, have ended together, and have the same branches by number: each was made by the `par` of
/// the same family, at the same place in it. So what a kernel's run records is something that the program may record, and what holds
/// of the clocks, trace and inboxes in every run of the text holds in every run of its kernel.
///
/// That is so of each program that breaks no rule of names, types and shapes. Of these rules it needs that each called name
/// means a function, that no name is declared twice in a scope, and that no call stands on a cycle of calls: so no chain of
/// calls is longer than there are functions. The law also holds of each other tree whose chains of calls are no longer.
///
/// Where each exit of the kernel meets its mark, the two are besides quiet together behind any ticks, and of each family's steps there
/// are at most four times as many in the kernel as in the text.
#[tactic(auto, using(crate::proofs::Simulation::Theorem::text_follows, crate::proofs::Simulation::Theorem::text_follows_closely))]
pub fn text_follows()
    ensures of_typed_programs { TypedTextFollows }
    ensures where_calls_end { TextFollows }
    ensures closely { TextFollowsClosely }
{}

/// Where no `par` of a program's kernel has more than eight branches, the kernel's greatest count is at most four times the
/// greatest count of the text's statements and function heads. That is so of each tree that some tokens derive, whatever rules
/// it breaks.
#[tactic(auto, using(crate::proofs::Counting::Fit::counts_fit))]
pub fn counts_fit()
    ensures { CountsFit }
{}
