//! The laws, as contracts of functions that do nothing.

ghost use Rattle.xr_channels.specs.Laws.{ChannelsBegin, CreditsAreKept, CreditsBegin, EndsAgree, NoneReady};
ghost use Rattle.xr_channels.specs.LawsOverLinks.{ChannelsBeginOverLinks, DeliveriesAreFollowed, NoMoveIsQuiet, OthersKeepChannels, QuietIsLocal, QuietIsOnTime, RowsKeepCredits, StreamsAreFollowed, TransactionsAreFollowed, TransfersAreFollowed, TrapsPut};

/// Where a machine and a program start, nothing stands between the sides of any channel.
pub fn channels_begin()
    ensures { ChannelsBegin }
{}

/// Where no token is at the end of a side that is in no piece and no transaction, its inbox is empty: a select may take its default.
#[tactic(auto, using(crate::proofs::Laws::Ready::none_ready))]
pub fn none_ready()
    ensures { NoneReady }
{}

/// The end of a side that is in no piece and no transaction is ready for an event of the machine exactly where something stands in its
/// inbox: by the machine a select's case on it is ready where it is by the program. What is on links doesn't matter.
#[tactic(auto, using(crate::proofs::Laws::ReadyEnds::end_agrees))]
pub fn ends_agree()
    ensures { EndsAgree }
{}

/// The law of credits over links: for the two ends of each channel, either way, the credits of the one, its tokens on the link and at
/// the other, and the credits on their way back to it are eight together. So it is where a machine starts, and what comes over a link
/// keeps it. So does each row that sends tokens from an end of a channel or takes some there, be the other end on its core or not.
#[tactic(auto, using(crate::proofs::Laws::CreditsOverLinks::credits_begin))]
pub fn credits_over_links()
    ensures at_the_start { CreditsBegin }
    ensures by_deliveries { CreditsAreKept }
    ensures by_rows { RowsKeepCredits }
{}

/// Wherever the two ends of each channel are, on one core or on two, what stands between the sides of all channels, with the law of
/// credits, holds where a machine and a program start. It is kept, with the program's step, by what comes over a link, and by each row
/// of a plain transfer, a transaction and a stream, which pauses, goes on or traps. A side that traps as it awaits an answer puts first
/// what is late of what it asked. Each step that leaves the ends of all cores keeps it too.
pub fn channels_over_links()
    ensures at_the_start { ChannelsBeginOverLinks }
    ensures by_deliveries { DeliveriesAreFollowed }
    ensures by_transfers { TransfersAreFollowed }
    ensures by_transactions { TransactionsAreFollowed }
    ensures by_streams { StreamsAreFollowed }
    ensures by_traps { TrapsPut }
    ensures by_others { OthersKeepChannels }
{}

/// Where no delivery can happen nothing is on any link. Then nothing is late, and what stands between the sides of channels is what
/// stands within cores.
pub fn quiet_channels()
    ensures where_nothing_moves { NoMoveIsQuiet }
    ensures on_time { QuietIsOnTime }
    ensures within_cores { QuietIsLocal }
{}
