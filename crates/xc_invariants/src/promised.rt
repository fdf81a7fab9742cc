//! The laws, as contracts of functions that do nothing.

ghost use Rattle.xc_invariants.specs.TextFollows.{ExitsAreMet, TypedTextFollowsClosely};
ghost use Rattle.xc_invariants.specs.Lawful.{AcceptedObey, AloneInside, BranchesFit, BranchesStay, BudgetsFit, BudgetsStay, BudgetsSuffice, CheckedListed, CheckedObey, CheckedSpeakAlone, CheckedTidy, CheckedTidyHolds, CopiesArePlaced, EachGoesOn, EachHasSide, EndLeavesNone, EndsAreBehind, EndsOnce, ErredAloneHolds, FootprintsShrink, BlocksAreDistinctHolds, InsideAgrees, InsideHolds, InsideIsOwn, InsideStays, KernelsAreListed, LawsAreKept, LawsBegin, LawsHold, ListedHolds, MarksStandOnce, NestedOutside, NoneClash, OneOnEachSide, OthersAreLeft, PortsAreHere, ThreadsSuffice, TidyLawsHold, UnbrokenIsApart, UnbrokenIsSided, UsersAreInside};

/// The laws hold at the start of each kernel that obeys the rules, and each step keeps them.
#[tactic(auto, using(crate::proofs::Always::laws_begin, crate::proofs::Always::laws_kept))]
pub fn laws_kept()
    ensures at_the_start { LawsBegin }
    ensures by_steps { LawsAreKept }
{}

/// So they hold in each state of each run.
#[tactic(auto, using(crate::proofs::Always::laws_hold))]
pub fn laws_hold()
    ensures { LawsHold }
{}

/// Of two branches of which none waits, none changes a variable that the other uses, and none uses a port or a timer of the other.
#[tactic(auto, using(crate::proofs::Always::none_clash))]
pub fn none_clash()
    ensures { NoneClash }
{}

/// Of two branches of which none waits and which use a channel, each is on another side of it.
#[tactic(auto, using(crate::proofs::Always::one_on_each_side))]
pub fn one_on_each_side()
    ensures { OneOnEachSide }
{}

/// A branch has a side of each channel on which its first item is.
#[tactic(auto, using(crate::proofs::Always::each_has_side))]
pub fn each_has_side()
    ensures { EachHasSide }
{}

/// In the runs of a checked kernel no block has the number of one around it, so the mark of a block stands once among the items of a
/// branch.
pub fn marks_stand_once()
    ensures of_runs { BlocksAreDistinctHolds }
    ensures once { MarksStandOnce }
{}

/// In the runs of a checked kernel each branch that runs or waits stands in the transactions whose
/// ends are among its items, and in those in which the one stands that waits for it. So where a
/// branch runs, the end of each of its transactions is among its items or among those of a branch
/// above it. While an end is among the items of a branch, each running branch that uses the channel
/// on the same side stands in the transaction too.
pub fn ends_stand_behind()
    ensures of_runs { InsideHolds }
    ensures behind { EndsAreBehind }
    ensures users { UsersAreInside }
{}

/// In the runs of a tidy kernel, in which no `par` uses the channel of a transaction around it, each state is tidy: a branch that runs
/// stands in a transaction whose end is among its items or uses nothing of the transaction's channel. A kernel that is checked is tidy,
/// since in a transaction neither a `par` nor a `select` nor a transaction uses its channel.
pub fn tidy_laws_hold()
    ensures alone { CheckedSpeakAlone }
    ensures kernels { CheckedTidy }
    ensures of_runs { TidyLawsHold }
    ensures checked { CheckedTidyHolds }
    ensures inside { InsideIsOwn }
{}

/// A branch that has erred in a transaction of a checked kernel keeps its side of the channel to itself, or a branch above it has the
/// transaction's end among its items. So a running branch that uses a channel on a side stands in a transaction on it exactly where some
/// branch that hasn't ended does so on that side. A step that neither begins nor ends one there leaves that as it is.
///
/// A transaction that a branch ends is the innermost in which it stands, and it stands in no other on that channel; so behind the end no
/// branch on that side stands in one on the channel. Where a branch begins one, or comes to a `par` or a select that uses the channel, it
/// stands in none.
pub fn inside_agrees()
    ensures erred { ErredAloneHolds }
    ensures agrees { InsideAgrees }
    ensures stays { InsideStays }
    ensures once { EndsOnce }
    ensures none_left { EndLeavesNone }
    ensures outside { NestedOutside }
{}

/// In a transaction a branch is the only one on its side that uses the channel and doesn't wait.
#[tactic(auto, using(crate::proofs::Always::alone_inside))]
pub fn alone_inside()
    ensures { AloneInside }
{}

/// The items of a branch that runs end with its end, and a block that it leaves is among them.
#[tactic(auto, using(crate::proofs::Always::each_goes_on))]
pub fn each_goes_on()
    ensures { EachGoesOn }
{}

/// On each core no more threads are taken than its roots need: by the branches below its roots, and so by any present branches of the
/// core that don't wait, each counted once.
pub fn threads_suffice()
    ensures below { ThreadsSuffice }
    ensures fit { BranchesFit }
{}

/// Whatever threads the branches have in reserve, so that each has what it takes and those of a core have no more together than the
/// core needs: each branch keeps its reserve through every step.
#[tactic(auto, using(crate::proofs::Always::budgets_stay, crate::proofs::Always::budgets_fit))]
pub fn reserves_suffice()
    ensures stay { BudgetsStay }
    ensures fit { BudgetsFit }
    ensures suffice { BudgetsSuffice }
{}

/// Branches stay under their numbers and on their cores, and one that has ended or erred stays as it is.
#[tactic(auto, using(crate::proofs::Always::branches_stay))]
pub fn branches_stay()
    ensures { BranchesStay }
{}

/// What a branch uses after a step it used before, and what a new branch uses its `par` used.
#[tactic(auto, using(crate::proofs::Frames::footprints_shrink))]
pub fn footprints_shrink()
    ensures { FootprintsShrink }
{}

/// A step of a branch leaves each other branch as it is, and one that doesn't wait the words of all variables that it uses.
#[tactic(auto, using(crate::proofs::Frames::others_are_left))]
pub fn others_are_left()
    ensures { OthersAreLeft }
{}

/// A kernel that breaks none of the rules on what branches of a `par` use together is as the laws ask.
#[tactic(auto, using(crate::proofs::Unbroken::unbroken_apart, crate::proofs::Unbroken::unbroken_sided))]
pub fn unbroken_obeys()
    ensures apart { UnbrokenIsApart }
    ensures sided { UnbrokenIsSided }
{}

/// The kernel of a program that breaks no rule of names, types and shapes leaves blocks of the same branch and transaction alone. So
/// such a kernel obeys, where it breaks none of the rules on what branches use together and uses ports of its roots' cores, and so
/// does each kernel that is checked.
pub fn accepted_obey()
    ensures placed { CopiesArePlaced }
    ensures ports { PortsAreHere }
    ensures obey { AcceptedObey }
    ensures checked { CheckedObey }
{}

/// Where a kernel uses channels of its list alone, so do the branches of its runs. The kernel of a program does, and so do the runs of
/// each that is checked.
pub fn listed_holds()
    ensures of_runs { ListedHolds }
    ensures of_programs { KernelsAreListed }
    ensures checked { CheckedListed }
{}

/// In the runs of the kernel of a program that breaks no rule of names, types and shapes each exit meets its mark. So each such run has one
/// of the program's text beside it, with which it is quiet, and has at most four times as many steps of each family.
pub fn text_follows_closely()
    ensures met { ExitsAreMet }
    ensures closely { TypedTextFollowsClosely }
{}
