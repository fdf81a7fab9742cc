//! The laws, as contracts of functions that do nothing.

ghost use Rattle.xc_wellformed.specs.Laws.{CheckedCountsFit, CodeHasSource, CoresOwn, CoresRight, ExitsInside, KernelsOfProgramsWellFormed, KernelsWellFormed, LevelsFew, NamesResolve, NoInstanceMerged, NoInstanceTwice, OperandsRight, ParsNarrow, PartsFew, TextsRise, TransactionsListed, TransfersRight, VariablesRight};
ghost use Rattle.xc_wellformed.specs.Given.{EachByItsOwn, ElementsGiven, NamesGiven, ResultIsReturned, ValuesGiven};
ghost use Rattle.xc_wellformed.specs.Left.{CaseIsLeft, DoIsLeft, ForIsLeft, FunctionIsLeft, WhileIsLeft};
ghost use Rattle.xc_wellformed.specs.Stored.{FreshTargetsKept, InputStampsKept, NoneStored, OutputStampsKept, TargetsKept};
ghost use Rattle.xc_wellformed.specs.Words.{SpotsKept, StepsKept, UpdatesKept, WordsKept};

/// Each name means what the stack of open scopes has for it.
#[tactic(auto, using(crate::proofs::Resolved::names_resolve))]
pub fn names_resolve()
    ensures { NamesResolve }
{}

/// The tokens of each text stand at rising places.
pub fn tokens_rise()
    ensures { TextsRise }
{}

/// In the copies of a program that was read from a text no two instances have one path,
/// so one path names one of them, and the kernel's lists have them all.
#[tactic(auto, using(crate::proofs::Merged::none_twice, crate::proofs::Merged::none_merged))]
pub fn no_instance_twice()
    ensures twice { NoInstanceTwice }
    ensures merged { NoInstanceMerged }
{}

/// Each kernel is well formed: the kernel of a program that breaks no rule of names, types and
/// shapes, whose tokens stand at rising places, and whose tree no node is too deep in. One that
/// breaks no rule of its own has at most 4,000,000 parts.
pub fn kernels_are_formed()
    ensures variables { VariablesRight }
    ensures operands { OperandsRight }
    ensures levels { LevelsFew }
    ensures transfers { TransfersRight }
    ensures transactions { TransactionsListed }
    ensures exits { ExitsInside }
    ensures cores { CoresRight }
    ensures whole { KernelsWellFormed }
    ensures of_programs { KernelsOfProgramsWellFormed }
    ensures own { CoresOwn }
    ensures few { PartsFew }
{}

/// No `par` of a kernel that breaks no rule has more than eight branches, and its greatest count is at
/// most four times that of its program's statements and function heads.
#[tactic(auto, using(crate::proofs::ParWidth::pars_are_narrow, crate::proofs::ParWidth::checked_counts_fit))]
pub fn counts_are_few()
    ensures narrow { ParsNarrow }
    ensures counts { CheckedCountsFit }
{}

/// The code of such a kernel comes from the text: its names stand for instances of what they mean
/// there, and its operations have the types that they have there.
pub fn code_comes_from_text()
    ensures { CodeHasSource }
{}

/// The kernel's expression for one of the text has the word of that one or its error, wherever in
/// the program it stands and whatever words the variables have; so has that of an assigning
/// operator and of a step. What is assigned to is stored where the text says.
pub fn expressions_keep_their_word()
    ensures words { WordsKept }
    ensures updates { UpdatesKept }
    ensures steps { StepsKept }
    ensures places { SpotsKept }
{}

/// A parameter stands for what the argument at its own place gives it: one by value for a variable
/// that holds the argument's word, an `&` parameter for an element of the argument's array, whose
/// index is tested against that array's words, and each other one for what is named. What a call
/// gives is read from where its function's `return` stores it.
pub fn parameters_stand_for_arguments()
    ensures values { ValuesGiven }
    ensures elements { ElementsGiven }
    ensures names { NamesGiven }
    ensures each { EachByItsOwn }
    ensures results { ResultIsReturned }
{}

/// An input's word is stored at what its target is, or in the variable that the target declares,
/// and the counter of a transfer at its stamp; what isn't told in the text isn't stored.
pub fn transfers_store_where_told()
    ensures targets { TargetsKept }
    ensures fresh_targets { FreshTargetsKept }
    ensures stamps_of_inputs { InputStampsKept }
    ensures stamps_of_outputs { OutputStampsKept }
    ensures nothing_else { NoneStored }
{}

/// `break` leaves the block around its loop or the body of its case, `continue` the block around
/// the body of its loop, and `return` the body of its function.
pub fn blocks_are_left()
    ensures whiles { WhileIsLeft }
    ensures dos { DoIsLeft }
    ensures fors { ForIsLeft }
    ensures cases { CaseIsLeft }
    ensures functions { FunctionIsLeft }
{}
