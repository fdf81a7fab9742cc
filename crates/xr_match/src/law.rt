ghost use Rattle.std.specs.Prelude.{List as Items};
ghost use Rattle.xs_instr.specs.declared.image.Stim.{Stim};
ghost use Rattle.xc_tree.specs.Plain.{Item};
ghost use Rattle.xc_kernel.specs.Plain.{Kernel};
ghost use Rattle.xc_meaning.specs.Runs.{Allowed, AllowedKernel};
ghost use Rattle.xc_meaning.specs.States.Worlds.{Action};
ghost use Rattle.xr_match.specs.Matching.{CountsAreSteps, RunsMatch, RunsMatchWholly};
ghost use Rattle.xr_match.specs.Meanings.{KernelsCarry, KernelsCarryWholly, of_kernel, of_text};
ghost use Rattle.xr_match.specs.Sources.{counted_of};
ghost use Rattle.xr_match.specs.Systems.{IsRun};

/// An image that implements a program's kernel implements the program's text: what a machine with it does under a stimulus, whatever
/// the order of its events, is what the text may do. That is so of each program that breaks no rule of names, types and shapes.
///
/// One that keeps all its promises of the kernel keeps them of the text: it waits only where the text does, and doesn't go on and on
/// without it. That is so where each exit of the kernel meets its mark and no `par` of it has more than eight branches.
pub fn kernel_carries_to_text()
    ensures carries { KernelsCarry }
    ensures wholly { KernelsCarryWholly }
{}

/// Actions that are a run of a text's meaning, as it stands beside a machine's runs, are a run that the text may take, and likewise of a
/// kernel.
pub fn runs_are_allowed()
    ensures text { (P : Items Item) (s : Stim) (actions : Items Action) →
        IsRun (counted_of (of_text P) s) actions → Allowed P s actions }
    ensures kernel { (K : Kernel) (s : Stim) (actions : Items Action) →
        IsRun (counted_of (of_kernel K) s) actions → AllowedKernel K s actions }
{}

/// What implementing says in the words of runs. Each list of events that a machine can do from its start, one after the other, has one
/// run of the program beside it, cut into a first piece and one for each event: the machine and the program agree after each. Where the
/// image keeps all its promises, the program waits wherever the machine does, and no life of a thread does too many steps for its family.
///
/// How many steps a family does is what is counted beside the run.
pub fn machine_runs_match()
    ensures agree { RunsMatch }
    ensures wholly { RunsMatchWholly }
    ensures counts { CountsAreSteps }
{}
