// What comes behind an instruction.
ghost use Rattle.std.specs.Prelude.{◌≡◌};
ghost use Rattle.xf_time.specs.Rows.{onward_of};
ghost use Rattle.xs_fabric.specs.OwnTurns.{onward};

use xs_instr::Instr;

/// What comes behind an instruction.
#[derive(Clone, Copy)]
pub enum Behind {
    /// The next index.
    GoesOn,
    /// The next index, maybe after pauses.
    Waits,
    /// The next index, or this one ahead.
    MayBranch(u32),
    /// This index, ahead.
    Branches(u32),
    /// The next index, or this one back.
    MayBranchBack(u32),
    /// This index, back.
    BranchesBack(u32),
    /// Nothing, as the thread ends.
    EndsThread,
    /// The vector of an event.
    AwaitsEvent,
    /// A call, a return, SSYNC or SETSR.
    LeadsElsewhere,
}

/// What comes behind an instruction.
pub fn behind_of(instr: Instr) -> Behind
    ensures { onward_of result ≡ onward instr }
{
    match instr {
        Instr::Out(_, _)
        | Instr::Outt(_, _)
        | Instr::Outct(_, _)
        | Instr::In(_, _)
        | Instr::Int(_, _)
        | Instr::Chkct(_, _)
        | Instr::Msync(_)
        | Instr::Mjoin(_) => Behind::Waits,
        Instr::Brft(_, k) | Instr::Brff(_, k) => Behind::MayBranch(k),
        Instr::Brfu(k) => Behind::Branches(k),
        Instr::Brbt(_, k) | Instr::Brbf(_, k) => Behind::MayBranchBack(k),
        Instr::Brbu(k) => Behind::BranchesBack(k),
        Instr::Freet => Behind::EndsThread,
        Instr::Waiteu => Behind::AwaitsEvent,
        Instr::Blrf(_) | Instr::Blrb(_) | Instr::Retsp(_) | Instr::Ssync | Instr::Setsr(_) => {
            Behind::LeadsElsewhere
        }
        _ => Behind::GoesOn,
    }
}
