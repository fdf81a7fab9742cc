ghost use Rattle.std.specs.Prelude.{◌≡◌, ◌≢◌, ◌↔◌, ◌<◌, ◌^◌, ◌≤◌, ◌+◌, ◌++◌, ℕ, true, List as Items, length, ◌∷◌, Some, slice_get};
ghost use Rattle.xs_fabric.specs.AtTurns.{RunsOnToNextTurn, StepsInEachRound};
ghost use Rattle.xs_fabric.specs.EndWord.{end_of, has_trap};
ghost use Rattle.xs_fabric.specs.Lockstep.{due_from, events_in, lockstep, rounds_at};
ghost use Rattle.xs_fabric.specs.OtherTurns.{EventsLeaveOthers, TurnsLeaveOthers};
ghost use Rattle.xs_fabric.specs.OwnTurns.{OwnTurnsLeadOn, TrapsBehindCode};
ghost use Rattle.xs_fabric.specs.Rooms.{AllHaveRoom};
ghost use Rattle.xs_fabric.specs.Stuck.{StuckStays};
ghost use Rattle.xs_core.specs.Room.{Tokens, Credits, total, ends_of, HasRoom};
ghost use Rattle.xs_instr.specs.Ends.{peer_of};
ghost use Rattle.xs_instr.specs.Machine.{Event, Machine, Step, boot, does, home_of, link_of, runs};
ghost use Rattle.xs_instr.specs.Slot.{is_ready, is_ready_by_words};
ghost use Rattle.xs_instr.specs.Valid.{Valid, IsThere};
ghost use Rattle.xs_instr.specs.declared.image.Home.{Home};
ghost use Rattle.xs_instr.specs.declared.image.Image.{Image};
ghost use Rattle.xs_instr.specs.declared.image.Stim.{Stim};
ghost use Rattle.xs_instr.specs.declared.state.CoreState.{CoreState};
ghost use Rattle.xs_instr.specs.declared.state.Item.{Item};
ghost use Rattle.xs_instr.specs.declared.trace.EndWord.TheVariants.{Finished, Trapped};
ghost use Rattle.xs_instr.specs.declared.trace.Record.{Record};

/// The run in lockstep is a run of events, each enabled where it stands. So what is proved of every run of an image
/// holds of the one that is written.
pub fn lockstep_is_a_run()
    ensures { (L : Image) (s : Stim) (n : ℕ) →
        (events : Items Event) × (runs L s (boot L) events ≡ Some (lockstep L s n)) }
{}

/// From any machine a round is a list of events, each enabled where it stands, and as many as `Machine::round` answers.
pub fn round_counts_its_events()
    ensures { (L : Image) (s : Stim) (m : Machine) → (events : Items Event) ×
        (runs L s m events ≡ Some (rounds_at L s m 4)) × (length events ≡ events_in L s m 4) }
{}

/// After n rounds each clock is n, for n below 2^32.
pub fn clocks_count_rounds()
    ensures { (L : Image) (s : Stim) (n c : ℕ) (core : CoreState) → n < 2 ^ 32 →
        slice_get (lockstep L s n).cores c ≡ Some core → core.clock ≡ n }
{}

/// A thread is ready, its turn being a step, exactly where it runs, and it may take an event or its next instruction
/// doesn't pause.
pub fn ready_is_as_said()
    ensures { (home : Home) (core : CoreState) (t : ℕ) → is_ready home core t
        ≡ is_ready_by_words home core t }
{}

/// A step changes no other core and no link out of another core, and only adds to the trace.
pub fn step_keeps_others()
    ensures cores { (L : Image) (s : Stim) (m m' : Machine) (c t d : ℕ) → does L s m (Step c t)
        ≡ Some m' → c ≢ d → slice_get m'.cores d ≡ slice_get m.cores d }
    ensures links { (L : Image) (s : Stim) (m m' : Machine) (c t a b : ℕ) → does L s m (Step c t)
        ≡ Some m' → c ≢ a → link_of m'.links a b ≡ link_of m.links a b }
    ensures trace { (L : Image) (s : Stim) (m m' : Machine) (c t : ℕ) → does L s m (Step c t)
        ≡ Some m' → (more : Items Record) × (m'.trace ≡ m.trace ++ more) }
{}

/// In each run of a valid image an end's credits, its peer's tokens, and those on their way add up to 8.
pub fn pairs_count_eight()
    ensures { (L : Image) (s : Stim) (events : Items Event) (m : Machine) (c e : ℕ) → Valid L →
        runs L s (boot L) events ≡ Some m → IsThere L.cores c e → total Credits m c e + total Tokens
        m (peer_of L.chans c e).core (peer_of L.chans c e).end ≡ 8 }
{}

/// In each run of a valid image the end of a link's first item has room for it.
pub fn first_item_has_room()
    ensures { (L : Image) (s : Stim) (events : Items Event) (m : Machine) (a b : ℕ) (i : Item)
        (rest : Items Item) → Valid L → runs L s (boot L) events ≡ Some m → link_of m.links a b
        ≡ i ∷ rest → HasRoom (ends_of m b) i.moved }
{}

/// In each run of a valid image a link holds at most 512 items, so that it has a place for each: of the 32 ends of the core
/// to which it leads, each has at most 8 tokens and 8 credits on their way.
pub fn links_hold_at_most_512()
    ensures { (L : Image) (s : Stim) (events : Items Event) (m : Machine) (a b : ℕ) → Valid L →
        runs L s (boot L) events ≡ Some m → length (link_of m.links a b) ≤ 512 }
{}

/// In each run of a valid image what is due at a core, whatever its clock, has room, one item after the other, as
/// `Core::deliver` asks it.
pub fn due_items_have_room()
    ensures { (L : Image) (s : Stim) (events : Items Event) (m : Machine) (c clock : ℕ)
        (core : CoreState) → Valid L → runs L s (boot L) events ≡ Some m → slice_get m.cores c
        ≡ Some core → AllHaveRoom (home_of L s c) core (due_from m.links c clock 4) }
{}

/// In each run of a valid image the end word is `finished` exactly where no core has a root that has not ended.
pub fn finished_exactly_where_all_roots_have_ended()
    ensures { (L : Image) (s : Stim) (events : Items Event) (m : Machine) → Valid L →
        runs L s (boot L) events ≡ Some m → (end_of L s m ≡ Finished)
        ↔ ((c : ℕ) (core : CoreState) → slice_get m.cores c ≡ Some core → core.roots ≡ 0) }
{}

/// In each run of a valid image the end word is `trapped` only where a thread is trapped: a core never has more roots that have
/// not ended than threads in use.
pub fn trapped_only_with_a_trap()
    ensures { (L : Image) (s : Stim) (events : Items Event) (m : Machine) → Valid L →
        runs L s (boot L) events ≡ Some m → end_of L s m ≡ Trapped → has_trap L s m ≡ true }
{}

/// In each run of a valid image whose end word is `stuck`, it stays so behind any ticks, however far the clocks go: no thread's step
/// and no move is enabled there.
pub fn stuck_stays()
    ensures { StuckStays }
{}

/// A thread that runs is left as it is by each other thread's turn, a trap or an event that it takes among them, and by each event of
/// the machine but its own step; and no turn changes how many threads there are.
pub fn running_threads_are_left_by_others()
    ensures turns { TurnsLeaveOthers }
    ensures events { EventsLeaveOthers }
{}

/// Where its event bit is clear, the turn of a thread that runs leads to an index to which its instruction may lead, or ends the thread
/// where that is FREET. Or it traps, which no branch and no WAITEU does, or pauses, which only inputs, outputs, CHKCT, MSYNC, MJOIN and
/// WAITEU do. Of where calls, returns, SSYNC, WAITEU and SETSR lead nothing is said. Behind the code it traps.
pub fn own_turns_lead_on()
    ensures instructions { OwnTurnsLeadOn }
    ensures behind_code { TrapsBehindCode }
{}

/// A thread that runs is at its turn in the next round as its turn in this one left it. So in a round in which it comes to its turn
/// with its event bit clear, at an instruction that never pauses, it makes a step.
pub fn threads_step_in_each_round()
    ensures next { RunsOnToNextTurn }
    ensures steps { StepsInEachRound }
{}
