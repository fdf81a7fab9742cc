// What is true of the windows of every run in lockstep.

ghost use Rattle.std.specs.Prelude.{◌≡◌, ◌≤◌, ◌<◌, ◌^◌, ◌+◌, ◌++◌, ℕ, Some, nat_eq, not, slice_get};
ghost use Rattle.xr_windows.specs.Alone.{due_in, sent_for};
ghost use Rattle.xr_windows.specs.Ending.{four_sights};
ghost use Rattle.xr_windows.specs.Merge.{rounds_of};
ghost use Rattle.xr_windows.specs.Pending.{some_pending};
ghost use Rattle.xr_windows.specs.Windows.{alone_from, batch, batches_before, part, ticks_in, went_on, window, windows_of};
ghost use Rattle.xs_fabric.specs.EndWord.{end_of, end_word, has_trap, links_empty};
ghost use Rattle.xs_fabric.specs.Lockstep.{lockstep, tick_once};
ghost use Rattle.xs_fabric.specs.Rooms.{AllHaveRoom};
ghost use Rattle.xs_instr.specs.Machine.{home_of, link_of};
ghost use Rattle.xs_instr.specs.Valid.{Valid};
ghost use Rattle.xs_instr.specs.declared.image.Image.{Image};
ghost use Rattle.xs_instr.specs.declared.image.Stim.{Stim};

/// Within eight ticks each core goes as by itself, since what is sent in them isn't due in them; and on each link stands
/// what was coming to the receiver, and then what the sender sent since.
pub fn eight_ticks_of_a_core()
    ensures cores { (L : Image) (s : Stim) (t n i : ℕ) → n ≤ 8 → t + n < 2 ^ 32 → i < 4 →
        slice_get (lockstep L s (t + n)).cores i ≡ Some (alone_from L s t i n).core }
    ensures links { (L : Image) (s : Stim) (t n a i : ℕ) → n ≤ 8 → t + n < 2 ^ 32 → a < 4 → i < 4 →
        link_of (lockstep L s (t + n)).links a i
        ≡ (alone_from L s t i n).coming a ++ sent_for i (alone_from L s t a n).sent }
{}

/// A core's next part, and the batches that go out of it, depend on its part before and on the batches of the window
/// before alone.
pub fn windows_depend_on_part_and_batches()
    ensures part { (L : Image) (s : Stim) (n i k : ℕ) → n < 2 ^ 32 → i < 4 →
        part L s n i (k + 1) ≡ went_on (part L s n i k)
        (window (home_of L s i) (part L s n i k) (batches_before L s n i k) (ticks_in n k)) }
    ensures batches { (L : Image) (s : Stim) (n i j k : ℕ) → n < 2 ^ 32 → i < 4 →
        batch L s n i j k ≡ sent_for j
        (window (home_of L s i) (part L s n i k) (batches_before L s n i k) (ticks_in n k)).sent }
{}

/// The trace of the rounds is the four cores' records, by tick, core and order.
pub fn records_merge_to_the_trace()
    ensures { (L : Image) (s : Stim) (n : ℕ) → (lockstep L s n).trace
        ≡ rounds_of (part L s n 0 (windows_of n)).records (part L s n 1 (windows_of n)).records
        (part L s n 2 (windows_of n)).records (part L s n 3 (windows_of n)).records n }
{}

/// How a run ends is told by the four parts: their sights, and whether one of them is pending.
pub fn parts_tell_the_end()
    ensures links { (L : Image) (s : Stim) (n : ℕ) → Valid L → 1 ≤ n → n < 2 ^ 32 →
        links_empty (lockstep L s n).links ≡ not (some_pending L s n) }
    ensures word { (L : Image) (s : Stim) (n : ℕ) → Valid L → 1 ≤ n → n < 2 ^ 32 →
        end_of L s (lockstep L s n) ≡ end_word (four_sights L s n) (not (some_pending L s n)) }
    ensures trapped { (L : Image) (s : Stim) (n : ℕ) →
        has_trap L s (lockstep L s n) ≡ not (nat_eq (four_sights L s n).trapped 0) }
{}

/// What is due of a core by itself has room, one item after the other, as `Core::deliver` asks it.
pub fn due_items_of_a_core_have_room()
    ensures { (L : Image) (s : Stim) (t n i : ℕ) → Valid L → i < 4 → n < 8 → t + n + 1 < 2 ^ 32 →
        AllHaveRoom (home_of L s i) (tick_once (alone_from L s t i n).core)
        (due_in (alone_from L s t i n).coming (tick_once (alone_from L s t i n).core).clock 4) }
{}
