// Laws of what a text means as a stimulus.
ghost use Rattle.std.specs.Prelude.{◌≡◌, ◌⊎◌, ℕ, List};
ghost use Rattle.xs_instr.specs.declared.image.Stim.{Stim};
ghost use Rattle.xr_stim.specs.Stimulus.{IsFirstBroken, Means};

/// A text means one stimulus, or has one first line that breaks a rule, with one least rule that it breaks, and not both. It
/// does nothing: its clauses are the law.
pub fn one_stimulus_or_one_broken_line()
    ensures some { (text : List ℕ) → ((s : Stim) × Means text s) ⊎ ((n : ℕ) × (r : ℕ) × IsFirstBroken text n r) }
    ensures not_both { (text : List ℕ) (s : Stim) (n r : ℕ) → Means text s → IsFirstBroken text n r → ⊥ }
    ensures one_stimulus { (text : List ℕ) (s t : Stim) → Means text s → Means text t → s ≡ t }
    ensures one_line { (text : List ℕ) (n r m q : ℕ) → IsFirstBroken text n r → IsFirstBroken text m q → (n ≡ m) × (r ≡ q) }
{}
