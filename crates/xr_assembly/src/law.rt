// Laws of what a text tells as a listing.
ghost use Rattle.std.specs.Prelude.{◌≡◌, ◌⊎◌, ◌<◌, ◌^◌, ℕ, List, codes};
ghost use Rattle.xr_assembly.specs.Listings.{IsFirstBrokenLine, Tells};
ghost use Rattle.xr_assembly.specs.Written.{AreWords, IsLine, chan_line_of, code_line_of};
ghost use Rattle.xr_assembly.specs.declared.lines.Line.TheVariants as line;
ghost use Rattle.xs_instr.specs.Texts.{chan_line, code_line, number_line, port_line, root_line};
ghost use Rattle.xs_instr.specs.Words.{IsWordInstr};
ghost use Rattle.xs_instr.specs.declared.image.Image.{Image};
ghost use Rattle.xs_instr.specs.declared.instr.Instr.{Instr};
ghost use Rattle.xw_words.specs.declared.pos.Pos.{Pos};
ghost use Rattle.xs_instr.specs.declared.image.Pair.{Pair};
ghost use Rattle.xs_instr.specs.declared.image.PortDecl.{PortDecl};
ghost use Rattle.xw_words.specs.Ports.{port_count};

/// A text tells one image, or has one first line that breaks a rule, with one rule, and not both. It does nothing: its clauses are the
/// law.
pub fn one_image_or_one_broken_line()
    ensures some { (text : List ℕ) →
        ((L : Image) × Tells text L) ⊎ ((n : ℕ) × (r : ℕ) × IsFirstBrokenLine text n r) }
    ensures not_both { (text : List ℕ) (L : Image) (n r : ℕ) →
        Tells text L → IsFirstBrokenLine text n r → ⊥ }
    ensures one_image { (text : List ℕ) (L M : Image) → Tells text L → Tells text M → L ≡ M }
    ensures one_line { (text : List ℕ) (n r m q : ℕ) →
        IsFirstBrokenLine text n r → IsFirstBrokenLine text m q → (n ≡ m) × (r ≡ q) }
{}

/// Each line of a listing, as it is written, is read as what it says: those that say numbers, ports and channels, and those of all
/// instructions. It does nothing: its clauses are the law.
pub fn written_lines_are_read()
    ensures core { (n : ℕ) → n < 2 ^ 32 → IsLine (number_line (codes ".core") n) (line.Core n) }
    ensures words { (n : ℕ) → n < 2 ^ 32 → IsLine (number_line (codes ".words") n) (line.Words n) }
    ensures timers { (n : ℕ) → n < 2 ^ 32 → IsLine (number_line (codes ".timers") n) (line.Timers n) }
    ensures ends { (n : ℕ) → n < 2 ^ 32 → IsLine (number_line (codes ".ends") n) (line.Ends n) }
    ensures root { (n : ℕ) → n < 2 ^ 32 → IsLine (root_line n) (line.Root n) }
    ensures code { (i : ℕ) (x : Instr) (p : Pos) →
        i < 2 ^ 32 → IsWordInstr x → p.line < 2 ^ 32 → p.col < 2 ^ 32 →
        IsLine (code_line i x p) (line.Code (code_line_of i x p)) }
    ensures port { (d : PortDecl) → d.port < port_count → IsLine (port_line d) (line.Port d) }
    ensures chan { (p : Pair) → AreWords p → IsLine (chan_line p) (line.Chan (chan_line_of p)) }
{}
