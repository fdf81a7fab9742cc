ghost use Rattle.std.specs.Prelude.{◌≡◌, ℕ, List};
ghost use Rattle.xc_tree.specs.Plain.{Item};
ghost use Rattle.xr_front.specs.Rules.{First, IsAccepted};
ghost use Rattle.xw_words.specs.declared.pos.Broken.{Broken};

use xc_parser::at_most_one_tree;

/// A text has at most one first broken rule, is at most one program, and not both. It does nothing; its clauses are the law.
pub fn at_most_one_answer()
    ensures rule { (text : List ℕ) (b c : Broken) → First text b → First text c → b ≡ c }
    ensures program { (text : List ℕ) (P Q : List Item) →
        IsAccepted text P → IsAccepted text Q → P ≡ Q }
    ensures not_both { (text : List ℕ) (b : Broken) (P : List Item) →
        First text b → IsAccepted text P → ⊥ }
{
    at_most_one_tree();
}
