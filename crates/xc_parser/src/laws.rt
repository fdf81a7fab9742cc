ghost use Rattle.std.specs.Prelude.{◌≡◌, List};
ghost use Rattle.xc_tree.specs.declared.token.Tok.{Tok};
ghost use Rattle.xc_tree.specs.Plain.{Item};
ghost use Rattle.xc_tree.specs.Derives.{IsProgram};

/// A list of tokens is at most one program, whatever its depth. It does nothing; its clause is the law.
pub fn at_most_one_tree()
    ensures { (toks : List Tok) (v w : List Item) → IsProgram toks v → IsProgram toks w → v ≡ w }
{}
