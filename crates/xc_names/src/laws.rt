ghost use Rattle.std.specs.Prelude.{◌≡◌, List};
ghost use Rattle.xc_tree.specs.Plain.{Item};
ghost use Rattle.xc_tree.specs.Types.Named.{IsNamed, NamedProgram};

/// A tree has at most one named program: its names have one meaning. It does nothing; its clause is the law.
pub fn at_most_one_naming()
    ensures { (tree : List Item) (a b : NamedProgram) → IsNamed tree a → IsNamed tree b → a ≡ b }
{}
