// What a listing tells of its image.
ghost use Rattle.std.specs.Prelude.{◌≡◌};
ghost use Rattle.xs_instr.specs.Words.{HasWords};
ghost use Rattle.xs_instr.specs.declared.image.Image.{Image};
ghost use Rattle.xs_instr.specs.Texts.{image_text};
ghost use Rattle.xs_instr.specs.Valid.{Valid};

/// A listing leaves nothing out: two valid images whose numbers are words of 32 bits and that have the same text are the
/// same. It does nothing; its clause is the law.
pub fn same_text_same_image()
    ensures { (L M : Image) → Valid L → Valid M → HasWords L → HasWords M → image_text L ≡ image_text M → L ≡ M }
{}
