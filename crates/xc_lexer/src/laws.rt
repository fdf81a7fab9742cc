ghost use Rattle.std.specs.Prelude.{◌≡◌, List, length, map};
ghost use Rattle.xw_words.specs.declared.pos.Broken.{Broken};
ghost use Rattle.xc_tree.specs.declared.token.Tok.{Tok};
ghost use Rattle.xc_tree.specs.Lexes.{Lexes, Breaks};
ghost use Rattle.xc_tree.specs.Extents.{extents, Tiles, EachOnce, token_places};

/// A law of the definition: a text lexes to at most one list of tokens.
pub fn one_list_of_tokens(text: &[u8])
    ensures { (u v : List Tok) → Lexes text.now u → Lexes text.now v → u ≡ v }
{
    let _ = text;
}

/// A law of the definition: a text that has tokens breaks no rule.
pub fn tokens_or_broken_rule(text: &[u8])
    ensures { (toks : List Tok) → Lexes text.now toks → (b : Broken) → Breaks text.now b → ⊥ }
{
    let _ = text;
}

/// A law of the definition: the pieces of a text that has tokens lie one behind the other from its begin to its end, and
/// none is empty.
pub fn pieces_lie_behind_each_other(text: &[u8])
    ensures { (toks : List Tok) (l : Lexes text.now toks) →
        Tiles 0 (length text.now) (extents l.leads) }
{
    let _ = text;
}

/// A law of the definition: each byte of a text that has tokens belongs to exactly one piece.
pub fn each_byte_in_one_piece(text: &[u8])
    ensures { (toks : List Tok) (l : Lexes text.now toks) →
        EachOnce (length text.now) (extents l.leads) }
{
    let _ = text;
}

/// A law of the definition: the tokens of a text stand, in their order, at the first bytes of those of its pieces that are
/// words, numbers and symbols. Blanks, comments and `#` lines give none.
pub fn tokens_stand_at_their_pieces(text: &[u8])
    ensures { (toks : List Tok) (l : Lexes text.now toks) → map (λ tok. tok.pos) toks
        ≡ token_places text.now (extents l.leads) }
{
    let _ = text;
}
