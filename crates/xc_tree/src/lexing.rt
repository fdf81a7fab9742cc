/// What a place of a text begins, as its byte and the next one say.
#[derive(Clone, Copy)]
pub enum Start {
    /// The text ends here.
    End,
    /// A space, a tab or a carriage return.
    Blank,
    /// A line feed.
    LineEnd,
    /// `//`
    LineComment,
    /// `/*`
    BlockComment,
    /// `#`
    Hash,
    /// A letter or `_`.
    Letter,
    Digit,
    /// Any other byte.
    Other,
}

/// The value of a number, and whether it is `unsigned`; else it is `int`.
#[derive(Clone, Copy)]
pub struct Number {
    pub value: u32,
    pub is_unsigned: bool,
}

/// What a run of letters, digits and `_` that begins with a digit is as a number.
#[derive(Clone, Copy)]
pub enum Reading {
    /// It has none of the forms of a number.
    Formless,
    /// It is 2^32 or more.
    TooLarge,
    Fine(Number),
}
