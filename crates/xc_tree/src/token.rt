use xw_words::{List, Pos};

/// A row of bytes.
pub type Text = List<u8>;

/// What a token is.
#[derive(Drop)]
pub enum Kind {
    Name(Text),
    /// A number's value, and whether it is `unsigned`; else it is `int`.
    Num(u32, bool),
    /// A word, by its place in `WORDS`.
    Key(u8),
    /// A symbol, by its place in `SYMBOLS`.
    Sym(u8),
}

/// A token, and the place of its first byte.
#[derive(Drop)]
pub struct Tok {
    pub kind: Kind,
    pub pos: Pos,
}

/// The words that aren't names: those of the grammar, and from `buffered` on those that are reserved.
pub const WORDS: [&[u8]; 49] = [
    b"break",
    b"case",
    b"chan",
    b"chanend",
    b"continue",
    b"default",
    b"do",
    b"else",
    b"for",
    b"if",
    b"in",
    b"int",
    b"master",
    b"on",
    b"out",
    b"par",
    b"port",
    b"pinseq",
    b"pinsneq",
    b"return",
    b"select",
    b"slave",
    b"stdcore",
    b"tile",
    b"timer",
    b"timerafter",
    b"unsigned",
    b"void",
    b"when",
    b"while",
    b"buffered",
    b"char",
    b"clock",
    b"const",
    b"float",
    b"goto",
    b"inline",
    b"interface",
    b"long",
    b"short",
    b"signed",
    b"sizeof",
    b"static",
    b"streaming",
    b"struct",
    b"switch",
    b"transaction",
    b"typedef",
    b"union",
];

/// The symbols, and from `+=` on those that assign.
pub const SYMBOLS: [&[u8]; 47] = [
    b"(", b")", b"{", b"}", b"[", b"]", b";", b",", b":", b"?", b"&", b"|", b"^", b"~", b"!", b"+",
    b"-", b"*", b"/", b"%", b"<", b">", b"=", b"@", b"<:", b":>", b"=>", b"==", b"!=", b"<=",
    b">=", b"&&", b"||", b"<<", b">>", b"++", b"--", b"+=", b"-=", b"*=", b"/=", b"%=", b"&=",
    b"|=", b"^=", b"<<=", b">>=",
];
