//! The places of symbols in `SYMBOLS`.

/// `(`
pub const PAREN: u8 = 0;

/// `)`
pub const END_PAREN: u8 = 1;

/// `{`
pub const BRACE: u8 = 2;

/// `}`
pub const END_BRACE: u8 = 3;

/// `[`
pub const BRACKET: u8 = 4;

/// `]`
pub const END_BRACKET: u8 = 5;

/// `;`
pub const SEMICOLON: u8 = 6;

/// `,`
pub const COMMA: u8 = 7;

/// `:`
pub const COLON: u8 = 8;

/// `?`
pub const QUESTION: u8 = 9;

/// `&`
pub const AMPERSAND: u8 = 10;

/// `|`
pub const BAR: u8 = 11;

/// `^`
pub const CARET: u8 = 12;

/// `~`
pub const TILDE: u8 = 13;

/// `!`
pub const BANG: u8 = 14;

/// `+`
pub const PLUS: u8 = 15;

/// `-`
pub const MINUS: u8 = 16;

/// `*`
pub const STAR: u8 = 17;

/// `/`
pub const SLASH: u8 = 18;

/// `%`
pub const PERCENT: u8 = 19;

/// `<`
pub const BELOW: u8 = 20;

/// `>`
pub const ABOVE: u8 = 21;

/// `=`
pub const EQUALS: u8 = 22;

/// `@`
pub const AT_SIGN: u8 = 23;

/// `<:`
pub const SENDS: u8 = 24;

/// `:>`
pub const RECEIVES: u8 = 25;

/// `=>`
pub const ARROW: u8 = 26;

/// `==`
pub const EQUALS_EQUALS: u8 = 27;

/// `!=`
pub const BANG_EQUALS: u8 = 28;

/// `<=`
pub const BELOW_EQUALS: u8 = 29;

/// `>=`
pub const ABOVE_EQUALS: u8 = 30;

/// `&&`
pub const AND_AND: u8 = 31;

/// `||`
pub const OR_OR: u8 = 32;

/// `<<`
pub const SHIFT_UP: u8 = 33;

/// `>>`
pub const SHIFT_DOWN: u8 = 34;

/// `++`
pub const PLUS_PLUS: u8 = 35;

/// `--`
pub const MINUS_MINUS: u8 = 36;

/// `+=`
pub const PLUS_EQUALS: u8 = 37;

/// `-=`
pub const MINUS_EQUALS: u8 = 38;

/// `*=`
pub const STAR_EQUALS: u8 = 39;

/// `/=`
pub const SLASH_EQUALS: u8 = 40;

/// `%=`
pub const PERCENT_EQUALS: u8 = 41;

/// `&=`
pub const AMPERSAND_EQUALS: u8 = 42;

/// `|=`
pub const BAR_EQUALS: u8 = 43;

/// `^=`
pub const CARET_EQUALS: u8 = 44;

/// `<<=`
pub const SHIFT_UP_EQUALS: u8 = 45;

/// `>>=`
pub const SHIFT_DOWN_EQUALS: u8 = 46;
