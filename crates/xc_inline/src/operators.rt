ghost use Rattle.std.specs.Prelude.{◌≡◌};
ghost use Rattle.xc_kernel.specs.Operators as spec;
ghost use Rattle.xc_kernel.specs.Types as types;
ghost use Rattle.xc_inline.specs.Truths.{is_truth};

use xc_tree::symbols::{
    ABOVE, ABOVE_EQUALS, AMPERSAND, AND_AND, BANG, BANG_EQUALS, BAR, BELOW, BELOW_EQUALS, CARET,
    EQUALS_EQUALS, MINUS, OR_OR, PERCENT, PLUS, PLUS_PLUS, SHIFT_DOWN, SHIFT_UP, SLASH, STAR,
};

/// The operators whose result is 0 or 1.
const TRUTHS: [u8; 8] = [
    BELOW,
    ABOVE,
    EQUALS_EQUALS,
    BANG_EQUALS,
    BELOW_EQUALS,
    ABOVE_EQUALS,
    AND_AND,
    OR_OR,
];

/// For the symbols from `++` on by which an operator assigns, their operators.
const ASSIGNING: [u8; 12] = [
    PLUS, MINUS, PLUS, MINUS, STAR, SLASH, PERCENT, AMPERSAND, BAR, CARET, SHIFT_UP, SHIFT_DOWN,
];

/// Whether an operation on two words is that of `unsigned` words: where one of them is, and a shift where its left one is.
pub fn operation_is_unsigned(symbol: u8, left: bool, right: bool) -> bool
    ensures { result ≡ types.operation_is_unsigned (spec.operator_at symbol) left right }
{
    if symbol == SHIFT_UP {
        return left;
    }
    if symbol == SHIFT_DOWN {
        return left;
    }
    left || right
}

/// Whether what an operation on two words gives is `unsigned`.
#[tactic(auto, using(crate::proofs::Laws::Operators::truth_is_signed, crate::proofs::Laws::Operators::other_result))]
pub fn result_is_unsigned(symbol: u8, left: bool, right: bool) -> bool
    ensures { result ≡ types.result_is_unsigned (spec.operator_at symbol) left right }
{
    if gives_truth(symbol) {
        return false;
    }
    operation_is_unsigned(symbol, left, right)
}

/// Whether an operator gives the `int` 1 or 0.
fn gives_truth(symbol: u8) -> bool
    ensures { result ≡ is_truth (spec.operator_at symbol) }
{
    TRUTHS.contains(&symbol)
}

/// Whether what an operator before an expression gives is `unsigned`.
pub fn sign_is_unsigned(symbol: u8, operand: bool) -> bool
    ensures { result ≡ types.sign_is_unsigned (spec.operator_at symbol) operand }
{
    if symbol == BANG {
        return false;
    }
    operand
}

/// The operator by which a symbol assigns.
pub fn operator_of(symbol: u8) -> u8
    ensures { result ≡ spec.operator_of symbol }
{
    let place = usize::from(symbol.saturating_sub(PLUS_PLUS));
    if place < ASSIGNING.len() {
        ASSIGNING[place]
    } else {
        0
    }
}
