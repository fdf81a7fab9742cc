ghost use Rattle.std.specs.Prelude.{◌≡◌};
ghost use Rattle.xc_kernel.specs.Meant.{operator_meant};
ghost use Rattle.xc_kernel.specs.Operators as spec;

/// What a symbol does to the words of its operands.
#[derive(Clone, Copy)]
pub enum Operator {
    /// `[`: the test of an index against a length.
    BoundsCheck,
    /// `? :`
    Cond,
    BitAnd,
    BitOr,
    BitXor,
    BitNot,
    Not,
    Plus,
    Minus,
    Times,
    Divide,
    Remainder,
    Less,
    Greater,
    Equal,
    Ne,
    AtMost,
    AtLeast,
    /// `&&`
    And,
    /// `||`
    Or,
    ShiftUp,
    ShiftDown,
    NoOperator,
}

/// In the order of the symbols.
const OPERATORS: [Operator; 35] = [
    Operator::NoOperator,
    Operator::NoOperator,
    Operator::NoOperator,
    Operator::NoOperator,
    Operator::BoundsCheck,
    Operator::NoOperator,
    Operator::NoOperator,
    Operator::NoOperator,
    Operator::NoOperator,
    Operator::Cond,
    Operator::BitAnd,
    Operator::BitOr,
    Operator::BitXor,
    Operator::BitNot,
    Operator::Not,
    Operator::Plus,
    Operator::Minus,
    Operator::Times,
    Operator::Divide,
    Operator::Remainder,
    Operator::Less,
    Operator::Greater,
    Operator::NoOperator,
    Operator::NoOperator,
    Operator::NoOperator,
    Operator::NoOperator,
    Operator::NoOperator,
    Operator::Equal,
    Operator::Ne,
    Operator::AtMost,
    Operator::AtLeast,
    Operator::And,
    Operator::Or,
    Operator::ShiftUp,
    Operator::ShiftDown,
];

/// The operator of a symbol, by its place in `SYMBOLS`, or `NoOperator` where it is the symbol of none.
pub fn operator_at(symbol: u8) -> Operator
    ensures { operator_meant result ≡ spec.operator_at symbol }
{
    let place = usize::from(symbol);
    if place < OPERATORS.len() {
        OPERATORS[place]
    } else {
        Operator::NoOperator
    }
}
