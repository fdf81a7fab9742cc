ghost use Rattle.std.specs.Prelude.{◌≡◌};
ghost use Rattle.xc_tree.specs.Shapes.Enclosing as shape;
ghost use Rattle.xc_tree.specs.Trees.{head_of};
ghost use Rattle.xc_types.specs.Enclosing.{around_of};

use xc_tree::FuncItem;

/// What a statement stands in.
#[derive(Clone, Copy)]
pub enum Holder {
    /// A block that isn't the function's own.
    Block,
    If,
    /// The body of a `while`, `do` or `for`.
    Loop,
    /// A case of a select.
    Case,
    /// A branch of a `par`.
    Branch,
    Transaction,
}

/// What stands around a statement.
#[derive(Clone, Copy)]
pub enum Enclosing<'a> {
    /// It is directly in the block of this function.
    Block(&'a FuncItem),
    /// It is directly in this, around which stands that.
    Inside(Holder, &'a Enclosing<'a>),
}

/// The function that a statement stands in.
#[tactic(auto, using(crate::proofs::Holders::arounds))]
pub fn function_around<'a>(around: &Enclosing<'a>) -> &'a FuncItem
    ensures { head_of result.now ≡ (around_of around.now).function }
{
    match around {
        Enclosing::Block(function) => function,
        Enclosing::Inside(_, outer) => function_around(outer),
    }
}

/// Whether a `break` has a loop or case to leave, in the same branch and transaction.
#[tactic(auto, using(crate::proofs::Holders::arounds))]
pub fn has_way_out(around: &Enclosing) -> bool
    ensures { result ≡ shape.has_way_out (around_of around.now).holders }
{
    match around {
        Enclosing::Block(_) => false,
        Enclosing::Inside(Holder::Loop | Holder::Case, _) => true,
        Enclosing::Inside(Holder::Transaction | Holder::Branch, _) => false,
        Enclosing::Inside(Holder::Block | Holder::If, outer) => has_way_out(outer),
    }
}

/// Whether a `continue` has a loop to go on with, in the same branch and transaction.
#[tactic(auto, using(crate::proofs::Holders::arounds))]
pub fn has_next_turn(around: &Enclosing) -> bool
    ensures { result ≡ shape.has_next_turn (around_of around.now).holders }
{
    match around {
        Enclosing::Block(_) => false,
        Enclosing::Inside(Holder::Loop, _) => true,
        Enclosing::Inside(Holder::Branch | Holder::Transaction, _) => false,
        Enclosing::Inside(Holder::Block | Holder::If | Holder::Case, outer) => has_next_turn(outer),
    }
}

/// Whether there is a transaction around a statement.
#[tactic(auto, using(crate::proofs::Holders::arounds))]
pub fn in_transaction(around: &Enclosing) -> bool
    ensures { result ≡ shape.in_transaction (around_of around.now).holders }
{
    match around {
        Enclosing::Block(_) => false,
        Enclosing::Inside(Holder::Transaction, _) => true,
        Enclosing::Inside(
            Holder::Block | Holder::If | Holder::Loop | Holder::Case | Holder::Branch,
            outer,
        ) => in_transaction(outer),
    }
}

/// Whether there is a `par` or a transaction around a statement.
#[tactic(auto, using(crate::proofs::Holders::arounds))]
pub fn in_par_or_transaction(around: &Enclosing) -> bool
    ensures { result ≡ shape.in_par_or_transaction (around_of around.now).holders }
{
    match around {
        Enclosing::Block(_) => false,
        Enclosing::Inside(Holder::Branch | Holder::Transaction, _) => true,
        Enclosing::Inside(Holder::Block | Holder::If | Holder::Loop | Holder::Case, outer) => {
            in_par_or_transaction(outer)
        }
    }
}

/// Whether a function is the `main` without parameters.
pub fn is_main(function: &FuncItem) -> bool
    ensures { result ≡ shape.is_main (head_of function.now) }
{
    function.name.text.as_slice() == b"main".as_slice() && function.params.len() == 0
}

/// Whether a statement stands directly in the block of `main`.
#[tactic(auto, using(crate::proofs::Holders::arounds))]
pub fn directly_in_main(around: &Enclosing) -> bool
    ensures { result ≡ shape.directly_in_main (around_of around.now) }
{
    match around {
        Enclosing::Block(function) => is_main(function),
        Enclosing::Inside(_, _) => false,
    }
}
