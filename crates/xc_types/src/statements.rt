ghost use Rattle.std.specs.Prelude.{◌≡◌, OnOk};
ghost use Rattle.xc_types.specs.After as after;

use crate::calls::{right_side, right_side_if_any};
use crate::checker::Checker;
use crate::communications::{input, input_if_any, output};
use crate::declarations::declarations;
use crate::enclosing::{Enclosing, Holder, in_transaction};
use crate::lvals::{lval, part, part_if_any};
use crate::places::branch_place;
use crate::shapes::{
    begin_replicated, begin_select, breaks, continues, not_in_transaction, returns,
};
use xc_tree::{Branch, Case, Expr, Named, St, Stmt};
use xw_words::{Memory, Pos};

/// Checks a statement, with what stands around it.
#[cycle(statement)]
#[tactic(auto, using(crate::proofs::Shaping::statement_steps))]
pub fn statement(
    found: &mut Checker,
    named: &Named,
    s: &Stmt,
    around: &Enclosing,
) -> Result<(), Memory>
    ensures { OnOk result (found.new ≡ after.statement named.now s.now around.now found.old) }
{
    match &*s.kind {
        St::Empty => Ok(()),
        St::Block(ss) => {
            statements(
                found,
                named,
                ss.as_slice(),
                &Enclosing::Inside(Holder::Block, &*around),
            )
        }
        St::Decl(ds) => declarations(found, named, around, ds.as_slice()),
        St::Assign(left, _, _, rhs) => {
            lval(found, named, left)?;
            right_side(found, named, around, rhs, true)
        }
        St::Step(left, _) => lval(found, named, left),
        St::Do(rhs) => right_side(found, named, around, rhs, false),
        St::Output(send) => output(found, named, send),
        St::Input(head) => input(found, named, head),
        St::If(test, then, otherwise) => choice(found, named, test, then, otherwise, around),
        St::While(test, body) => {
            part(found, named, test)?;
            statement(
                found,
                named,
                body,
                &Enclosing::Inside(Holder::Loop, &*around),
            )
        }
        St::DoWhile(body, test) => {
            statement(
                found,
                named,
                body,
                &Enclosing::Inside(Holder::Loop, &*around),
            )?;
            part(found, named, test)
        }
        St::For(first, test, step, body) => {
            for_loop(found, named, first, test, step, body, around)
        }
        St::Return(rhs) => {
            returns(found, around, rhs.is_some(), s.pos);
            right_side_if_any(found, named, around, rhs)
        }
        St::Break => {
            breaks(found, around, s.pos);
            Ok(())
        }
        St::Continue => {
            continues(found, around, s.pos);
            Ok(())
        }
        St::Par(bs) => {
            not_in_transaction(found, around, s.pos);
            branches(found, named, bs.as_slice(), around)
        }
        St::Repl {
            first,
            second,
            third,
            from: _,
            to: _,
            body,
        } => {
            begin_replicated(found, around, first, second, third, s.pos)?;
            branch(found, named, body, around)
        }
        St::Select(cs) => {
            begin_select(found, around, cs.as_slice(), s.pos);
            cases(found, named, cs.as_slice(), around)
        }
        St::Tran(_, ss) => transaction(found, named, ss.as_slice(), around, s.pos),
    }
}

/// Checks an `if`.
#[cycle(statement)]
#[tactic(auto, using(crate::proofs::Shaping::statement_steps))]
fn choice(
    found: &mut Checker,
    named: &Named,
    test: &Expr,
    then: &Stmt,
    otherwise: &Option<Stmt>,
    around: &Enclosing,
) -> Result<(), Memory>
    ensures { OnOk result (found.new ≡ after.choice named.now test.now then.now otherwise.now
        around.now found.old) }
{
    let inner = Enclosing::Inside(Holder::If, &*around);
    part(found, named, test)?;
    statement(found, named, then, &inner)?;
    statement_if_any(found, named, otherwise, &inner)
}

/// Checks a `for`.
#[cycle(statement)]
#[tactic(auto, using(crate::proofs::Shaping::statement_steps))]
fn for_loop(
    found: &mut Checker,
    named: &Named,
    first: &Option<Stmt>,
    test: &Option<Expr>,
    step: &Option<Stmt>,
    body: &Stmt,
    around: &Enclosing,
) -> Result<(), Memory>
    ensures { OnOk result (found.new ≡ after.for_loop named.now first.now test.now step.now
        body.now around.now found.old) }
{
    statement_if_any(found, named, first, around)?;
    part_if_any(found, named, test)?;
    statement_if_any(found, named, step, around)?;
    statement(
        found,
        named,
        body,
        &Enclosing::Inside(Holder::Loop, &*around),
    )
}

#[cycle(statement)]
#[tactic(auto, using(crate::proofs::Shaping::statement_steps))]
fn statement_if_any(
    found: &mut Checker,
    named: &Named,
    s: &Option<Stmt>,
    around: &Enclosing,
) -> Result<(), Memory>
    ensures { OnOk result
        (found.new ≡ after.statement_if_any named.now s.now around.now found.old) }
{
    match s {
        None => Ok(()),
        Some(s) => statement(found, named, s, around),
    }
}

/// Checks statements, one behind the other.
#[cycle(statement)]
#[tactic(auto, using(crate::proofs::Loops::loops))]
pub fn statements(
    found: &mut Checker,
    named: &Named,
    ss: &[Stmt],
    around: &Enclosing,
) -> Result<(), Memory>
    ensures { OnOk result (found.new ≡ after.statements named.now ss.now around.now found.old) }
{
    for s in ss {
        statement(found, named, s, around)?;
    }
    Ok(())
}

/// Checks a transaction, whose word stands at this place: rules 505 and 506.
#[cycle(statement)]
#[tactic(auto, using(crate::proofs::Shaping::statement_steps))]
fn transaction(
    found: &mut Checker,
    named: &Named,
    ss: &[Stmt],
    around: &Enclosing,
    pos: Pos,
) -> Result<(), Memory>
    ensures { OnOk result
        (found.new ≡ after.transaction named.now ss.now around.now pos found.old) }
{
    let begin = found.channels.len();
    found.breaks_where(in_transaction(around), 506, pos);
    statements(
        found,
        named,
        ss,
        &Enclosing::Inside(Holder::Transaction, &*around),
    )?;
    let names_one = found.names_one_channel(begin);
    found.breaks_where(!names_one, 505, pos);
    Ok(())
}

/// Checks a branch of a `par`, with what stands around that.
#[cycle(statement)]
#[tactic(auto, using(crate::proofs::Shaping::statement_steps))]
fn branch(found: &mut Checker, named: &Named, b: &Branch, around: &Enclosing) -> Result<(), Memory>
    ensures { OnOk result (found.new ≡ after.branch named.now b.now around.now found.old) }
{
    branch_place(found, named, around, &b.place)?;
    statement(
        found,
        named,
        &b.body,
        &Enclosing::Inside(Holder::Branch, &*around),
    )
}

#[cycle(statement)]
#[tactic(auto, using(crate::proofs::Loops::loops))]
fn branches(
    found: &mut Checker,
    named: &Named,
    bs: &[Branch],
    around: &Enclosing,
) -> Result<(), Memory>
    ensures { OnOk result (found.new ≡ after.branches named.now bs.now around.now found.old) }
{
    for b in bs {
        branch(found, named, b, around)?;
    }
    Ok(())
}

/// Checks a case of a select, with what stands around that.
#[cycle(statement)]
#[tactic(auto, using(crate::proofs::Shaping::statement_steps))]
fn case(found: &mut Checker, named: &Named, c: &Case, around: &Enclosing) -> Result<(), Memory>
    ensures { OnOk result (found.new ≡ after.case named.now c.now around.now found.old) }
{
    part_if_any(found, named, &c.guard)?;
    input_if_any(found, named, &c.head)?;
    statements(
        found,
        named,
        c.body.as_slice(),
        &Enclosing::Inside(Holder::Case, &*around),
    )
}

#[cycle(statement)]
#[tactic(auto, using(crate::proofs::Loops::loops))]
fn cases(found: &mut Checker, named: &Named, cs: &[Case], around: &Enclosing) -> Result<(), Memory>
    ensures { OnOk result (found.new ≡ after.cases named.now cs.now around.now found.old) }
{
    for c in cs {
        case(found, named, c, around)?;
    }
    Ok(())
}
