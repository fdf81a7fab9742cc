ghost use Rattle.std.specs.Prelude.{◌≡◌};
ghost use Rattle.xc_size.specs.Counted.Depth as depths;
ghost use Rattle.xc_size.specs.Counted.Nodes as nodes;
ghost use Rattle.xc_size.specs.Counted.Statements as statements;
ghost use Rattle.xc_size.specs.Sizes.{up_to};
ghost use Rattle.xc_kernel.specs.Size.{most_statements};

use crate::size::Size;
use crate::sizes::Sizes;
use xc_tree::{
    Arg, At, Branch, Case, DeclKind, Declared, Dest, Ex, Expr, FuncItem, Head, Rhs, Send, St, Stmt,
    Timed, When,
};

/// The size that a call of a function adds to the part in which it stands.
#[tactic(auto, using(crate::proofs::Measures::measures))]
pub fn function<'a>(sizes: &Sizes<'a>, f: &'a FuncItem) -> Size
    ensures statements { result.statements ≡ statements.of_function sizes.now f.now }
    ensures nodes { result.nodes ≡ nodes.of_function sizes.now f.now }
    ensures depth { result.depth ≡ depths.of_function sizes.now f.now }
{
    statement(sizes, &f.body).counted(f.params.len()).counted(1)
}

/// The size of an expression.
#[cycle(expression)]
#[tactic(auto, using(crate::proofs::Measures::measures))]
fn expression(e: &Expr) -> Size
    ensures statements { result.statements ≡ up_to most_statements 0 }
    ensures nodes { result.nodes ≡ nodes.of_expression e.now }
    ensures depth { result.depth ≡ depths.of_expression e.now }
{
    let operands = match &e.kind {
        Ex::Num(_, _) => Size::none(),
        Ex::Name(_) => Size::none(),
        Ex::Index(_, index) => expression(index),
        Ex::Un(_, operand) => expression(operand),
        Ex::Bin(_, left, right) => expression(left).parallel(expression(right)),
        Ex::Cond(test, first, second) => {
            expression(test).parallel(expression(first).parallel(expression(second)))
        }
        Ex::Cast(_, operand) => expression(operand),
    };
    operands.node()
}

#[tactic(auto, using(crate::proofs::Measures::measures))]
fn expression_if_any(e: &Option<Expr>) -> Size
    ensures statements { result.statements ≡ up_to most_statements 0 }
    ensures nodes { result.nodes ≡ nodes.of_expression_if_any e.now }
    ensures depth { result.depth ≡ depths.of_expression_if_any e.now }
{
    match e {
        None => Size::none(),
        Some(e) => expression(e),
    }
}

#[tactic(auto, using(crate::proofs::Measures::measures))]
fn arguments(args: &[Arg]) -> Size
    ensures statements { result.statements ≡ up_to most_statements 0 }
    ensures nodes { result.nodes ≡ nodes.of_arguments args.now }
    ensures depth { result.depth ≡ depths.of_arguments args.now }
{
    let mut size = Size::none();
    for arg in args {
        size = size.parallel(expression(&arg.value));
    }
    size
}

/// The size of what stands at the right of an `=`, with that of the function that it calls.
#[tactic(auto, using(crate::proofs::Measures::measures))]
fn right_side<'a>(sizes: &Sizes<'a>, rhs: &'a Rhs) -> Size
    ensures statements { result.statements ≡ statements.of_right_side sizes.now rhs.now }
    ensures nodes { result.nodes ≡ nodes.of_right_side sizes.now rhs.now }
    ensures depth { result.depth ≡ depths.of_right_side sizes.now rhs.now }
{
    match rhs {
        Rhs::Value(value) => expression(value),
        Rhs::Call { name, pos: _, args } => arguments(args.as_slice()).parallel(sizes.called(name)),
    }
}

#[tactic(auto, using(crate::proofs::Measures::measures))]
fn right_side_if_any<'a>(sizes: &Sizes<'a>, rhs: &'a Option<Rhs>) -> Size
    ensures statements { result.statements ≡ statements.of_right_side_if_any sizes.now rhs.now }
    ensures nodes { result.nodes ≡ nodes.of_right_side_if_any sizes.now rhs.now }
    ensures depth { result.depth ≡ depths.of_right_side_if_any sizes.now rhs.now }
{
    match rhs {
        None => Size::none(),
        Some(rhs) => right_side(sizes, rhs),
    }
}

#[tactic(auto, using(crate::proofs::Measures::measures))]
fn timing(time: &Option<Timed>) -> Size
    ensures statements { result.statements ≡ up_to most_statements 0 }
    ensures nodes { result.nodes ≡ nodes.of_timing time.now }
    ensures depth { result.depth ≡ depths.of_timing time.now }
{
    match time {
        None => Size::none(),
        Some(time) => expression(&time.value),
    }
}

#[tactic(auto, using(crate::proofs::Measures::measures))]
fn condition(cond: &Option<When>) -> Size
    ensures statements { result.statements ≡ up_to most_statements 0 }
    ensures nodes { result.nodes ≡ nodes.of_condition cond.now }
    ensures depth { result.depth ≡ depths.of_condition cond.now }
{
    match cond {
        None => Size::none(),
        Some(cond) => expression(&cond.value),
    }
}

#[tactic(auto, using(crate::proofs::Measures::measures))]
fn output(send: &Send) -> Size
    ensures statements { result.statements ≡ up_to most_statements 0 }
    ensures nodes { result.nodes ≡ nodes.of_output send.now }
    ensures depth { result.depth ≡ depths.of_output send.now }
{
    let value = expression(&send.value).parallel(timing(&send.stamp));
    timing(&send.time).parallel(value)
}

#[tactic(auto, using(crate::proofs::Measures::measures))]
fn target(dest: &Dest) -> Size
    ensures statements { result.statements ≡ up_to most_statements 0 }
    ensures nodes { result.nodes ≡ nodes.of_target dest.now }
    ensures depth { result.depth ≡ depths.of_target dest.now }
{
    match dest {
        Dest::To(e) => expression(e),
        Dest::Drop => Size::none(),
        Dest::Fresh(_, _, _) => Size::none(),
    }
}

/// The size of what is stored behind an input.
#[tactic(auto, using(crate::proofs::Measures::measures))]
fn stored(dest: &Dest, stamp: &Option<Timed>) -> Size
    ensures statements { result.statements ≡ up_to most_statements 0 }
    ensures nodes { result.nodes ≡ nodes.of_stored dest.now stamp.now }
    ensures depth { result.depth ≡ depths.of_stored dest.now stamp.now }
{
    target(dest).parallel(timing(stamp))
}

#[tactic(auto, using(crate::proofs::Measures::measures))]
fn input(head: &Head) -> Size
    ensures statements { result.statements ≡ up_to most_statements 0 }
    ensures nodes { result.nodes ≡ nodes.of_input head.now }
    ensures depth { result.depth ≡ depths.of_input head.now }
{
    let stored = stored(&head.dest, &head.stamp);
    timing(&head.time).parallel(condition(&head.cond).parallel(stored))
}

#[tactic(auto, using(crate::proofs::Measures::measures))]
fn input_if_any(head: &Option<Head>) -> Size
    ensures statements { result.statements ≡ up_to most_statements 0 }
    ensures nodes { result.nodes ≡ nodes.of_input_if_any head.now }
    ensures depth { result.depth ≡ depths.of_input_if_any head.now }
{
    match head {
        None => Size::none(),
        Some(head) => input(head),
    }
}

#[tactic(auto, using(crate::proofs::Measures::measures))]
fn placement(placement: &Option<At>) -> Size
    ensures statements { result.statements ≡ up_to most_statements 0 }
    ensures nodes { result.nodes ≡ nodes.of_place placement.now }
    ensures depth { result.depth ≡ depths.of_place placement.now }
{
    match placement {
        None => Size::none(),
        Some(placement) => expression(&placement.value),
    }
}

/// The size of what stands behind the `=` of a declared name.
#[tactic(auto, using(crate::proofs::Measures::measures))]
fn initial<'a>(sizes: &Sizes<'a>, kind: &'a DeclKind) -> Size
    ensures statements { result.statements ≡ statements.of_initial sizes.now kind.now }
    ensures nodes { result.nodes ≡ nodes.of_initial sizes.now kind.now }
    ensures depth { result.depth ≡ depths.of_initial sizes.now kind.now }
{
    match kind {
        DeclKind::Word(_, rhs) => right_side_if_any(sizes, rhs),
        DeclKind::Array(_, _, _) => Size::none(),
        DeclKind::Chan(_) => Size::none(),
        DeclKind::Timer => Size::none(),
    }
}

#[tactic(auto, using(crate::proofs::Measures::measures))]
fn declaration<'a>(sizes: &Sizes<'a>, d: &'a Declared) -> Size
    ensures statements { result.statements ≡ statements.of_declaration sizes.now d.now }
    ensures nodes { result.nodes ≡ nodes.of_declaration sizes.now d.now }
    ensures depth { result.depth ≡ depths.of_declaration sizes.now d.now }
{
    initial(sizes, &d.kind).counted(1)
}

#[tactic(auto, using(crate::proofs::Measures::measures))]
fn declarations<'a>(sizes: &Sizes<'a>, declared: &'a [Declared]) -> Size
    ensures statements { result.statements ≡ statements.of_declarations sizes.now declared.now }
    ensures nodes { result.nodes ≡ nodes.of_declarations sizes.now declared.now }
    ensures depth { result.depth ≡ depths.of_declarations sizes.now declared.now }
{
    let mut size = Size::none();
    for d in declared {
        size = size.parallel(declaration(sizes, d));
    }
    size
}

/// The size of a statement.
#[cycle(statement)]
#[tactic(auto, using(crate::proofs::Measures::measures))]
pub fn statement<'a>(sizes: &Sizes<'a>, s: &'a Stmt) -> Size
    ensures statements { result.statements ≡ statements.of_statement sizes.now s.now }
    ensures nodes { result.nodes ≡ nodes.of_statement sizes.now s.now }
    ensures depth { result.depth ≡ depths.of_statement sizes.now s.now }
{
    action(sizes, &s.kind).deeper()
}

#[cycle(statement)]
#[tactic(auto, using(crate::proofs::Measures::measures))]
fn action<'a>(sizes: &Sizes<'a>, kind: &'a St) -> Size
    ensures statements { result.statements ≡ statements.of_action sizes.now kind.now }
    ensures nodes { result.nodes ≡ nodes.of_action sizes.now kind.now }
    ensures depth { result.depth ≡ depths.of_action sizes.now kind.now }
{
    match kind {
        St::Empty => Size::none(),
        St::Block(ss) => statements(sizes, ss.as_slice()),
        St::Decl(ds) => declarations(sizes, ds.as_slice()),
        St::Assign(lval, _, _, rhs) => expression(lval).parallel(right_side(sizes, rhs)).counted(1),
        St::Step(lval, _) => expression(lval).counted(1),
        St::Do(rhs) => right_side(sizes, rhs),
        St::Output(send) => output(send).counted(1),
        St::Input(head) => input(head).counted(1),
        St::If(test, then, otherwise) => {
            let bodies = statement(sizes, then).parallel(statement_if_any(sizes, otherwise));
            expression(test).parallel(bodies).counted(1)
        }
        St::While(test, body) => expression(test).parallel(statement(sizes, body)).counted(1),
        St::DoWhile(body, test) => statement(sizes, body).parallel(expression(test)).counted(1),
        St::For(first, test, step, body) => {
            let turn = statement_if_any(sizes, step).parallel(statement(sizes, body));
            let turns = expression_if_any(test).parallel(turn);
            statement_if_any(sizes, first).parallel(turns).counted(1)
        }
        St::Return(rhs) => right_side_if_any(sizes, rhs).counted(1),
        St::Break => Size::none().counted(1),
        St::Continue => Size::none().counted(1),
        St::Par(bs) => branches(sizes, bs.as_slice()).counted(1),
        St::Repl {
            first: _,
            second: _,
            third: _,
            from,
            to,
            body,
        } => {
            let copies = to.saturating_sub(*from);
            branch(sizes, body).times(copies).counted(1)
        }
        St::Select(cs) => cases(sizes, cs.as_slice()).counted(1),
        St::Tran(_, ss) => statements(sizes, ss.as_slice()).counted(2),
    }
}

#[cycle(statement)]
#[tactic(auto, using(crate::proofs::Measures::measures))]
fn statement_if_any<'a>(sizes: &Sizes<'a>, s: &'a Option<Stmt>) -> Size
    ensures statements { result.statements ≡ statements.of_statement_if_any sizes.now s.now }
    ensures nodes { result.nodes ≡ nodes.of_statement_if_any sizes.now s.now }
    ensures depth { result.depth ≡ depths.of_statement_if_any sizes.now s.now }
{
    match s {
        None => Size::none(),
        Some(s) => statement(sizes, s),
    }
}

#[cycle(statement)]
#[tactic(auto, using(crate::proofs::Measures::measures))]
fn statements<'a>(sizes: &Sizes<'a>, ss: &'a [Stmt]) -> Size
    ensures statements { result.statements ≡ statements.of_statements sizes.now ss.now }
    ensures nodes { result.nodes ≡ nodes.of_statements sizes.now ss.now }
    ensures depth { result.depth ≡ depths.of_statements sizes.now ss.now }
{
    let mut size = Size::none();
    for s in ss {
        size = size.parallel(statement(sizes, s));
    }
    size
}

#[cycle(statement)]
#[tactic(auto, using(crate::proofs::Measures::measures))]
fn branch<'a>(sizes: &Sizes<'a>, b: &'a Branch) -> Size
    ensures statements { result.statements ≡ statements.of_branch sizes.now b.now }
    ensures nodes { result.nodes ≡ nodes.of_branch sizes.now b.now }
    ensures depth { result.depth ≡ depths.of_branch sizes.now b.now }
{
    placement(&b.place)
        .parallel(statement(sizes, &b.body))
        .counted(1)
}

#[cycle(statement)]
#[tactic(auto, using(crate::proofs::Measures::measures))]
fn branches<'a>(sizes: &Sizes<'a>, bs: &'a [Branch]) -> Size
    ensures statements { result.statements ≡ statements.of_branches sizes.now bs.now }
    ensures nodes { result.nodes ≡ nodes.of_branches sizes.now bs.now }
    ensures depth { result.depth ≡ depths.of_branches sizes.now bs.now }
{
    let mut size = Size::none();
    for b in bs {
        size = size.parallel(branch(sizes, b));
    }
    size
}

#[cycle(statement)]
#[tactic(auto, using(crate::proofs::Measures::measures))]
fn case<'a>(sizes: &Sizes<'a>, c: &'a Case) -> Size
    ensures statements { result.statements ≡ statements.of_case sizes.now c.now }
    ensures nodes { result.nodes ≡ nodes.of_case sizes.now c.now }
    ensures depth { result.depth ≡ depths.of_case sizes.now c.now }
{
    let body = input_if_any(&c.head).parallel(statements(sizes, c.body.as_slice()));
    expression_if_any(&c.guard).parallel(body).counted(1)
}

#[cycle(statement)]
#[tactic(auto, using(crate::proofs::Measures::measures))]
fn cases<'a>(sizes: &Sizes<'a>, cs: &'a [Case]) -> Size
    ensures statements { result.statements ≡ statements.of_cases sizes.now cs.now }
    ensures nodes { result.nodes ≡ nodes.of_cases sizes.now cs.now }
    ensures depth { result.depth ≡ depths.of_cases sizes.now cs.now }
{
    let mut size = Size::none();
    for c in cs {
        size = size.parallel(case(sizes, c));
    }
    size
}
