ghost use Rattle.std.specs.Prelude.{◌≡◌, ◌<◌, ◌^◌, ◌++◌, ◌∷◌, [], length, OnOk, IfOk};
ghost use Rattle.xc_names.specs.Listed as listed;
ghost use Rattle.xc_names.specs.Starts.{AreStarts};
ghost use Rattle.xc_tree.specs.Names.Marks as names;
ghost use Rattle.xc_tree.specs.Trees as tree;
ghost use Rattle.xc_tree.specs.Trees.{program_of};

use std::alloc::Global;
use xc_tree::{
    Arg, At, Branch, Case, Decl, DeclKind, Declared, Dest, Ex, Expr, FuncItem, Head, Id, Item,
    Mark, Param, ParamKind, PortItem, Rhs, Send, St, Stmt, Text, Timed, Tree, What, When,
};
use xw_words::{List, Memory, Pos};

/// What a program has of names and scopes, and where in it each item begins, with its end for the last.
#[derive(Drop)]
pub struct Marks {
    pub all: List<Mark>,
    pub starts: List<usize>,
}

/// What a program has of names and scopes, where it has fewer than 2^32 items. The stack that it needs grows with the depth
/// of the tree. The one error is want of memory.
pub fn marks_of(alloc: Global, tree: &Tree) -> Result<Marks, Memory>
    requires { length tree.now.items < 2 ^ 32 }
    ensures all { IfOk result (λ m. m.all ≡ names.of_program (program_of tree.now)) }
    ensures starts { IfOk result (λ m. AreStarts (program_of tree.now) m.starts) }
{
    let mut all = List::new(alloc);
    let mut starts = List::new(alloc);
    for (k, item) in tree.items.as_slice().iter().enumerate() {
        starts.push(all.len())?;
        add_item(alloc, &mut all, k as u32, item)?;
    }
    starts.push(all.len())?;
    Ok(Marks { all, starts })
}

/// What a statement has of names and scopes, the names that it calls among them. The stack that it needs grows with the depth
/// of the statement. The one error is want of memory.
pub fn marks_of_statement(alloc: Global, s: &Stmt) -> Result<List<Mark>, Memory>
    ensures { IfOk result (λ all. all ≡ names.of_statement (tree.statement_of s.now)) }
{
    let mut all = List::new(alloc);
    statement(alloc, &mut all, s)?;
    Ok(all)
}

fn add_item(alloc: Global, out: &mut List<Mark>, k: u32, item: &Item) -> Result<(), Memory>
    ensures { OnOk result (out.new ≡ out.old ++ names.of_item k (tree.item_of item.now)) }
{
    match item {
        Item::Port(port) => add_port(alloc, out, port),
        Item::Func(function) => add_function(alloc, out, k, function),
    }
}

fn add_port(alloc: Global, out: &mut List<Mark>, port: &PortItem) -> Result<(), Memory>
    ensures { OnOk result (out.new ≡ out.old ++ listed.of_port port.now) }
{
    place(alloc, out, &port.place)?;
    add_declaration(
        alloc,
        out,
        &port.name.text,
        port.name.pos,
        What::Port(port.dir),
    )
}

fn add_function(
    alloc: Global,
    out: &mut List<Mark>,
    k: u32,
    function: &FuncItem,
) -> Result<(), Memory>
    ensures { OnOk result (out.new ≡ out.old ++ listed.of_function k function.now) }
{
    add_declaration(
        alloc,
        out,
        &function.name.text,
        function.name.pos,
        What::Func(k),
    )?;
    out.push(Mark::Opens)?;
    params(alloc, out, function.params.as_slice())?;
    body(alloc, out, &function.body)?;
    out.push(Mark::Closes)
}

fn params(alloc: Global, out: &mut List<Mark>, params: &[Param]) -> Result<(), Memory>
    ensures { OnOk result (out.new ≡ out.old ++ names.each names.of_param params.now) }
{
    for p in params {
        add_declaration(alloc, out, &p.name.text, p.name.pos, what_of_param(&p.kind))?;
    }
    Ok(())
}

/// What a parameter is declared as.
fn what_of_param(kind: &ParamKind) -> What
    ensures { result ≡ names.what_of_param kind.now }
{
    match kind {
        ParamKind::Value(is_unsigned) => What::Word(*is_unsigned),
        ParamKind::Ref(is_unsigned) => What::Ref(*is_unsigned),
        ParamKind::Array(is_unsigned, None) => What::ArrayParam(*is_unsigned, None),
        ParamKind::Array(is_unsigned, Some((length, _))) => {
            What::ArrayParam(*is_unsigned, Some(*length))
        }
        ParamKind::End(is_streaming) => What::End(*is_streaming),
        ParamKind::Port(dir) => What::PortParam(*dir),
    }
}

/// Adds the names of a function's block, whose scope is that of its parameters.
fn body(alloc: Global, out: &mut List<Mark>, s: &Stmt) -> Result<(), Memory>
    ensures { OnOk result (out.new ≡ out.old ++ names.of_body (tree.statement_of s.now)) }
{
    match &*s.kind {
        St::Block(ss) => statements(alloc, out, ss.as_slice()),
        _ => statement(alloc, out, s),
    }
}

/// Adds the names of an expression.
#[cycle(expression)]
fn expression(alloc: Global, out: &mut List<Mark>, e: &Expr) -> Result<(), Memory>
    ensures { OnOk result (out.new ≡ out.old ++ names.of_expression (tree.expression_of e.now)) }
{
    match &e.kind {
        Ex::Num(_, _) => Ok(()),
        Ex::Name(text) => add_use(alloc, out, text, e.pos),
        Ex::Index(text, index) => {
            add_use(alloc, out, text, e.pos)?;
            expression(alloc, out, index)
        }
        Ex::Un(_, operand) => expression(alloc, out, operand),
        Ex::Bin(_, left, right) => {
            expression(alloc, out, left)?;
            expression(alloc, out, right)
        }
        Ex::Cond(test, first, second) => {
            expression(alloc, out, test)?;
            expression(alloc, out, first)?;
            expression(alloc, out, second)
        }
        Ex::Cast(_, operand) => expression(alloc, out, operand),
    }
}

/// Adds a name that is used.
fn add_use(alloc: Global, out: &mut List<Mark>, text: &Text, pos: Pos) -> Result<(), Memory>
    ensures { OnOk result (out.new ≡ out.old ++ names.uses text.now pos ∷ []) }
{
    let text = text.copy(alloc)?;
    out.push(Mark::Uses(Id { text, pos }))?;
    Ok(())
}

/// Adds a name that is called.
fn add_call(alloc: Global, out: &mut List<Mark>, text: &Text, pos: Pos) -> Result<(), Memory>
    ensures { OnOk result (out.new ≡ out.old ++ listed.called text.now pos ∷ []) }
{
    let text = text.copy(alloc)?;
    out.push(Mark::Calls(Id { text, pos }))?;
    Ok(())
}

/// Adds a name that is declared.
fn add_declaration(
    alloc: Global,
    out: &mut List<Mark>,
    text: &Text,
    pos: Pos,
    what: What,
) -> Result<(), Memory>
    ensures { OnOk result (out.new ≡ out.old ++ listed.declared text.now pos what ∷ []) }
{
    let text = text.copy(alloc)?;
    out.push(Mark::Declares(Decl {
        name: Id { text, pos },
        what,
    }))?;
    Ok(())
}

/// Adds the names of a call.
fn call(
    alloc: Global,
    out: &mut List<Mark>,
    name: &Text,
    pos: Pos,
    args: &List<Arg>,
) -> Result<(), Memory>
    ensures { OnOk result (out.new ≡ out.old ++ listed.of_call name.now pos args.now) }
{
    add_call(alloc, out, name, pos)?;
    arguments(alloc, out, args.as_slice())
}

fn arguments(alloc: Global, out: &mut List<Mark>, args: &[Arg]) -> Result<(), Memory>
    ensures { OnOk result (out.new ≡ out.old ++ listed.of_arguments args.now) }
{
    for arg in args {
        expression(alloc, out, &arg.value)?;
    }
    Ok(())
}

/// Adds the names of what stands at the right of an `=`.
fn right_side(alloc: Global, out: &mut List<Mark>, rhs: &Rhs) -> Result<(), Memory>
    ensures { OnOk result (out.new ≡ out.old ++ names.of_right (tree.right_of rhs.now)) }
{
    match rhs {
        Rhs::Value(value) => expression(alloc, out, value),
        Rhs::Call { name, pos, args } => call(alloc, out, name, *pos, args),
    }
}

fn right_side_if_any(alloc: Global, out: &mut List<Mark>, rhs: &Option<Rhs>) -> Result<(), Memory>
    ensures { OnOk result (out.new ≡ out.old ++ listed.of_right_if_any rhs.now) }
{
    match rhs {
        None => Ok(()),
        Some(rhs) => right_side(alloc, out, rhs),
    }
}

fn expression_if_any(alloc: Global, out: &mut List<Mark>, e: &Option<Expr>) -> Result<(), Memory>
    ensures { OnOk result (out.new ≡ out.old ++ listed.of_expression_if_any e.now) }
{
    match e {
        None => Ok(()),
        Some(e) => expression(alloc, out, e),
    }
}

/// Adds the names of a time or a stamp.
fn timing(alloc: Global, out: &mut List<Mark>, time: &Option<Timed>) -> Result<(), Memory>
    ensures { OnOk result (out.new ≡ out.old ++ listed.of_timing time.now) }
{
    match time {
        None => Ok(()),
        Some(time) => expression(alloc, out, &time.value),
    }
}

fn condition(alloc: Global, out: &mut List<Mark>, cond: &Option<When>) -> Result<(), Memory>
    ensures { OnOk result (out.new ≡ out.old ++ listed.of_condition cond.now) }
{
    match cond {
        None => Ok(()),
        Some(cond) => expression(alloc, out, &cond.value),
    }
}

fn output(alloc: Global, out: &mut List<Mark>, send: &Send) -> Result<(), Memory>
    ensures { OnOk result (out.new ≡ out.old ++ names.of_output (tree.output_of send.now)) }
{
    add_use(alloc, out, &send.name, send.pos)?;
    timing(alloc, out, &send.time)?;
    expression(alloc, out, &send.value)?;
    timing(alloc, out, &send.stamp)
}

/// Adds the names of where an input goes, one of which may be declared there.
fn target(alloc: Global, out: &mut List<Mark>, dest: &Dest) -> Result<(), Memory>
    ensures { OnOk result (out.new ≡ out.old ++ names.of_target (tree.target_of dest.now)) }
{
    match dest {
        Dest::To(e) => expression(alloc, out, e),
        Dest::Drop => Ok(()),
        Dest::Fresh(is_unsigned, text, pos) => {
            add_declaration(alloc, out, text, *pos, What::Word(*is_unsigned))
        }
    }
}

fn input(alloc: Global, out: &mut List<Mark>, head: &Head) -> Result<(), Memory>
    ensures { OnOk result (out.new ≡ out.old ++ names.of_input (tree.input_of head.now)) }
{
    add_use(alloc, out, &head.name, head.pos)?;
    timing(alloc, out, &head.time)?;
    condition(alloc, out, &head.cond)?;
    target(alloc, out, &head.dest)?;
    timing(alloc, out, &head.stamp)
}

fn input_if_any(alloc: Global, out: &mut List<Mark>, head: &Option<Head>) -> Result<(), Memory>
    ensures { OnOk result (out.new ≡ out.old ++ listed.of_input_if_any head.now) }
{
    match head {
        None => Ok(()),
        Some(head) => input(alloc, out, head),
    }
}

/// What a declaration declares a name as.
fn what_of(kind: &DeclKind) -> What
    ensures { result ≡ names.what_of (tree.kind_of kind.now) }
{
    match kind {
        DeclKind::Word(is_unsigned, _) => What::Word(*is_unsigned),
        DeclKind::Array(is_unsigned, length, _) => What::Array(*is_unsigned, *length),
        DeclKind::Chan(is_streaming) => What::Chan(*is_streaming),
        DeclKind::Timer => What::Timer,
    }
}

/// Adds the names of an initial value.
fn initial(alloc: Global, out: &mut List<Mark>, kind: &DeclKind) -> Result<(), Memory>
    ensures { OnOk result (out.new ≡ out.old ++ names.of_initial (tree.kind_of kind.now)) }
{
    match kind {
        DeclKind::Word(_, rhs) => right_side_if_any(alloc, out, rhs),
        DeclKind::Array(_, _, _) => Ok(()),
        DeclKind::Chan(_) => Ok(()),
        DeclKind::Timer => Ok(()),
    }
}

fn declarations(alloc: Global, out: &mut List<Mark>, declared: &[Declared]) -> Result<(), Memory>
    ensures { OnOk result (out.new ≡ out.old ++ listed.of_declarations declared.now) }
{
    for d in declared {
        add_declaration(alloc, out, &d.name.text, d.name.pos, what_of(&d.kind))?;
        initial(alloc, out, &d.kind)?;
    }
    Ok(())
}

fn place(alloc: Global, out: &mut List<Mark>, place: &Option<At>) -> Result<(), Memory>
    ensures { OnOk result (out.new ≡ out.old ++ listed.of_place place.now) }
{
    match place {
        None => Ok(()),
        Some(place) => expression(alloc, out, &place.value),
    }
}

/// Adds the names of a statement.
#[cycle(statement)]
fn statement(alloc: Global, out: &mut List<Mark>, s: &Stmt) -> Result<(), Memory>
    ensures { OnOk result (out.new ≡ out.old ++ names.of_statement (tree.statement_of s.now)) }
{
    match &*s.kind {
        St::Empty => Ok(()),
        St::Block(ss) => scope(alloc, out, ss.as_slice()),
        St::Decl(ds) => declarations(alloc, out, ds.as_slice()),
        St::Assign(lval, _, _, rhs) => {
            expression(alloc, out, lval)?;
            right_side(alloc, out, rhs)
        }
        St::Step(lval, _) => expression(alloc, out, lval),
        St::Do(rhs) => right_side(alloc, out, rhs),
        St::Output(send) => output(alloc, out, send),
        St::Input(head) => input(alloc, out, head),
        St::If(test, then, otherwise) => {
            expression(alloc, out, test)?;
            statement(alloc, out, then)?;
            statement_if_any(alloc, out, otherwise)
        }
        St::While(test, body) => {
            expression(alloc, out, test)?;
            statement(alloc, out, body)
        }
        St::DoWhile(body, test) => {
            statement(alloc, out, body)?;
            expression(alloc, out, test)
        }
        St::For(first, test, step, body) => {
            out.push(Mark::Opens)?;
            statement_if_any(alloc, out, first)?;
            expression_if_any(alloc, out, test)?;
            statement_if_any(alloc, out, step)?;
            statement(alloc, out, body)?;
            out.push(Mark::Closes)
        }
        St::Return(rhs) => right_side_if_any(alloc, out, rhs),
        St::Break => Ok(()),
        St::Continue => Ok(()),
        St::Par(bs) => branches(alloc, out, bs.as_slice()),
        St::Repl {
            first,
            second,
            third,
            from: _,
            to: _,
            body,
        } => {
            out.push(Mark::Opens)?;
            add_declaration(alloc, out, &first.text, first.pos, What::Index)?;
            add_use(alloc, out, &second.text, second.pos)?;
            add_use(alloc, out, &third.text, third.pos)?;
            branch(alloc, out, body)?;
            out.push(Mark::Closes)
        }
        St::Select(cs) => cases(alloc, out, cs.as_slice()),
        St::Tran(_, ss) => scope(alloc, out, ss.as_slice()),
    }
}

#[cycle(statement)]
fn statement_if_any(alloc: Global, out: &mut List<Mark>, s: &Option<Stmt>) -> Result<(), Memory>
    ensures { OnOk result (out.new ≡ out.old ++ names.of_maybe (tree.maybe_of s.now)) }
{
    match s {
        None => Ok(()),
        Some(s) => statement(alloc, out, s),
    }
}

/// Adds the names of statements in a scope of their own.
#[cycle(statement)]
fn scope(alloc: Global, out: &mut List<Mark>, ss: &[Stmt]) -> Result<(), Memory>
    ensures { OnOk result (out.new ≡ out.old ++ names.in_scope (listed.of_statements ss.now)) }
{
    out.push(Mark::Opens)?;
    statements(alloc, out, ss)?;
    out.push(Mark::Closes)
}

#[cycle(statement)]
fn statements(alloc: Global, out: &mut List<Mark>, ss: &[Stmt]) -> Result<(), Memory>
    ensures { OnOk result (out.new ≡ out.old ++ listed.of_statements ss.now) }
{
    for s in ss {
        statement(alloc, out, s)?;
    }
    Ok(())
}

#[cycle(statement)]
fn branch(alloc: Global, out: &mut List<Mark>, b: &Branch) -> Result<(), Memory>
    ensures { OnOk result (out.new ≡ out.old ++ names.of_branch (tree.branch_of b.now)) }
{
    place(alloc, out, &b.place)?;
    statement(alloc, out, &b.body)
}

#[cycle(statement)]
fn branches(alloc: Global, out: &mut List<Mark>, bs: &[Branch]) -> Result<(), Memory>
    ensures { OnOk result (out.new ≡ out.old ++ listed.of_branches bs.now) }
{
    for b in bs {
        branch(alloc, out, b)?;
    }
    Ok(())
}

#[cycle(statement)]
fn case(alloc: Global, out: &mut List<Mark>, c: &Case) -> Result<(), Memory>
    ensures { OnOk result (out.new ≡ out.old ++ names.of_case (tree.case_of c.now)) }
{
    out.push(Mark::Opens)?;
    expression_if_any(alloc, out, &c.guard)?;
    input_if_any(alloc, out, &c.head)?;
    statements(alloc, out, c.body.as_slice())?;
    out.push(Mark::Closes)
}

#[cycle(statement)]
fn cases(alloc: Global, out: &mut List<Mark>, cs: &[Case]) -> Result<(), Memory>
    ensures { OnOk result (out.new ≡ out.old ++ listed.of_cases cs.now) }
{
    for c in cs {
        case(alloc, out, c)?;
    }
    Ok(())
}
