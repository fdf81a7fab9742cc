use super::items::put_id;
use super::{put_expr, put_name, put_pos, put_rhs, type_word};
use crate::shown::page::Page;
use crate::shown::spelled::{symbol, word};
use xc_tree::{At, Branch, Case, DeclKind, Declared, Dest, Expr, Head, Rhs, Send, St, Stmt, Timed};

/// A time or a stamp: its word, the place of its `@`, and its expression.
fn put_timed(page: &mut Page, name: &str, timed: &Option<Timed>) {
    if let Some(t) = timed {
        put_pos(page, name, t.at);
        put_expr(page, " ", &t.value);
    }
}

fn put_output(page: &mut Page, output: &Send) {
    put_name(page, "output ", output.name.as_slice(), output.pos);
    put_timed(page, " time:", &output.time);
    put_expr(page, " ", &output.value);
    put_timed(page, " stamp:", &output.stamp);
}

fn put_dest(page: &mut Page, dest: &Dest) {
    match dest {
        Dest::To(e) => put_expr(page, " ", e),
        Dest::Drop => page.put(" void"),
        Dest::Fresh(is_unsigned, name, pos) => {
            let before = if *is_unsigned { " unsigned " } else { " int " };
            put_name(page, before, name.as_slice(), *pos);
        }
    }
}

fn put_input(page: &mut Page, input: &Head) {
    put_name(page, "input ", input.name.as_slice(), input.pos);
    put_timed(page, " time:", &input.time);
    if let Some(when) = &input.cond {
        put_pos(page, " when:", when.at);
        page.put(" ");
        page.bytes(word(when.test));
        put_expr(page, " ", &when.value);
    }
    put_dest(page, &input.dest);
    put_timed(page, " stamp:", &input.stamp);
}

fn put_declared(page: &mut Page, declared: &Declared) {
    page.put(match &declared.kind {
        DeclKind::Word(true, _) | DeclKind::Array(true, ..) => " unsigned ",
        DeclKind::Word(false, _) | DeclKind::Array(false, ..) => " int ",
        DeclKind::Chan(true) => " streaming ",
        DeclKind::Chan(false) => " chan ",
        DeclKind::Timer => " timer ",
    });
    put_id(page, "", &declared.name);
    match &declared.kind {
        DeclKind::Word(_, Some(right)) => put_rhs(page, " = ", right),
        DeclKind::Array(_, length, pos) => {
            page.numbered("[", *length);
            put_pos(page, ":", *pos);
            page.put("]");
        }
        _ => {}
    }
}

/// A place, if there is one: the place of its `on`, its expression, and the place of that one's first token.
pub fn put_place(page: &mut Page, place: &Option<At>) {
    if let Some(p) = place {
        put_pos(page, "on:", p.on);
        put_expr(page, " ", &p.value);
        put_pos(page, " from ", p.first);
        page.put(" ");
    }
}

#[cycle(put_statement)]
fn put_branch(page: &mut Page, branch: &Branch) {
    page.put(" ");
    put_place(page, &branch.place);
    put_statement(page, "", &branch.body);
}

#[cycle(put_statement)]
fn put_case(page: &mut Page, case: &Case) {
    put_pos(page, " case:", case.pos);
    if let Some(guard) = &case.guard {
        put_expr(page, " if ", guard);
    }
    if let Some(input) = &case.head {
        page.put(" ");
        put_input(page, input);
    }
    put_all(page, " :", case.body.as_slice());
}

/// A statement as `[first-last/own what it is]`.
#[cycle(put_statement)]
pub fn put_statement(page: &mut Page, before: &str, s: &Stmt) {
    page.put(before);
    put_pos(page, "[", s.pos);
    put_pos(page, "-", s.close);
    page.numbered("/", s.own);
    page.put(" ");
    put_action(page, &s.kind);
    page.put("]");
}

#[cycle(put_statement)]
fn put_all(page: &mut Page, name: &str, statements: &[Stmt]) {
    page.put(name);
    for s in statements {
        put_statement(page, " ", s);
    }
}

/// A part that may be lacking.
#[cycle(put_statement)]
fn put_maybe(page: &mut Page, statement: &Option<Stmt>) {
    match statement {
        None => page.put(" _"),
        Some(s) => put_statement(page, " ", s),
    }
}

#[cycle(put_statement)]
fn put_branches(page: &mut Page, branches: &[Branch]) {
    page.put("par");
    for branch in branches {
        put_branch(page, branch);
    }
}

#[cycle(put_statement)]
fn put_cases(page: &mut Page, cases: &[Case]) {
    page.put("select");
    for case in cases {
        put_case(page, case);
    }
}

/// A replicated `par`: its word and what stands between its brackets.
fn put_repeated(page: &mut Page, action: &St) {
    if let St::Repl {
        first,
        second,
        third,
        from,
        to,
        ..
    } = action
    {
        put_id(page, "par ", first);
        page.numbered(" = ", *from);
        put_id(page, " ", second);
        page.numbered(" < ", *to);
        put_id(page, " ", third);
    }
}

fn put_return(page: &mut Page, right: &Option<Rhs>) {
    page.put("return");
    if let Some(r) = right {
        put_rhs(page, " ", r);
    }
}

fn put_declarations(page: &mut Page, declarations: &[Declared]) {
    page.put("declare");
    for declared in declarations {
        put_declared(page, declared);
    }
}

/// What a statement does that holds no other.
fn put_leaf(page: &mut Page, action: &St) {
    match action {
        St::Decl(ds) => put_declarations(page, ds.as_slice()),
        St::Assign(l, o, pos, r) => {
            put_expr(page, "", l);
            put_name(page, " ", symbol(*o), *pos);
            put_rhs(page, " ", r);
        }
        St::Step(l, o) => {
            put_expr(page, "", l);
            page.bytes(symbol(*o));
        }
        St::Do(r) => put_rhs(page, "", r),
        St::Output(o) => put_output(page, o),
        St::Input(i) => put_input(page, i),
        St::Return(r) => put_return(page, r),
        St::Break => page.put("break"),
        St::Continue => page.put("continue"),
        _ => page.put("empty"),
    }
}

/// A test that may be lacking.
fn put_maybe_test(page: &mut Page, test: &Option<Expr>) {
    match test {
        None => page.put(" _"),
        Some(e) => put_expr(page, " ", e),
    }
}

#[cycle(put_statement)]
fn put_action(page: &mut Page, action: &St) {
    match action {
        St::Block(ss) => put_all(page, "block", ss.as_slice()),
        St::If(c, s, o) => {
            put_expr(page, "if ", c);
            put_statement(page, " ", s);
            put_maybe(page, o);
        }
        St::While(c, s) => {
            put_expr(page, "while ", c);
            put_statement(page, " ", s);
        }
        St::DoWhile(s, c) => {
            put_statement(page, "do ", s);
            put_expr(page, " ", c);
        }
        St::For(a, c, b, s) => {
            page.put("for");
            put_maybe(page, a);
            put_maybe_test(page, c);
            put_maybe(page, b);
            put_statement(page, " ", s);
        }
        St::Par(bs) => put_branches(page, bs.as_slice()),
        St::Repl { body, .. } => {
            put_repeated(page, action);
            put_branch(page, body);
        }
        St::Select(cs) => put_cases(page, cs.as_slice()),
        St::Tran(true, ss) => put_all(page, "master", ss.as_slice()),
        St::Tran(false, ss) => put_all(page, "slave", ss.as_slice()),
        _ => put_leaf(page, action),
    }
}
