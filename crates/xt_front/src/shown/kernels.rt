//! A kernel as text: its roots, then its instances in the order of their numbers, a line each. Each part is put with what
//! stands before it.
//!
//! A place of the text is `@LINE:COL`, and a path the numbers that it is made of. `v3` is the word of variable 3, and
//! `a3@LINE:COL[i]` an element of it; an operator stands before its operands, with a `u` where it is that of `unsigned` words.

use crate::shown::page::Page;
use crate::shown::spelled::{symbol, word};
use xc_kernel::{KBranch, KCase, KHead, KOut, KRes, KSelect, Kernel, Kst, Kx, Place, Root};
use xc_tree::TreeDir;
use xw_words::Pos;

/// Puts a kernel.
pub fn put_kernel(page: &mut Page, kernel: &Kernel) {
    put_roots(page, kernel);
    put_variables(page, kernel);
    put_channels(page, kernel);
    put_timers(page, kernel);
    put_ports(page, kernel);
    put_instances(page, kernel);
    page.put("main ");
    put_pos(page, kernel.main);
}

fn put_pos(page: &mut Page, pos: Pos) {
    page.put("@");
    page.place(pos);
}

/// The rest of a line: the path of what is declared, and the place of its name.
fn put_declared(page: &mut Page, path: &[u32], pos: Pos) {
    for n in path {
        page.numbered("/", *n);
    }
    put_pos(page, pos);
    page.put("\n");
}

fn put_roots(page: &mut Page, kernel: &Kernel) {
    for root in kernel.roots.as_slice() {
        put_root(page, root);
    }
}

fn put_root(page: &mut Page, root: &Root) {
    page.numbered("root ", u32::from(root.core));
    put_pos(page, root.place);
    put_code(page, " ", root.body.as_slice());
    put_pos(page, root.pos);
    page.put("\n");
}

fn put_variables(page: &mut Page, kernel: &Kernel) {
    for v in kernel.vars.as_slice() {
        page.numbered(if v.array { "array " } else { "word " }, v.words);
        let core = if v.counted { " " } else { " uncounted " };
        page.numbered(core, u32::from(v.core));
        page.put(" ");
        put_declared(page, v.path.as_slice(), v.pos);
    }
}

fn put_channels(page: &mut Page, kernel: &Kernel) {
    for c in kernel.chans.as_slice() {
        page.put(if c.streaming { "streaming " } else { "chan " });
        put_declared(page, c.path.as_slice(), c.pos);
    }
}

fn put_timers(page: &mut Page, kernel: &Kernel) {
    for t in kernel.timers.as_slice() {
        page.numbered("timer ", u32::from(t.core));
        page.put(" ");
        put_declared(page, t.path.as_slice(), t.pos);
    }
}

fn put_ports(page: &mut Page, kernel: &Kernel) {
    for p in kernel.ports.as_slice() {
        page.numbered("port ", u32::from(p.id));
        let core = match p.dir {
            TreeDir::In => " in ",
            TreeDir::Out => " out ",
            TreeDir::Both => " both ",
        };
        page.numbered(core, u32::from(p.core));
        put_pos(page, p.place);
        put_pos(page, p.pos);
        page.put("\n");
    }
}

/// The core of each instance of a function, and how many parameters it has.
fn put_instances(page: &mut Page, kernel: &Kernel) {
    page.put("instances");
    for i in kernel.insts.as_slice() {
        page.numbered(" ", u32::from(i.core));
        page.numbered(":", i.params);
    }
    page.put("\n");
}

#[cycle(printed_word)]
fn put_word(page: &mut Page, before: &str, e: &Kx) {
    page.put(before);
    match e {
        Kx::Num(n) => page.number(*n),
        Kx::Read(place) => put_place(page, "", place),
        Kx::Op(place, unsigned, operands, pos) => {
            page.put("(");
            page.bytes(symbol(*place));
            page.put(if *unsigned { "u" } else { "" });
            put_pos(page, *pos);
            for operand in operands.as_slice() {
                put_word(page, " ", operand);
            }
            page.put(")");
        }
    }
}

#[cycle(printed_word)]
fn put_place(page: &mut Page, before: &str, place: &Place) {
    page.put(before);
    match place {
        Place::Word(n) => page.numbered("v", *n),
        Place::Elem(n, index, pos) => {
            page.numbered("a", *n);
            put_pos(page, *pos);
            put_word(page, "[", index);
            page.put("]");
        }
    }
}

fn put_resource(page: &mut Page, resource: KRes, pos: Pos) {
    match resource {
        KRes::Port(n) => page.numbered("port", n),
        KRes::Timer(n) => page.numbered("timer", n),
        KRes::Chan(n) => page.numbered("chan", n),
    }
    put_pos(page, pos);
}

/// A time, if there is one.
fn put_time(page: &mut Page, time: &Option<Kx>) {
    if let Some(time) = time {
        put_word(page, " @ ", time);
    }
}

/// A stamp, if there is one.
fn put_stamp(page: &mut Page, stamp: &Option<Place>) {
    if let Some(stamp) = stamp {
        put_place(page, " @ ", stamp);
    }
}

fn put_output(page: &mut Page, o: &KOut) {
    put_resource(page, o.res, o.pos);
    put_time(page, &o.time);
    put_word(page, " <: ", &o.value);
    put_stamp(page, &o.stamp);
}

fn put_input(page: &mut Page, h: &KHead) {
    put_resource(page, h.res, h.pos);
    put_time(page, &h.time);
    if let Some(cond) = &h.cond {
        page.put(" when ");
        page.bytes(word(cond.0));
        put_word(page, " ", &cond.1);
    }
    page.put(" :>");
    if let Some(dest) = &h.dest {
        put_place(page, " ", dest);
    }
    put_stamp(page, &h.stamp);
}

#[cycle(printed_statement)]
fn put_code(page: &mut Page, before: &str, code: &[Kst]) {
    page.put(before);
    page.put("{");
    for s in code {
        page.put(" ");
        put_statement(page, s);
        page.put(";");
    }
    page.put(" }");
}

#[cycle(printed_statement)]
fn put_statement(page: &mut Page, s: &Kst) {
    match s {
        Kst::Zero(n) => page.numbered("zero v", *n),
        Kst::Set(place, e) => {
            put_place(page, "", place);
            put_word(page, " = ", e);
        }
        Kst::Out(o) => put_output(page, o),
        Kst::In(h) => put_input(page, h),
        Kst::If(test, first, second) => {
            put_word(page, "if ", test);
            put_code(page, " ", first.as_slice());
            put_code(page, " else ", second.as_slice());
        }
        Kst::Loop(test, body, next) => {
            put_word(page, "loop ", test);
            put_code(page, " ", body.as_slice());
            put_code(page, " next ", next.as_slice());
        }
        Kst::Block(n, body) => {
            page.numbered("block ", *n);
            put_code(page, " ", body.as_slice());
        }
        Kst::Exit(n) => page.numbered("exit ", *n),
        Kst::Select(select) => put_select(page, select),
        Kst::Par(branches) => {
            page.put("par");
            for b in branches.as_slice() {
                put_branch(page, b);
            }
        }
        Kst::Tran {
            chan,
            master,
            body,
            open_at,
            close_at,
        } => {
            let side = if *master { "master chan" } else { "slave chan" };
            page.numbered(side, *chan);
            put_pos(page, *open_at);
            put_code(page, " ", body.as_slice());
            put_pos(page, *close_at);
        }
    }
}

#[cycle(printed_statement)]
fn put_select(page: &mut Page, select: &KSelect) {
    page.put("select");
    put_pos(page, select.pos);
    for case in select.cases.as_slice() {
        put_case(page, case);
    }
    if let Some(body) = &select.otherwise {
        put_code(page, " default ", body.as_slice());
    }
}

#[cycle(printed_statement)]
fn put_case(page: &mut Page, case: &KCase) {
    page.put(" case ");
    if let Some(guard) = &case.guard {
        put_word(page, "", guard);
        page.put(" => ");
    }
    put_input(page, &case.head);
    put_code(page, " ", case.body.as_slice());
}

#[cycle(printed_statement)]
fn put_branch(page: &mut Page, b: &KBranch) {
    put_code(page, " ", b.body.as_slice());
    put_pos(page, b.pos);
}
