//! Statements, and those that hold others.

ghost use Rattle.std.specs.Prelude.{◌≡◌, ◌-◌, IfOk, map};
ghost use Rattle.xc_tree.specs.Trees as tree;
ghost use Rattle.xc_tree.specs.Plain as plain;
ghost use Rattle.xc_kernel.specs.Context as contexts;
ghost use Rattle.xc_kernel.specs.Copy as copies;
ghost use Rattle.xc_kernel.specs.Flow as flow;
ghost use Rattle.xc_kernel.specs.Statements as spec;
ghost use Rattle.xc_inline.specs.Contexts.{context_of};
ghost use Rattle.xc_inline.specs.Copied.{copy_of};
ghost use Rattle.xc_inline.specs.Scopes.{scope_of};

use crate::context::Context;
use crate::copied::Copied;
use crate::expressions::word;
use crate::flow::if_copy;
use crate::scope::Scope;
use std::alloc::Global;
use xc_kernel::Kst;
use xc_tree::{Expr, St, Stmt};
use xw_words::allocation::with_ok;
use xw_words::{Memory, Pos};

// Calls are copied at most `calls` deep.
impl<'p, 'a> Context<'p, 'a> {
    /// The copy of a statement. The one error is want of memory.
    #[cycle(statement)]
    pub fn statement(
        &self,
        alloc: Global,
        calls: usize,
        s: &'a Stmt,
        scope: &mut Scope<'a>,
    ) -> Result<Copied, Memory>
        ensures { IfOk result (λ copied. copy_of copied (scope_of scope.new)
            ≡ spec.statement_copy (spec.calls_copy calls) (tree.statement_of s.now)
            (context_of self.now) (scope_of scope.old)) }
    {
        match &*s.kind {
            St::Empty => Ok(Copied::nothing(alloc)),
            St::Block(ss) => self.block(alloc, calls, ss.as_slice(), scope),
            St::Decl(ds) => self.declarations(alloc, calls, ds.as_slice(), scope),
            St::Assign(to, symbol, pos, right) => {
                self.assign(alloc, calls, to, *symbol, *pos, right, scope)
            }
            St::Step(to, symbol) => self.step(alloc, to, *symbol, s.pos, scope),
            St::Do(right) => self.right(alloc, calls, right, scope),
            St::Output(o) => self.output(alloc, scope, o),
            St::Input(i) => self.input(alloc, scope, i),
            St::If(test, first, second) => { self.choice(alloc, calls, test, first, second, scope) }
            St::While(test, body) => self.while_loop(alloc, calls, s.pos, test, body, scope),
            St::DoWhile(body, test) => self.do_while(alloc, calls, s.pos, body, test, scope),
            St::For(first, test, next, body) => {
                self.for_loop(alloc, calls, s.pos, first, test, next, body, scope)
            }
            St::Return(right) => self.return_with(alloc, calls, right, scope),
            St::Break => self.leaves(alloc, self.breaks, scope),
            St::Continue => self.leaves(alloc, self.continues, scope),
            St::Par(bs) => self.par(alloc, calls, bs.as_slice(), scope),
            St::Repl {
                first,
                from,
                to,
                body,
                ..
            } => self.replicated(alloc, calls, first, *from, *to, body, scope),
            St::Select(cs) => self.select(alloc, calls, s.pos, cs.as_slice(), scope),
            St::Tran(master, ss) => {
                self.transaction(alloc, calls, *master, ss.as_slice(), s.pos, s.close, scope)
            }
        }
    }

    /// The copy of a statement that may be absent.
    #[inline(never)]
    #[cycle(statement)]
    pub fn maybe(
        &self,
        alloc: Global,
        calls: usize,
        s: &'a Option<Stmt>,
        scope: &mut Scope<'a>,
    ) -> Result<Copied, Memory>
        ensures { IfOk result (λ copied. copy_of copied (scope_of scope.new)
            ≡ spec.maybe_copy (spec.calls_copy calls) (tree.maybe_of s.now)
            (context_of self.now) (scope_of scope.old)) }
    {
        match s {
            None => Ok(Copied::nothing(alloc)),
            Some(s) => self.statement(alloc, calls, s, scope),
        }
    }

    /// The copy of statements, one behind the other.
    #[cycle(statement)]
    pub fn statements(
        &self,
        alloc: Global,
        calls: usize,
        ss: &'a [Stmt],
        scope: &mut Scope<'a>,
    ) -> Result<Copied, Memory>
        ensures { IfOk result (λ copied. copy_of copied (scope_of scope.new) ≡ spec.statements_copy
            (spec.calls_copy calls) (plain.statements (map tree.statement_of ss.now))
            (context_of self.now) (scope_of scope.old)) }
    {
        let mut copied = Copied::nothing(alloc);
        for s in ss {
            let next = self.statement(alloc, calls, s, scope);
            copied = copied.with_next(next)?;
        }
        Ok(copied)
    }

    /// The copy of a block, which is a scope.
    #[inline(never)]
    #[cycle(statement)]
    pub fn block(
        &self,
        alloc: Global,
        calls: usize,
        ss: &'a [Stmt],
        scope: &mut Scope<'a>,
    ) -> Result<Copied, Memory>
        ensures { IfOk result (λ copied. copy_of copied (scope_of scope.new) ≡ copies.in_scope_of
            (scope_of scope.old) (spec.statements_copy (spec.calls_copy calls) (plain.statements
            (map tree.statement_of ss.now)) (context_of self.now) (scope_of scope.old))) }
    {
        let known = scope.len();
        let copied = self.statements(alloc, calls, ss, scope)?;
        scope.leave(known);
        Ok(copied)
    }

    /// The copy of `if`.
    #[inline(never)]
    #[cycle(statement)]
    pub fn choice(
        &self,
        alloc: Global,
        calls: usize,
        test: &Expr,
        first: &'a Stmt,
        second: &'a Option<Stmt>,
        scope: &mut Scope<'a>,
    ) -> Result<Copied, Memory>
        ensures { IfOk result (λ copied. copy_of copied (scope_of scope.new) ≡ flow.if_parts
            (contexts.expression (context_of self.now) (scope_of scope.old) (tree.expression_of
            test.now)) (spec.statement_copy (spec.calls_copy calls) (tree.statement_of
            first.now) (context_of self.now) (scope_of scope.old)) (spec.maybe_copy
            (spec.calls_copy calls) (tree.maybe_of second.now) (context_of self.now))) }
    {
        let test = word(alloc, self.numbers, scope, test)?;
        let first = self.statement(alloc, calls, first, scope);
        let (test, first) = with_ok(test, first)?;
        let second = self.maybe(alloc, calls, second, scope);
        if_copy(alloc, test.value, first, second)
    }

    /// The copy of a transaction, on the one channel that its communications name.
    #[inline(never)]
    #[cycle(statement)]
    pub fn transaction(
        &self,
        alloc: Global,
        calls: usize,
        master: bool,
        ss: &'a [Stmt],
        start: Pos,
        close: Pos,
        scope: &mut Scope<'a>,
    ) -> Result<Copied, Memory>
        ensures { IfOk result (λ copied. copy_of copied (scope_of scope.new) ≡ flow.transaction_copy
            (context_of self.now) (scope_of scope.old) master start close (spec.statements_copy
            (spec.calls_copy calls) (plain.statements (map tree.statement_of ss.now))
            (context_of self.now) (scope_of scope.old))) }
    {
        let known = scope.len();
        let mut inside = self.statements(alloc, calls, ss, scope)?;
        scope.leave(known);
        let chan = self.numbers.channel(inside.first_named());
        let body = inside.take_code(alloc);
        inside.and_statement(Kst::Tran {
            chan,
            master,
            body,
            open_at: start,
            close_at: close,
        })
    }
}
