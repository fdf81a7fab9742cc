//! Loops, each in two blocks: one that `break` leaves, and in it one that `continue` leaves.
//!
//! What is put together once the walk has come back is no step of the walk, and stands out of line: a chain of calls holds the
//! frames of all its steps at once, so they are to be small.

ghost use Rattle.std.specs.Prelude.{◌≡◌, ◌-◌, IfOk, option_map, [], ◌∷◌};
ghost use Rattle.xc_tree.specs.Trees as tree;
ghost use Rattle.xc_kernel.specs.Context as contexts;
ghost use Rattle.xc_kernel.specs.Copy as copies;
ghost use Rattle.xc_kernel.specs.Flow as flow;
ghost use Rattle.xc_kernel.specs.Paths as paths;
ghost use Rattle.xc_kernel.specs.Statements as spec;
ghost use Rattle.xc_inline.specs.Contexts.{context_of};
ghost use Rattle.xc_inline.specs.Copied.{copy_of};
ghost use Rattle.xc_inline.specs.Scopes.{scope_of};
ghost use Rattle.xc_kernel.specs.Kernels as kernel;
ghost use Rattle.xc_kernel.specs.Scopes.{Scope as Names};
ghost use Rattle.xc_kernel.specs.Plain as kernel_plain;
ghost use Rattle.xc_kernel.specs.Paths.{path_of_turn as turn_of};

use crate::context::Context;
use crate::copied::Copied;
use crate::expressions::{place, word};
use crate::flow::LoopPaths;
use crate::paths::{path_at, path_of_turn};
use crate::scope::Scope;
use std::alloc::Global;
use xc_kernel::Kx;
use xc_tree::{Expr, Stmt};
use xw_words::allocation::{with_ok, zip_ok};
use xw_words::{Memory, Pos};

// Calls are copied at most `calls` deep.
impl<'p, 'a> Context<'p, 'a> {
    /// The copy of `while`, whose word stands at a place.
    #[inline(never)]
    #[cycle(statement)]
    pub fn while_loop(
        &self,
        alloc: Global,
        calls: usize,
        pos: Pos,
        test: &Expr,
        body: &'a Stmt,
        scope: &mut Scope<'a>,
    ) -> Result<Copied, Memory>
        ensures { IfOk result (λ copied. copy_of copied (scope_of scope.new)
            ≡ flow.while_copy (context_of self.now) pos (contexts.expression
            (context_of self.now) (scope_of scope.old) (tree.expression_of test.now))
            (spec.statement_copy (spec.calls_copy calls) (tree.statement_of body.now)
            (contexts.in_loop (context_of self.now) pos) (scope_of scope.old))) }
    {
        let paths = self.loop_paths(alloc, pos);
        let test = word(alloc, self.numbers, scope, test);
        let (paths, test) = zip_ok(paths, test)?;
        let body = (&*self)
            .in_loop(paths.whole.as_slice(), paths.turn.as_slice())
            .statement(alloc, calls, body, scope);
        let next = Copied::nothing(alloc);
        self.looped(alloc, paths, test.value, next, body)
    }

    /// The copy of `do`, whose word stands at a place.
    #[inline(never)]
    #[cycle(statement)]
    pub fn do_while(
        &self,
        alloc: Global,
        calls: usize,
        pos: Pos,
        body: &'a Stmt,
        test: &Expr,
        scope: &mut Scope<'a>,
    ) -> Result<Copied, Memory>
        ensures { IfOk result (λ copied. copy_of copied (scope_of scope.new)
            ≡ flow.do_while_copy (context_of self.now) pos (tree.expression_of test.now)
            (spec.statement_copy (spec.calls_copy calls) (tree.statement_of body.now)
            (contexts.in_loop (context_of self.now) pos) (scope_of scope.old))) }
    {
        let paths = self.loop_paths(alloc, pos)?;
        let body = (&*self)
            .in_loop(paths.whole.as_slice(), paths.turn.as_slice())
            .statement(alloc, calls, body, scope);
        self.looped_until(alloc, paths, body, test, scope)
    }

    /// The copy of `for`, whose word stands at a place, and which is a scope.
    #[inline(never)]
    #[cycle(statement)]
    pub fn for_loop(
        &self,
        alloc: Global,
        calls: usize,
        pos: Pos,
        first: &'a Option<Stmt>,
        test: &Option<Expr>,
        next: &'a Option<Stmt>,
        body: &'a Stmt,
        scope: &mut Scope<'a>,
    ) -> Result<Copied, Memory>
        ensures { IfOk result (λ copied. copy_of copied (scope_of scope.new) ≡ copies.in_scope_of
            (scope_of scope.old) (copies.followed_by (spec.maybe_copy (spec.calls_copy calls)
            (tree.maybe_of first.now) (context_of self.now) (scope_of scope.old))
            (flow.for_parts (context_of self.now) pos (option_map tree.expression_of test.now)
            (spec.maybe_copy (spec.calls_copy calls) (tree.maybe_of next.now)
            (context_of self.now)) (spec.statement_copy (spec.calls_copy calls)
            (tree.statement_of body.now) (contexts.in_loop (context_of self.now) pos))))) }
    {
        let known = scope.len();
        let first = self.maybe(alloc, calls, first, scope)?;
        let turns = self.for_turns(alloc, calls, pos, test, next, body, scope);
        let copied = first.with_next(turns)?;
        scope.leave(known);
        Ok(copied)
    }

    /// The copy of the turns of a `for`, whose word stands at a place.
    #[inline(never)]
    #[cycle(statement)]
    pub fn for_turns(
        &self,
        alloc: Global,
        calls: usize,
        pos: Pos,
        test: &Option<Expr>,
        next: &'a Option<Stmt>,
        body: &'a Stmt,
        scope: &mut Scope<'a>,
    ) -> Result<Copied, Memory>
        ensures { IfOk result (λ copied. copy_of copied (scope_of scope.new) ≡ flow.for_parts
            (context_of self.now) pos (option_map tree.expression_of test.now) (spec.maybe_copy
            (spec.calls_copy calls) (tree.maybe_of next.now) (context_of self.now))
            (spec.statement_copy (spec.calls_copy calls) (tree.statement_of body.now)
            (contexts.in_loop (context_of self.now) pos)) (scope_of scope.old)) }
    {
        let known = scope.len();
        let paths = self.loop_paths(alloc, pos);
        let test = self.test_or_true(alloc, test, scope);
        let (paths, test) = zip_ok(paths, test)?;
        let next = self.maybe(alloc, calls, next, scope);
        let ((paths, test), next) = with_ok((paths, test), next)?;
        scope.leave(known);
        let body = (&*self)
            .in_loop(paths.whole.as_slice(), paths.turn.as_slice())
            .statement(alloc, calls, body, scope);
        self.looped(alloc, paths, test, next, body)
    }

    /// A loop of these paths by its test, what follows each turn, and its body, if that could be made. The one error is want of
    /// memory.
    #[inline(never)]
    pub fn looped(
        &self,
        alloc: Global,
        paths: LoopPaths,
        test: Kx,
        next: Copied,
        body: Result<Copied, Memory>,
    ) -> Result<Copied, Memory>
        requires { paths.turn ≡ turn_of paths.whole }
        ensures { IfOk result (λ copied. (between behind : Names) (done : copies.Copy) →
            IfOk body (λ b. copy_of b behind ≡ done) → copy_of copied behind
            ≡ flow.loop_at (context_of self.now) paths.whole (kernel.expression_of test)
            (flow.iteration (context_of self.now) paths.whole done.code [])
            (copies.code_of (copy_of next between)) (copies.joined (copy_of next between) done)) }
    {
        let (((paths, test), next), body) = with_ok(((paths, test), next), body)?;
        self.loop_at(alloc, paths, test, next, body, None)
    }

    /// A loop of these paths by its body, if that could be made, and the test behind each turn. The one error is want of memory.
    #[inline(never)]
    pub fn looped_until(
        &self,
        alloc: Global,
        paths: LoopPaths,
        body: Result<Copied, Memory>,
        test: &Expr,
        scope: &Scope<'a>,
    ) -> Result<Copied, Memory>
        requires { paths.turn ≡ turn_of paths.whole }
        ensures { IfOk result (λ copied. (done : copies.Copy) → IfOk body
            (λ b. copy_of b (scope_of scope.now) ≡ done) → copy_of copied (scope_of scope.now)
            ≡ flow.loop_at (context_of self.now) paths.whole (kernel_plain.number 1)
            (flow.iteration (context_of self.now) paths.whole done.code (flow.leave_unless
            (context_of self.now) paths.whole (contexts.expression (context_of self.now)
            done.scope (tree.expression_of test.now)) ∷ [])) kernel_plain.no_more done) }
    {
        let test = word(alloc, self.numbers, scope, test);
        let ends = zip_ok(body, test);
        let (paths, (body, test)) = with_ok(paths, ends)?;
        let last = self.leave_unless(alloc, paths.whole.as_slice(), test.value);
        let ((paths, body), last) = with_ok((paths, body), last)?;
        let next = Copied::nothing(alloc);
        self.loop_at(alloc, paths, Kx::Num(1), next, body, Some(last))
    }

    /// The test of a `for`, which holds for ever where there is none. The one error is want of memory.
    #[inline(never)]
    #[tactic(auto, using(crate::proofs::Laws::Expressions::words))]
    pub fn test_or_true(
        &self,
        alloc: Global,
        test: &Option<Expr>,
        scope: &Scope<'a>,
    ) -> Result<Kx, Memory>
        ensures { IfOk result (λ e. kernel.expression_of e
            ≡ flow.test_or_true (contexts.maybe_expression (context_of self.now)
            (scope_of scope.now) (option_map tree.expression_of test.now))) }
    {
        match test {
            None => Ok(Kx::Num(1)),
            Some(test) => Ok(word(alloc, self.numbers, scope, test)?.value),
        }
    }

    /// The paths of a loop whose word stands at a place. The one error is want of memory.
    #[inline(never)]
    pub fn loop_paths(&self, alloc: Global, pos: Pos) -> Result<LoopPaths, Memory>
        ensures whole { IfOk result (λ r. r.whole ≡ paths.path_at self.now.path.now pos) }
        ensures turn { IfOk result
            (λ r. r.turn ≡ paths.path_of_turn (paths.path_at self.now.path.now pos)) }
    {
        let whole = path_at(alloc, self.path, pos)?;
        let turn = path_of_turn(alloc, whole.as_slice())?;
        Ok(LoopPaths { whole, turn })
    }
}
