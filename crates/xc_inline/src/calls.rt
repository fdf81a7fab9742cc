//! Calls: an instance of a function, with its result, its parameters and its body.
//!
//! What is put together once the walk has come back is no step of the walk, and stands out of line: a chain of calls holds the
//! frames of all its steps at once, so they are to be small.

ghost use Rattle.std.specs.Prelude.{◌≡◌, ◌<◌, ◌≤◌, ◌-◌, ◌^◌, IfOk, length, map, false};
ghost use Rattle.xc_tree.specs.Trees as tree;
ghost use Rattle.xc_kernel.specs.Calls as calls_spec;
ghost use Rattle.xc_kernel.specs.Context as contexts;
ghost use Rattle.xc_kernel.specs.Copy as copies;
ghost use Rattle.xc_kernel.specs.Statements as spec;
ghost use Rattle.xc_inline.specs.Contexts.{context_of};
ghost use Rattle.xc_inline.specs.Copied.{copy_of};
ghost use Rattle.xc_inline.specs.Functions.{function_of, deepest};
ghost use Rattle.xc_tree.specs.Heights.{height};
ghost use Rattle.xc_inline.specs.Scopes.{scope_of};
ghost use Rattle.xc_kernel.specs.Scopes.{Scope as Names};

use crate::context::Context;
use crate::copied::Copied;
use crate::expressions::{place, word};
use crate::paths::path_at;
use crate::scope::Scope;
use std::alloc::Global;
use xc_kernel::Inst;
use xc_tree::{Arg, FuncItem};
use xw_words::allocation::{with_ok, zip_ok};
use xw_words::{Memory, Pos};

// Calls are copied at most `calls` deep.
impl<'p, 'a> Context<'p, 'a> {
    /// The copy of a call whose function's name stands at a place.
    #[inline(never)]
    #[cycle(statement)]
    pub fn call(
        &self,
        alloc: Global,
        calls: usize,
        function: &'a FuncItem,
        pos: Pos,
        args: &'a [Arg],
        scope: &Scope<'a>,
    ) -> Result<Copied, Memory>
        requires height { height
            (tree.statement_of function.now.body) ≤ deepest self.now.functions.now.all.items }
        requires parameters { length function.now.params < 2 ^ 32 }
        ensures { IfOk result (λ copied. copy_of copied (scope_of scope.now)
            ≡ spec.calls_copy calls (context_of self.now) (scope_of scope.now)
            (function_of function.now) pos (map tree.argument_of args.now)) }
    {
        if calls == 0 {
            return Ok(Copied::nothing(alloc));
        }
        let own = path_at(alloc, self.path, pos)?;
        self.function(alloc, calls - 1, own.as_slice(), function, args, scope)
    }

    /// The copy of a function's instance of this path: its result, its parameters, and its body.
    #[inline(never)]
    #[cycle(statement)]
    pub fn function(
        &self,
        alloc: Global,
        calls: usize,
        own: &[u32],
        function: &'a FuncItem,
        args: &'a [Arg],
        scope: &Scope<'a>,
    ) -> Result<Copied, Memory>
        requires height { height
            (tree.statement_of function.now.body) ≤ deepest self.now.functions.now.all.items }
        requires parameters { length function.now.params < 2 ^ 32 }
        ensures { IfOk result
            (λ copied. copy_of copied (scope_of scope.now) ≡ calls_spec.function_copy
            (spec.statement_copy (spec.calls_copy calls)) (context_of self.now) (scope_of
            scope.now) own.now (function_of function.now) (map tree.argument_of args.now)) }
    {
        let result = path_at(alloc, own, function.name.pos);
        let entered = self.all_passed(alloc, scope, own, function.params.as_slice(), args);
        let (result, mut entered) = zip_ok(result, entered)?;
        let body = (&*self)
            .in_function(own, result.as_slice())
            .statement(alloc, calls, &function.body, &mut entered.scope);
        self.around_body(
            alloc,
            own,
            result.as_slice(),
            function,
            entered.copied,
            body,
        )
    }

    /// A call, by the copies of its arguments and of its function's body: its instance and its result stand before them. The
    /// one error is want of memory.
    #[inline(never)]
    pub fn around_body(
        &self,
        alloc: Global,
        own: &[u32],
        result_path: &[u32],
        function: &FuncItem,
        passed: Copied,
        body: Result<Copied, Memory>,
    ) -> Result<Copied, Memory>
        requires parameters { length function.now.params < 2 ^ 32 }
        ensures { IfOk result (λ copied. (entered inner behind : Names) (whole : copies.Copy) →
            IfOk body (λ b. copy_of b inner ≡ whole) → copy_of copied behind
            ≡ copies.in_scope_of behind (calls_spec.naming_none (copies.joined
            (calls_spec.instance_of (context_of self.now) (function_of function.now) behind)
            (copies.joined (calls_spec.result_copy (context_of self.now) result_path.now
            function.now.name.pos behind function.now.result) (copies.joined
            (copy_of passed entered) (calls_spec.as_block (context_of self.now) own.now whole)))))) }
    {
        let (passed, body) = with_ok(passed, body)?;
        let block = self.as_block(alloc, own, body);
        let (passed, block) = with_ok(passed, block)?;
        let inside = passed.followed_by(block);
        let zeroed = self.zeroed_result(alloc, result_path, function);
        let (zeroed, inside) = zip_ok(zeroed, inside)?;
        let behind = zeroed.followed_by(inside);
        let made = self.instance(alloc, function);
        let copied = Copied::joined(made, behind)?;
        Ok(copied.naming_none(alloc))
    }

    /// An instance of a function, on the core of the call. The one error is want of memory.
    #[inline(never)]
    pub fn instance(&self, alloc: Global, function: &FuncItem) -> Result<Copied, Memory>
        requires parameters { length function.now.params < 2 ^ 32 }
        ensures { IfOk result (λ copied. (behind : Names) → copy_of copied behind
            ≡ calls_spec.instance_of (context_of self.now) (function_of function.now) behind) }
    {
        let params = function.params.len() as u32;
        Copied::nothing(alloc).and_instance(Inst {
            core: self.core,
            params,
        })
    }

    /// The word of a function's result becomes 0, where it has one. The one error is want of memory.
    #[inline(never)]
    pub fn zeroed_result(
        &self,
        alloc: Global,
        path: &[u32],
        function: &FuncItem,
    ) -> Result<Copied, Memory>
        ensures { IfOk result
            (λ copied. (behind : Names) → copy_of copied behind ≡ calls_spec.result_copy
            (context_of self.now) path.now function.now.name.pos behind function.now.result) }
    {
        match function.result {
            None => Ok(Copied::nothing(alloc)),
            Some(_) => self.zeroed_word(alloc, path, function.name.pos),
        }
    }

    /// The copy of the variable of this path, whose word becomes 0. The one error is want of memory.
    pub fn zeroed_word(&self, alloc: Global, path: &[u32], pos: Pos) -> Result<Copied, Memory>
        ensures { IfOk result
            (λ copied. (behind : Names) → copy_of copied behind ≡ copies.with_variable
            (copies.one_statement behind (contexts.set_zero (context_of self.now) path.now))
            (contexts.word_variable (context_of self.now) false path.now pos)) }
    {
        let variable = self.word_variable(alloc, false, path, pos)?;
        let zeroed = Copied::one_statement(alloc, self.set_zero(path));
        let (variable, zeroed) = with_ok(variable, zeroed)?;
        zeroed.and_variable(variable)
    }
}
