//! Statements that store a word: assignments, steps and returns, with the calls at their right sides.
//!
//! What is put together once the walk has come back is no step of the walk, and stands out of line: a chain of calls holds the
//! frames of all its steps at once, so they are to be small.

ghost use Rattle.std.specs.Prelude.{◌≡◌, ◌-◌, IfOk, option_map, false};
ghost use Rattle.xc_tree.specs.Trees as tree;
ghost use Rattle.xc_kernel.specs.Calls as calls_spec;
ghost use Rattle.xc_kernel.specs.Context as contexts;
ghost use Rattle.xc_kernel.specs.Copy as copies;
ghost use Rattle.xc_kernel.specs.Statements as spec;
ghost use Rattle.xc_inline.specs.Contexts.{context_of, functions_of};
ghost use Rattle.xc_inline.specs.Copied.{copy_of};
ghost use Rattle.xc_inline.specs.Scopes.{scope_of};
ghost use Rattle.xc_kernel.specs.Kernels as kernel;
ghost use Rattle.xc_kernel.specs.Scopes.{Scope as Names};
ghost use Rattle.xc_kernel.specs.Plain as kernel_plain;
ghost use Rattle.xc_kernel.specs.Programs as programs;

use crate::context::Context;
use crate::copied::Copied;
use crate::expressions::{Typed, place, updated, word};
use crate::paths::path_at;
use crate::scope::Scope;
use std::alloc::Global;
use xc_kernel::{Kst, Kx, Place};
use xc_tree::symbols::EQUALS;
use xc_tree::{Expr, Rhs};
use xw_words::allocation::zip_ok;
use xw_words::{List, Memory, Pos};

// Calls are copied at most `calls` deep.
impl<'p, 'a> Context<'p, 'a> {
    /// The copy of an assignment by `=`, or by an operator.
    #[inline(never)]
    #[cycle(statement)]
    pub fn assign(
        &self,
        alloc: Global,
        calls: usize,
        to: &Expr,
        symbol: u8,
        pos: Pos,
        right: &'a Rhs,
        scope: &Scope<'a>,
    ) -> Result<Copied, Memory>
        ensures { IfOk result (λ copied. copy_of copied (scope_of scope.now) ≡ spec.assign_copy
            (spec.calls_copy calls) (context_of self.now) (scope_of scope.now)
            (tree.expression_of to.now) symbol pos (tree.right_of right.now)) }
    {
        if symbol != EQUALS {
            let value = self.typed(alloc, right, scope)?;
            return self.update(alloc, to, symbol, pos, value, scope);
        }
        let called = self.right(alloc, calls, right, scope);
        self.assigned_behind(alloc, called, to, right, scope)
    }

    /// The copy of `return`: the value is stored in the result, and the body is left.
    #[inline(never)]
    #[cycle(statement)]
    pub fn return_with(
        &self,
        alloc: Global,
        calls: usize,
        right: &'a Option<Rhs>,
        scope: &Scope<'a>,
    ) -> Result<Copied, Memory>
        ensures { IfOk result (λ copied. copy_of copied (scope_of scope.now)
            ≡ spec.return_copy (spec.calls_copy calls) (context_of self.now)
            (scope_of scope.now) (option_map tree.right_of right.now)) }
    {
        match right {
            None => self.leaves(alloc, self.returns, scope),
            Some(right) => {
                let called = self.right(alloc, calls, right, scope);
                self.returned_behind(alloc, called, right, scope)
            }
        }
    }

    /// The copy of the call that a right side is, if it is one.
    #[inline(never)]
    #[cycle(statement)]
    pub fn right(
        &self,
        alloc: Global,
        calls: usize,
        right: &'a Rhs,
        scope: &Scope<'a>,
    ) -> Result<Copied, Memory>
        ensures { IfOk result (λ copied. copy_of copied (scope_of scope.now)
            ≡ calls_spec.right_copy (spec.calls_copy calls) (context_of self.now)
            (scope_of scope.now) (tree.right_of right.now)) }
    {
        match right {
            Rhs::Value(_) => Ok(Copied::nothing(alloc)),
            Rhs::Call { name, pos, args } => match self.functions.named(name.as_slice()) {
                None => Ok(Copied::nothing(alloc)),
                Some(function) => {
                    self.call(alloc, calls, function, *pos, args.as_slice(), scope)
                }
            },
        }
    }

    /// The copy of an assignment by an operator. The one error is want of memory.
    #[inline(never)]
    pub fn update(
        &self,
        alloc: Global,
        to: &Expr,
        symbol: u8,
        pos: Pos,
        right: Typed,
        scope: &Scope<'a>,
    ) -> Result<Copied, Memory>
        ensures { IfOk result (λ copied. copy_of copied (scope_of scope.now) ≡ spec.update_copy
            (context_of self.now) (scope_of scope.now) (tree.expression_of to.now) symbol pos
            right.unsigned (kernel.expression_of right.value)) }
    {
        let stored = updated(alloc, self.numbers, scope, to, symbol, pos, right);
        let place = place(alloc, self.numbers, scope, to);
        let (place, stored) = zip_ok(place, stored)?;
        Copied::one_statement(alloc, Kst::Set(place, stored))
    }

    /// The copy of a step by 1. The one error is want of memory.
    #[inline(never)]
    pub fn step(
        &self,
        alloc: Global,
        to: &Expr,
        symbol: u8,
        pos: Pos,
        scope: &Scope<'a>,
    ) -> Result<Copied, Memory>
        ensures { IfOk result (λ copied. copy_of copied (scope_of scope.now)
            ≡ spec.update_copy (context_of self.now) (scope_of scope.now)
            (tree.expression_of to.now) symbol pos false (kernel_plain.number 1)) }
    {
        let one = Typed {
            value: Kx::Num(1),
            unsigned: false,
        };
        self.update(alloc, to, symbol, pos, one, scope)
    }

    /// What a right side stands for once its call, if it is one, is done. The one error is want of memory.
    #[inline(never)]
    pub fn value(&self, alloc: Global, right: &Rhs, scope: &Scope<'a>) -> Result<Kx, Memory>
        ensures { IfOk result (λ e. kernel.expression_of e ≡ calls_spec.value_of (context_of self.now)
            (scope_of scope.now) (tree.right_of right.now)) }
    {
        let typed = self.typed(alloc, right, scope)?;
        Ok(typed.value)
    }

    /// The same, and whether it is an `unsigned` word. The one error is want of memory.
    #[inline(never)]
    #[tactic(auto, using(crate::proofs::Laws::Expressions::words))]
    pub fn typed(&self, alloc: Global, right: &Rhs, scope: &Scope<'a>) -> Result<Typed, Memory>
        ensures value { IfOk result
            (λ t. kernel.expression_of t.value ≡ calls_spec.value_of (context_of self.now)
            (scope_of scope.now) (tree.right_of right.now)) }
        ensures unsigned { IfOk result (λ t. t.unsigned
            ≡ calls_spec.right_is_unsigned (scope_of scope.now) (tree.right_of right.now)) }
    {
        match right {
            Rhs::Value(e) => word(alloc, self.numbers, scope, e),
            Rhs::Call { name, pos, .. } => {
                let path = self.path_of_result(alloc, name.as_slice(), *pos)?;
                Ok(Typed {
                    value: Kx::Read(Place::Word(self.numbers.variable(path.as_slice()))),
                    unsigned: false,
                })
            }
        }
    }

    /// The variable of the result of a call whose function's name stands at a place. The one error is want of memory.
    pub fn path_of_result(&self, alloc: Global, name: &[u8], pos: Pos) -> Result<List<u32>, Memory>
        ensures { IfOk result (λ path. path ≡ calls_spec.path_of_result (context_of self.now) pos
            (programs.function_named (functions_of self.now.functions.now) name.now)) }
    {
        match self.functions.named(name) {
            None => Ok(List::new(alloc)),
            Some(function) => {
                let own = path_at(alloc, self.path, pos)?;
                path_at(alloc, own.as_slice(), function.name.pos)
            }
        }
    }

    /// A right side's copy, and behind it what stores its value in the variable of this path. The one error is want of memory.
    #[inline(never)]
    pub fn stored_behind(
        &self,
        alloc: Global,
        called: Result<Copied, Memory>,
        path: &[u32],
        right: &Rhs,
        scope: &Scope<'a>,
    ) -> Result<Copied, Memory>
        ensures { IfOk result (λ copied. (within : Names) (call : copies.Copy) →
            IfOk called (λ c. copy_of c within ≡ call) → copy_of copied (scope_of scope.now)
            ≡ copies.joined call (copies.one_statement (scope_of scope.now)
            (contexts.set_word (context_of self.now) path.now (calls_spec.value_of
            (context_of self.now) (scope_of scope.now) (tree.right_of right.now))))) }
    {
        let stored = self.value_stored(alloc, path, right, scope);
        Copied::joined(called, stored)
    }

    /// A right side's copy, and behind it what assigns its value to a place. The one error is want of memory.
    #[inline(never)]
    pub fn assigned_behind(
        &self,
        alloc: Global,
        called: Result<Copied, Memory>,
        to: &Expr,
        right: &Rhs,
        scope: &Scope<'a>,
    ) -> Result<Copied, Memory>
        ensures { IfOk result (λ copied. (within : Names) (call : copies.Copy) → IfOk called (λ c.
            copy_of c within ≡ call) → copy_of copied (scope_of scope.now) ≡ copies.joined call
            (copies.one_statement (scope_of scope.now) (kernel_plain.set (contexts.place (context_of
            self.now) (scope_of scope.now) (tree.expression_of to.now)) (calls_spec.value_of
            (context_of self.now) (scope_of scope.now) (tree.right_of right.now))))) }
    {
        let stored = self.value_assigned(alloc, to, right, scope);
        Copied::joined(called, stored)
    }

    /// A right side's copy, and behind it what stores its value in the function's result and leaves the body. The one error is
    /// want of memory.
    #[inline(never)]
    pub fn returned_behind(
        &self,
        alloc: Global,
        called: Result<Copied, Memory>,
        right: &Rhs,
        scope: &Scope<'a>,
    ) -> Result<Copied, Memory>
        ensures { IfOk result (λ copied. (within : Names) (call : copies.Copy) → IfOk called (λ c.
            copy_of c within ≡ call) → copy_of copied (scope_of scope.now) ≡ copies.joined call
            (copies.joined (copies.one_statement (scope_of scope.now) (contexts.set_word
            (context_of self.now) self.now.result.now (calls_spec.value_of (context_of self.now)
            (scope_of scope.now) (tree.right_of right.now)))) (copies.one_statement
            (scope_of scope.now) (contexts.leave (context_of self.now) self.now.returns.now)))) }
    {
        let returned = self.value_returned(alloc, right, scope);
        Copied::joined(called, returned)
    }

    /// What stores a right side's value in the variable of this path. The one error is want of memory.
    pub fn value_stored(
        &self,
        alloc: Global,
        path: &[u32],
        right: &Rhs,
        scope: &Scope<'a>,
    ) -> Result<Copied, Memory>
        ensures { IfOk result (λ stored. copy_of stored (scope_of scope.now)
            ≡ copies.one_statement (scope_of scope.now)
            (contexts.set_word (context_of self.now) path.now (calls_spec.value_of
            (context_of self.now) (scope_of scope.now) (tree.right_of right.now)))) }
    {
        let value = self.value(alloc, right, scope)?;
        Copied::one_statement(alloc, self.set_word(path, value))
    }

    /// What assigns a right side's value to a place. The one error is want of memory.
    pub fn value_assigned(
        &self,
        alloc: Global,
        to: &Expr,
        right: &Rhs,
        scope: &Scope<'a>,
    ) -> Result<Copied, Memory>
        ensures { IfOk result (λ stored. copy_of stored (scope_of scope.now) ≡ copies.one_statement
            (scope_of scope.now) (kernel_plain.set (contexts.place (context_of self.now)
            (scope_of scope.now) (tree.expression_of to.now)) (calls_spec.value_of
            (context_of self.now) (scope_of scope.now) (tree.right_of right.now)))) }
    {
        let value = self.value(alloc, right, scope);
        let place = place(alloc, self.numbers, scope, to);
        let (place, value) = zip_ok(place, value)?;
        Copied::one_statement(alloc, Kst::Set(place, value))
    }

    /// What stores a right side's value in the function's result and leaves the body. The one error is want of memory.
    pub fn value_returned(
        &self,
        alloc: Global,
        right: &Rhs,
        scope: &Scope<'a>,
    ) -> Result<Copied, Memory>
        ensures { IfOk result (λ returned. copy_of returned (scope_of scope.now)
            ≡ copies.joined (copies.one_statement (scope_of scope.now) (contexts.set_word
            (context_of self.now) self.now.result.now (calls_spec.value_of (context_of self.now)
            (scope_of scope.now) (tree.right_of right.now)))) (copies.one_statement
            (scope_of scope.now) (contexts.leave (context_of self.now) self.now.returns.now))) }
    {
        let stored = self.value_stored(alloc, self.result, right, scope);
        let left = self.leaves(alloc, self.returns, scope);
        Copied::joined(stored, left)
    }
}
