#![tactic(auto, using(crate::proofs::Laws::Expressions::steps))]

ghost use Rattle.std.specs.Prelude.{◌≡◌, ◌++◌, [], ◌∷◌, IfOk, OnOk, map, option_map, option_to_list};
ghost use Rattle.xc_kernel.specs.Calls as calls;
ghost use Rattle.xc_kernel.specs.Context as contexts;
ghost use Rattle.xc_kernel.specs.Copy as copies;
ghost use Rattle.xc_kernel.specs.Flow as spec;
ghost use Rattle.xc_kernel.specs.Kernels as kernel;
ghost use Rattle.xc_kernel.specs.Paths.{path_of_turn as turn_of};
ghost use Rattle.xc_kernel.specs.Plain as plain;
ghost use Rattle.xc_kernel.specs.Scopes.{Scope as Names};
ghost use Rattle.xc_inline.specs.Contexts.{context_of};
ghost use Rattle.xc_inline.specs.Copied.{copy_of};
ghost use Rattle.xc_inline.specs.Scopes.{scope_of};

use crate::context::Context;
use crate::copied::Copied;
use crate::paths::same_path;
use crate::scope::Scope;
use std::alloc::Global;
use xc_kernel::{Kst, Kx};
use xw_words::allocation::{one, two, with_ok, zip_ok};
use xw_words::{List, Memory, Pos};

impl<'p, 'a> Context<'p, 'a> {
    /// A statement that leaves the block of this path.
    pub fn leave(&self, path: &[u32]) -> Kst
        ensures { kernel.statement_of result ≡ contexts.leave (context_of self.now) path.now }
    {
        Kst::Exit(self.numbers.block(path))
    }

    /// The statements of a copy as the block of this path. The one error is want of memory.
    #[inline(never)]
    #[tactic(auto)]
    pub fn as_block(
        &self,
        alloc: Global,
        path: &[u32],
        mut copied: Copied,
    ) -> Result<Copied, Memory>
        ensures { IfOk result (λ block. (behind : Names) → copy_of block behind
            ≡ calls.as_block (context_of self.now) path.now (copy_of copied behind)) }
    {
        let code = copied.take_code(alloc);
        let whole = copied.and_statement(self.block_at(path, code));
        let own = same_path(alloc, path);
        let (whole, own) = zip_ok(whole, own)?;
        whole.and_block(own)
    }

    /// The block of this path.
    pub fn block_at(&self, path: &[u32], code: List<Kst>) -> Kst
        ensures { kernel.statement_of result
            ≡ contexts.block_at (context_of self.now) path.now (map kernel.statement_of code) }
    {
        Kst::Block(self.numbers.block(path), code)
    }

    /// A loop of this path: its body in a block that `continue` leaves, what else is done in each turn, and what follows each.
    /// The one error is want of memory.
    #[inline(never)]
    #[tactic(auto)]
    pub fn loop_at(
        &self,
        alloc: Global,
        paths: LoopPaths,
        test: Kx,
        mut next: Copied,
        mut body: Copied,
        last: Option<Kst>,
    ) -> Result<Copied, Memory>
        requires { paths.turn ≡ turn_of paths.whole }
        ensures { IfOk result
            (λ copied. (between behind : Names) → copy_of copied behind ≡ spec.loop_at
            (context_of self.now) paths.whole (kernel.expression_of test) (spec.iteration
            (context_of self.now) paths.whole (copy_of body behind).code (option_to_list
            (option_map kernel.statement_of last))) (copies.code_of (copy_of next between))
            (copies.joined (copy_of next between) (copy_of body behind))) }
    {
        let followed = next.take_code(alloc);
        let done = body.take_code(alloc);
        let round = self.round(alloc, paths.turn.as_slice(), test, done, last, followed);
        let made = next.followed_by(body);
        let (round, made) = zip_ok(round, made)?;
        let looped = made.and_statement(self.block_at(paths.whole.as_slice(), round));
        let (paths, looped) = with_ok(paths, looped)?;
        let inner = looped.and_block(paths.turn);
        let (whole, inner) = with_ok(paths.whole, inner)?;
        inner.and_block(whole)
    }

    /// The loop alone: its test, the body in a block of this path with what else is done in each turn, and what follows each. The
    /// one error is want of memory.
    fn round(
        &self,
        alloc: Global,
        path: &[u32],
        test: Kx,
        body: List<Kst>,
        last: Option<Kst>,
        followed: List<Kst>,
    ) -> Result<List<Kst>, Memory>
        ensures { IfOk result
            (λ round. map kernel.statement_of round ≡ plain.loop (kernel.expression_of
            test) (plain.statements (contexts.block_at (context_of self.now) path.now (map
            kernel.statement_of body) ∷ option_to_list (option_map kernel.statement_of last)))
            (plain.statements (map kernel.statement_of followed)) ∷ []) }
    {
        let turn = self.turn(alloc, path, body, last);
        let ((test, followed), turn) = with_ok((test, followed), turn)?;
        one(alloc, Kst::Loop(test, turn, followed))
    }

    /// The statements of a loop's turn: the body in a block of this path, and what else is done. The one error is want of memory.
    fn turn(
        &self,
        alloc: Global,
        path: &[u32],
        body: List<Kst>,
        last: Option<Kst>,
    ) -> Result<List<Kst>, Memory>
        ensures { IfOk result (λ turn. map kernel.statement_of turn ≡ contexts.block_at
            (context_of self.now) path.now (map kernel.statement_of body) ∷ option_to_list
            (option_map kernel.statement_of last)) }
    {
        let block = self.block_at(path, body);
        match last {
            None => one(alloc, block),
            Some(last) => two(alloc, block, last),
        }
    }

    /// The copy of a statement that leaves the block of this path. The one error is want of memory.
    #[inline(never)]
    pub fn leaves(&self, alloc: Global, path: &[u32], scope: &Scope<'a>) -> Result<Copied, Memory>
        ensures { IfOk result (λ copied. copy_of copied (scope_of scope.now) ≡ copies.one_statement
            (scope_of scope.now) (contexts.leave (context_of self.now) path.now)) }
    {
        Copied::one_statement(alloc, self.leave(path))
    }

    /// The block of this path is left where the test is 0. The one error is want of memory.
    #[inline(never)]
    pub fn leave_unless(&self, alloc: Global, path: &[u32], test: Kx) -> Result<Kst, Memory>
        ensures { IfOk result (λ statement. kernel.statement_of statement
            ≡ spec.leave_unless (context_of self.now) path.now (kernel.expression_of test)) }
    {
        let left = one(alloc, self.leave(path));
        let (test, left) = with_ok(test, left)?;
        Ok(Kst::If(test, List::new(alloc), left))
    }
}

/// The block that a loop's `break` leaves, and the one in it that `continue` leaves.
#[derive(Drop)]
pub struct LoopPaths {
    pub whole: List<u32>,
    pub turn: List<u32>,
}

/// What is done where the test holds, and where not, if that could be made. The one error is want of memory.
#[inline(never)]
#[tactic(auto)]
pub fn if_copy(
    alloc: Global,
    test: Kx,
    first: Copied,
    second: Result<Copied, Memory>,
) -> Result<Copied, Memory>
    ensures { IfOk result (λ copied. (between behind : Names) (other : copies.Copy) →
        IfOk second (λ s. copy_of s behind ≡ other) → copy_of copied behind
        ≡ spec.if_copy (kernel.expression_of test) (copy_of first between) other) }
{
    let ((test, first), second) = with_ok((test, first), second)?;
    let mut first = first;
    let mut second = second;
    let then = first.take_code(alloc);
    let otherwise = second.take_code(alloc);
    let made = first.followed_by(second);
    let (test, made) = with_ok(test, made)?;
    made.and_statement(Kst::If(test, then, otherwise))
}
