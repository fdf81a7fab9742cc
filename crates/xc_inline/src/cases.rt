//! The cases of a `select`.
//!
//! What is put together once the walk has come back is no step of the walk, and stands out of line: a chain of calls holds the
//! frames of all its steps at once, so they are to be small.

ghost use Rattle.std.specs.Prelude.{◌≡◌, ◌-◌, IfOk, OnOk, map, option_map, IsOk};
ghost use Rattle.xc_tree.specs.Trees as tree;
ghost use Rattle.xc_tree.specs.Plain as plain;
ghost use Rattle.xc_kernel.specs.Calls as calls_spec;
ghost use Rattle.xc_kernel.specs.Context as contexts;
ghost use Rattle.xc_kernel.specs.Copy as copies;
ghost use Rattle.xc_kernel.specs.Flow as flow;
ghost use Rattle.xc_kernel.specs.Paths as paths;
ghost use Rattle.xc_kernel.specs.Statements as spec;
ghost use Rattle.xc_inline.specs.Contexts.{context_of};
ghost use Rattle.xc_inline.specs.Copied.{copy_of};
ghost use Rattle.xc_inline.specs.Growth.{Grows};
ghost use Rattle.xc_inline.specs.Parts.{cased_before};
ghost use Rattle.xc_inline.specs.Scopes.{scope_of};
ghost use Rattle.xc_kernel.specs.Kernels as kernel;
ghost use Rattle.xc_kernel.specs.Scopes.{Scope as Names};
ghost use Rattle.xc_tree.specs.declared.tree.Case.{out-Case};
ghost use Rattle.xc_inline.specs.Cases.{case_by};

use crate::context::Context;
use crate::copied::Copied;
use crate::expressions::word;
use crate::parts::Cased;
use crate::paths::path_at;
use crate::scope::Scope;
use crate::transfers::Received;
use std::alloc::Global;
use xc_kernel::Kx;
use xc_tree::{Case, Expr};
use xw_words::allocation::{then_ok, with_ok, zip_ok};
use xw_words::{List, Memory, Pos};

/// What comes of a case that receives before its body: its guard, if it has one, and its input.
#[derive(Drop)]
pub struct Opened {
    pub guard: Option<Kx>,
    pub received: Received,
}

// Calls are copied at most `calls` deep.
impl<'p, 'a> Context<'p, 'a> {
    /// The copy of a `select`, each of whose cases is a scope.
    #[inline(never)]
    #[cycle(statement)]
    pub fn select(
        &self,
        alloc: Global,
        calls: usize,
        pos: Pos,
        cs: &'a [Case],
        scope: &mut Scope<'a>,
    ) -> Result<Copied, Memory>
        ensures { IfOk result (λ copied. copy_of copied (scope_of scope.new)
            ≡ flow.select_copy (scope_of scope.old) pos (spec.cases_copy (spec.calls_copy calls)
            (plain.cases (map tree.case_of cs.now)) (context_of self.now) (scope_of scope.old))) }
    {
        let known = scope.len();
        let mut cases = Cased::none(alloc);
        for case in cs {
            let added = self.case(alloc, calls, case, &mut cases, scope);
            cases = then_ok(added, cases)?;
            scope.leave(known);
        }
        cases.as_select(alloc, pos)
    }

    /// One more case, or the `default`, behind others. The one error is want of memory.
    #[inline(never)]
    #[cycle(statement)]
    pub fn case(
        &self,
        alloc: Global,
        calls: usize,
        case: &'a Case,
        cases: &mut Cased,
        scope: &mut Scope<'a>,
    ) -> Result<(), Memory>
        ensures cases { OnOk result ((others : flow.Cased) → cased_before cases.new others
            ≡ cased_before cases.old (spec.case_copy (spec.calls_copy calls)
            (tree.case_of case.now) (context_of self.now) (scope_of scope.old) others)) }
        ensures names { OnOk result (Grows (scope_of scope.old) (scope_of scope.new)) }
    {
        let path = path_at(alloc, self.path, case.pos);
        let opened = self.opened(alloc, case, scope);
        let (path, opened) = zip_ok(path, opened)?;
        let body = (&*self)
            .in_case(path.as_slice())
            .statements(alloc, calls, case.body.as_slice(), scope);
        self.add_case(alloc, path, opened, body, cases)
    }

    /// What comes of a case before its body, whose names then are known: its guard, and what it receives; nothing of a `default`.
    /// The one error is want of memory.
    #[inline(never)]
    pub fn opened(
        &self,
        alloc: Global,
        case: &'a Case,
        scope: &mut Scope<'a>,
    ) -> Result<Option<Opened>, Memory>
        ensures head { IfOk result (λ opened. (body : copies.Copy) (others : flow.Cased) →
            case_by opened (scope_of scope.new) (calls_spec.as_block (context_of self.now)
            (paths.path_at self.now.path.now (out-Case case.now).pos) body) others
            ≡ flow.and_case (context_of self.now) (scope_of scope.old)
            (out-Case case.now).pos (option_map tree.expression_of (out-Case case.now).guard)
            (option_map tree.input_of (out-Case case.now).head) body others) }
        ensures names { IfOk result
            (λ opened. scope_of scope.new ≡ flow.case_scope (context_of self.now)
            (scope_of scope.old) (option_map tree.input_of (out-Case case.now).head)) }
        ensures grows { IfOk result (λ opened. Grows (scope_of scope.old) (scope_of scope.new)) }
    {
        match &case.head {
            None => Ok(None),
            Some(head) => {
                let guard = self.guard(alloc, &case.guard, scope);
                let received = self.received(alloc, scope, head);
                let (guard, received) = zip_ok(guard, received)?;
                Ok(Some(Opened { guard, received }))
            }
        }
    }

    /// A case's body as the block of this path, if it could be made. The one error is want of memory.
    pub fn block_of(
        &self,
        alloc: Global,
        path: List<u32>,
        body: Result<Copied, Memory>,
    ) -> Result<Copied, Memory>
        ensures made { OnOk result (IsOk body) }
        ensures block { IfOk result (λ block. (behind : Names) (whole : copies.Copy) →
            IfOk body (λ b. copy_of b behind ≡ whole) → copy_of block behind
            ≡ calls_spec.as_block (context_of self.now) path whole) }
    {
        let (path, body) = with_ok(path, body)?;
        self.as_block(alloc, path.as_slice(), body)
    }

    /// One more case behind others, by what came of it before its body, and by its body, which is a block of this path. The one
    /// error is want of memory.
    #[inline(never)]
    pub fn add_case(
        &self,
        alloc: Global,
        path: List<u32>,
        opened: Option<Opened>,
        body: Result<Copied, Memory>,
        cases: &mut Cased,
    ) -> Result<(), Memory>
        ensures made { OnOk result (IsOk body) }
        ensures cases { OnOk result ((between behind : Names) (whole : copies.Copy) →
            IfOk body (λ b. copy_of b behind ≡ whole) → (others : flow.Cased) →
            cased_before cases.new others ≡ cased_before cases.old
            (case_by opened between (calls_spec.as_block (context_of self.now) path whole) others)) }
    {
        let block = self.block_of(alloc, path, body);
        let (opened, block) = with_ok(opened, block)?;
        match opened {
            None => cases.add_default(alloc, block),
            Some(opened) => cases.add_case(alloc, opened.guard, opened.received, block),
        }
    }

    /// The guard of a case, if it has one. The one error is want of memory.
    #[inline(never)]
    #[tactic(auto, using(crate::proofs::Laws::Expressions::words))]
    pub fn guard(
        &self,
        alloc: Global,
        guard: &Option<Expr>,
        scope: &Scope<'a>,
    ) -> Result<Option<Kx>, Memory>
        ensures { IfOk result (λ e. option_map kernel.expression_of e
            ≡ contexts.maybe_expression (context_of self.now) (scope_of scope.now)
            (option_map tree.expression_of guard.now)) }
    {
        match guard {
            None => Ok(None),
            Some(guard) => Ok(Some(word(alloc, self.numbers, scope, guard)?.value)),
        }
    }
}
