//! The branches of a `par`.

ghost use Rattle.std.specs.Prelude.{◌≡◌, ◌-◌, IfOk, map};
ghost use Rattle.xc_tree.specs.Trees as tree;
ghost use Rattle.xc_tree.specs.Plain as plain;
ghost use Rattle.xc_kernel.specs.Context as contexts;
ghost use Rattle.xc_kernel.specs.Flow as flow;
ghost use Rattle.xc_kernel.specs.Statements as spec;
ghost use Rattle.xc_inline.specs.Contexts.{context_of};
ghost use Rattle.xc_inline.specs.Copied.{copy_of};
ghost use Rattle.xc_inline.specs.Scopes.{scope_of};

use crate::context::Context;
use crate::copied::Copied;
use crate::parts::Branched;
use crate::paths::path_of_branch;
use crate::scope::{Entity, Scope};
use std::alloc::Global;
use xc_tree::{Branch, Id};
use xw_words::Memory;
use xw_words::allocation::with_ok;

// Calls are copied at most `calls` deep.
impl<'p, 'a> Context<'p, 'a> {
    /// The copy of a `par`.
    #[inline(never)]
    #[cycle(statement)]
    pub fn par(
        &self,
        alloc: Global,
        calls: usize,
        bs: &'a [Branch],
        scope: &mut Scope<'a>,
    ) -> Result<Copied, Memory>
        ensures { IfOk result (λ copied. copy_of copied (scope_of scope.new)
            ≡ flow.par_copy (spec.branches_copy (spec.calls_copy calls) (plain.branches
            (map tree.branch_of bs.now)) 0 (context_of self.now) (scope_of scope.old))) }
    {
        let mut branches = Branched::none(alloc);
        for (index, b) in bs.iter().enumerate() {
            let copied = self.branch(alloc, calls, index, b, scope);
            let (before, copied) = with_ok(branches, copied)?;
            branches = before.and(alloc, b.body.pos, copied)?;
        }
        branches.as_par(alloc)
    }

    /// The copy of the branch of a `par` with this index.
    #[inline(never)]
    #[cycle(statement)]
    pub fn branch(
        &self,
        alloc: Global,
        calls: usize,
        index: usize,
        b: &'a Branch,
        scope: &mut Scope<'a>,
    ) -> Result<Copied, Memory>
        ensures { IfOk result (λ copied. copy_of copied (scope_of scope.new)
            ≡ spec.branch_copy (spec.calls_copy calls) (tree.branch_of b.now)
            (contexts.in_branch (context_of self.now) index) (scope_of scope.old)) }
    {
        let path = path_of_branch(alloc, self.path, index)?;
        let copied = (&*self)
            .in_branch(path.as_slice())
            .statement(alloc, calls, &b.body, scope);
        drop(path);
        copied
    }

    /// The copy of a replicated `par`: of its branch for each number, in which a name stands for the number.
    #[inline(never)]
    #[cycle(statement)]
    pub fn replicated(
        &self,
        alloc: Global,
        calls: usize,
        name: &'a Id,
        from: u32,
        until: u32,
        b: &'a Branch,
        scope: &mut Scope<'a>,
    ) -> Result<Copied, Memory>
        ensures { IfOk result (λ copied. copy_of copied (scope_of scope.new) ≡ flow.par_copy
            (flow.replicated (flow.numbered_copy (spec.branch_copy (spec.calls_copy calls)
            (tree.branch_of b.now)) (context_of self.now) (scope_of scope.old) name.now.text)
            (spec.pos_of_branch (tree.branch_of b.now)) (scope_of scope.old)
            (until - from) 0 from)) }
    {
        let mut branches = Branched::none(alloc);
        for number in from..until {
            let copied = self.numbered(alloc, calls, name, number - from, number, b, scope);
            let (before, copied) = with_ok(branches, copied)?;
            branches = before.and(alloc, b.body.pos, copied)?;
        }
        branches.as_par(alloc)
    }

    /// The copy of a replicated branch with this index, in which a name stands for a number.
    #[inline(never)]
    #[cycle(statement)]
    pub fn numbered(
        &self,
        alloc: Global,
        calls: usize,
        name: &'a Id,
        index: u32,
        number: u32,
        b: &'a Branch,
        scope: &mut Scope<'a>,
    ) -> Result<Copied, Memory>
        ensures { IfOk result (λ copied. copy_of copied (scope_of scope.new) ≡ flow.numbered_copy
            (spec.branch_copy (spec.calls_copy calls) (tree.branch_of b.now))
            (context_of self.now) (scope_of scope.old) name.now.text index number) }
    {
        let known = scope.len();
        scope.declare(name.text.as_slice(), Entity::Constant(number))?;
        let copied = self.branch(alloc, calls, index as usize, b, scope)?;
        scope.leave(known);
        Ok(copied)
    }
}
