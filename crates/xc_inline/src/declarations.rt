//! Declarations: words, arrays, channels and timers.

ghost use Rattle.std.specs.Prelude.{◌≡◌, ◌-◌, IfOk, map, option_map};
ghost use Rattle.xc_tree.specs.Trees as tree;
ghost use Rattle.xc_kernel.specs.Context as contexts;
ghost use Rattle.xc_kernel.specs.Copy as copies;
ghost use Rattle.xc_kernel.specs.Declarations as declarations;
ghost use Rattle.xc_kernel.specs.Paths as paths;
ghost use Rattle.xc_kernel.specs.Scopes.{Scope as Names};
ghost use Rattle.xc_kernel.specs.Statements as spec;
ghost use Rattle.xc_inline.specs.Contexts.{context_of};
ghost use Rattle.xc_inline.specs.Copied.{copy_of};
ghost use Rattle.xc_inline.specs.Scopes.{scope_of};

use crate::context::Context;
use crate::copied::Copied;
use crate::expressions::place;
use crate::paths::{path_at, same_path};
use crate::scope::{Entity, Scope};
use std::alloc::Global;
use xc_kernel::{Chan, Timer};
use xc_tree::{DeclKind, Declared, Rhs};
use xw_words::allocation::{with_ok, zip_ok};
use xw_words::{Memory, Pos};

// Calls are copied at most `calls` deep.
impl<'p, 'a> Context<'p, 'a> {
    /// The copy of declared names, one behind the other.
    #[inline(never)]
    #[cycle(statement)]
    pub fn declarations(
        &self,
        alloc: Global,
        calls: usize,
        ds: &'a [Declared],
        scope: &mut Scope<'a>,
    ) -> Result<Copied, Memory>
        ensures { IfOk result (λ copied. copy_of copied (scope_of scope.new)
            ≡ declarations.declarations_copy (spec.calls_copy calls) (context_of self.now)
            (map tree.declaration_of ds.now) (scope_of scope.old)) }
    {
        let mut copied = Copied::nothing(alloc);
        for d in ds {
            let next = self.declaration(alloc, calls, d, scope);
            copied = copied.with_next(next)?;
        }
        Ok(copied)
    }

    /// The copy of one declared name.
    #[inline(never)]
    #[cycle(statement)]
    pub fn declaration(
        &self,
        alloc: Global,
        calls: usize,
        d: &'a Declared,
        scope: &mut Scope<'a>,
    ) -> Result<Copied, Memory>
        ensures { IfOk result (λ copied. copy_of copied (scope_of scope.new)
            ≡ declarations.declaration_copy (spec.calls_copy calls) (context_of self.now)
            (scope_of scope.old) (tree.declaration_of d.now)) }
    {
        let name = d.name.text.as_slice();
        let pos = d.name.pos;
        match &d.kind {
            DeclKind::Word(unsigned, right) => {
                let declared = self.declares_word(alloc, scope, name, pos, *unsigned)?;
                let initial = self.initial(alloc, calls, pos, right, scope);
                declared.with_next(initial)
            }
            DeclKind::Array(unsigned, words, _) => {
                self.array(alloc, scope, name, pos, *unsigned, *words)
            }
            DeclKind::Chan(streaming) => self.channel(alloc, scope, name, pos, *streaming),
            DeclKind::Timer => self.timer(alloc, scope, name, pos),
        }
    }

    /// The variable that a name at a place declares becomes 0, or its initialiser's value is stored.
    #[inline(never)]
    #[cycle(statement)]
    pub fn initial(
        &self,
        alloc: Global,
        calls: usize,
        pos: Pos,
        right: &'a Option<Rhs>,
        scope: &Scope<'a>,
    ) -> Result<Copied, Memory>
        ensures { IfOk result
            (λ copied. copy_of copied (scope_of scope.now) ≡ declarations.initial_copy
            (spec.calls_copy calls) (context_of self.now) (paths.path_at self.now.path.now pos)
            (option_map tree.right_of right.now) (scope_of scope.now)) }
    {
        let path = path_at(alloc, self.path, pos)?;
        match right {
            None => Copied::one_statement(alloc, self.set_zero(path.as_slice())),
            Some(right) => {
                let called = self.right(alloc, calls, right, scope);
                self.stored_behind(alloc, called, path.as_slice(), right, scope)
            }
        }
    }

    /// The copy of an array that a name at a place declares. The one error is want of memory.
    #[inline(never)]
    pub fn array(
        &self,
        alloc: Global,
        scope: &mut Scope<'a>,
        name: &'a [u8],
        pos: Pos,
        unsigned: bool,
        words: u32,
    ) -> Result<Copied, Memory>
        ensures { IfOk result (λ copied. copy_of copied (scope_of scope.new)
            ≡ declarations.array_copy (context_of self.now) (scope_of scope.old) name.now pos
            (paths.path_at self.now.path.now pos) unsigned words) }
    {
        let path = path_at(alloc, self.path, pos)?;
        let zeroed = self.zeroed_array(alloc, words, path.as_slice(), pos);
        let declared = scope.declare(name, Entity::Array(path, words, unsigned));
        let (_, copied) = zip_ok(declared, zeroed)?;
        Ok(copied)
    }

    /// The copy of the array of this path, whose words become 0. The one error is want of memory.
    fn zeroed_array(
        &self,
        alloc: Global,
        words: u32,
        path: &[u32],
        pos: Pos,
    ) -> Result<Copied, Memory>
        ensures { IfOk result
            (λ copied. (behind : Names) → copy_of copied behind ≡ copies.with_variable
            (copies.one_statement behind (contexts.set_zero (context_of self.now) path.now))
            (contexts.array_variable (context_of self.now) words path.now pos)) }
    {
        let variable = self.array_variable(alloc, words, path, pos)?;
        let zeroed = Copied::one_statement(alloc, self.set_zero(path));
        let (variable, zeroed) = with_ok(variable, zeroed)?;
        zeroed.and_variable(variable)
    }

    /// The copy of a channel that a name at a place declares. The one error is want of memory.
    #[inline(never)]
    pub fn channel(
        &self,
        alloc: Global,
        scope: &mut Scope<'a>,
        name: &'a [u8],
        pos: Pos,
        streaming: bool,
    ) -> Result<Copied, Memory>
        ensures { IfOk result
            (λ copied. copy_of copied (scope_of scope.new) ≡ declarations.channel_copy
            (scope_of scope.old) name.now pos (paths.path_at self.now.path.now pos) streaming) }
    {
        let path = path_at(alloc, self.path, pos)?;
        let own = same_path(alloc, path.as_slice());
        let declared = scope.declare(name, Entity::Channel(path));
        let (_, own) = zip_ok(declared, own)?;
        Copied::nothing(alloc).and_channel(Chan {
            streaming,
            path: own,
            pos,
        })
    }

    /// The copy of a timer that a name at a place declares. The one error is want of memory.
    #[inline(never)]
    pub fn timer(
        &self,
        alloc: Global,
        scope: &mut Scope<'a>,
        name: &'a [u8],
        pos: Pos,
    ) -> Result<Copied, Memory>
        ensures { IfOk result (λ copied. copy_of copied (scope_of scope.new)
            ≡ declarations.timer_copy (context_of self.now) (scope_of scope.old) name.now pos
            (paths.path_at self.now.path.now pos)) }
    {
        let path = path_at(alloc, self.path, pos)?;
        let own = same_path(alloc, path.as_slice());
        let declared = scope.declare(name, Entity::Timer(path));
        let (_, own) = zip_ok(declared, own)?;
        Copied::nothing(alloc).and_timer(Timer {
            core: self.core,
            path: own,
            pos,
        })
    }
}
