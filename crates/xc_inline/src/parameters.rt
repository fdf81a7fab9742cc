#![tactic(auto, using(crate::proofs::Laws::Expressions::words))]

ghost use Rattle.std.specs.Prelude.{◌≡◌, false, IfOk, map, min};
ghost use Rattle.xc_tree.specs.Trees as tree;
ghost use Rattle.xc_kernel.specs.Parameters as spec;
ghost use Rattle.xc_kernel.specs.Context as contexts;
ghost use Rattle.xc_kernel.specs.Copy as copies;
ghost use Rattle.xc_kernel.specs.Kernels as kernel;
ghost use Rattle.xc_kernel.specs.Scopes.{Scope as Names};
ghost use Rattle.xc_inline.specs.Contexts.{context_of};
ghost use Rattle.xc_inline.specs.Copied.{copy_of};
ghost use Rattle.xc_inline.specs.Handed.{IsPassed};
ghost use Rattle.xc_inline.specs.Scopes.{entity_found, entity_meant, scope_of};

use crate::context::Context;
use crate::copied::Copied;
use crate::expressions::{index_test, word};
use crate::paths::path_at;
use crate::scope::{Entity, Scope};
use std::alloc::Global;
use xc_kernel::Kx;
use xc_tree::{Arg, Ex, Expr, Param, ParamKind};
use xw_words::allocation::{then_ok, with_ok, zip_ok};
use xw_words::{Memory, Pos};

/// What a call stores for a parameter and the parameter's variable, and what its name then stands for.
#[derive(Drop)]
pub struct Handed {
    pub copied: Copied,
    pub entity: Entity,
}

/// What a call stores for all its parameters, and the names that are known in the function.
#[derive(Drop)]
pub struct Entered<'a> {
    pub copied: Copied,
    pub scope: Scope<'a>,
}

impl<'a> Entered<'a> {
    /// With the ports alone.
    #[tactic(auto)]
    fn with(alloc: Global, ports: Scope<'a>) -> Entered<'a>
        ensures { copy_of result.copied (scope_of result.scope)
            ≡ copies.no_copy (scope_of ports.entry) }
    {
        Entered {
            copied: Copied::nothing(alloc),
            scope: ports,
        }
    }

    /// What is handed to a parameter of this name, before what is to the others. The one error is want of memory.
    #[tactic(auto)]
    fn behind(self, name: &'a [u8], handed: Handed) -> Result<Entered<'a>, Memory>
        ensures { IfOk result (λ entered. (p : spec.Passed) → IsPassed p handed →
            copy_of entered.copied (scope_of entered.scope) ≡ spec.and_passed name.now p
            (copy_of self.entry.copied (scope_of self.entry.scope))) }
    {
        let Entered { copied, mut scope } = self;
        let Handed {
            copied: first,
            entity,
        } = handed;
        let declared = scope.declare(name, entity);
        let copied = first.followed_by(copied);
        let scope = then_ok(declared, scope);
        let (copied, scope) = zip_ok(copied, scope)?;
        Ok(Entered { copied, scope })
    }
}

impl<'p, 'a> Context<'p, 'a> {
    /// The names that each function knows. The one error is want of memory.
    #[tactic(auto)]
    pub fn scope_of_ports(&self, alloc: Global) -> Result<Scope<'a>, Memory>
        ensures { IfOk result (λ scope. scope_of scope ≡ (context_of self.now).ports) }
    {
        let mut scope = Scope::new(alloc);
        let mut left = self.ports.len();
        'ports: while 0 < left {
            left -= 1;
            scope.declare(self.ports[left], Entity::Port(left as u32))?;
        }
        Ok(scope)
    }

    /// All arguments of a call, from left to right; a function knows the ports and its parameters. The one error is want of
    /// memory.
    #[inline(never)]
    #[tactic(auto)]
    pub fn all_passed(
        &self,
        alloc: Global,
        scope: &Scope<'a>,
        own: &[u32],
        params: &'a [Param],
        args: &[Arg],
    ) -> Result<Entered<'a>, Memory>
        ensures { IfOk result (λ entered. copy_of entered.copied (scope_of entered.scope)
            ≡ spec.all_passed (context_of self.now) (scope_of scope.now) own.now params.now
            (map tree.argument_of args.now)) }
    {
        let ports = self.scope_of_ports(alloc)?;
        let mut entered = Entered::with(alloc, ports);
        let mut left = least(params.len(), args.len());
        'backward: while 0 < left {
            left -= 1;
            let param = &params[left];
            let handed = self.passed(alloc, scope, own, param, &args[left].value);
            let (others, handed) = with_ok(entered, handed)?;
            entered = others.behind(param.name.text.as_slice(), handed)?;
        }
        Ok(entered)
    }

    /// An argument for a parameter, in a call of this path. The one error is want of memory.
    fn passed(
        &self,
        alloc: Global,
        scope: &Scope<'a>,
        own: &[u32],
        param: &Param,
        argument: &Expr,
    ) -> Result<Handed, Memory>
        ensures { IfOk result
            (λ handed. IsPassed (spec.passed (context_of self.now) (scope_of scope.now)
            own.now param.now.name.pos param.now.kind (tree.expression_of argument.now)) handed) }
    {
        match &param.kind {
            ParamKind::Value(unsigned) => {
                self.by_value(alloc, scope, own, param.name.pos, *unsigned, argument)
            }
            ParamKind::Ref(_) => self.by_reference(alloc, scope, own, param.name.pos, argument),
            ParamKind::Array(_, _) => by_name(alloc, scope, argument),
            ParamKind::End(_) => by_name(alloc, scope, argument),
            ParamKind::Port(_) => by_name(alloc, scope, argument),
        }
    }

    /// By value: a variable of its own holds the argument's word. The one error is want of memory.
    #[tactic(auto)]
    fn by_value(
        &self,
        alloc: Global,
        scope: &Scope<'a>,
        own: &[u32],
        pos: Pos,
        unsigned: bool,
        argument: &Expr,
    ) -> Result<Handed, Memory>
        ensures { IfOk result (λ handed. IsPassed (spec.by_value (context_of self.now)
            (scope_of scope.now) own.now pos unsigned (tree.expression_of argument.now)) handed) }
    {
        let path = path_at(alloc, own, pos);
        let value = word(alloc, self.numbers, scope, argument);
        let (path, value) = zip_ok(path, value)?;
        let copied = self.stored(alloc, path.as_slice(), pos, value.value);
        let (path, copied) = with_ok(path, copied)?;
        Ok(Handed {
            copied,
            entity: Entity::Word(path, unsigned),
        })
    }

    /// By reference: a name, or an element. The one error is want of memory.
    fn by_reference(
        &self,
        alloc: Global,
        scope: &Scope<'a>,
        own: &[u32],
        pos: Pos,
        argument: &Expr,
    ) -> Result<Handed, Memory>
        ensures { IfOk result (λ handed. IsPassed (spec.by_reference (context_of self.now)
            (scope_of scope.now) own.now pos (tree.expression_of argument.now)) handed) }
    {
        match &argument.kind {
            Ex::Name(name) => stands_for(alloc, scope.entity(name.as_slice())),
            Ex::Index(name, index) => match scope.entity(name.as_slice()) {
                None => stands_for(alloc, None),
                Some(array) => {
                    self.by_element(alloc, scope, own, pos, index, argument.pos, array)
                }
            },
            _ => stands_for(alloc, None),
        }
    }

    /// An element by reference: a variable of its own holds the index, which is tested at the call. The one error is want of
    /// memory.
    #[tactic(auto)]
    fn by_element(
        &self,
        alloc: Global,
        scope: &Scope<'a>,
        own: &[u32],
        pos: Pos,
        index: &Expr,
        array_pos: Pos,
        array: &Entity,
    ) -> Result<Handed, Memory>
        ensures { IfOk result (λ handed.
            IsPassed (spec.by_element (context_of self.now) (scope_of scope.now) own.now pos
            (tree.expression_of index.now) array_pos (entity_meant array.now)) handed) }
    {
        match array {
            Entity::Array(path, words, unsigned) => {
                let array = path.copy(alloc);
                let own = path_at(alloc, own, pos);
                let paths = zip_ok(array, own);
                let test = self.tested(alloc, scope, index, *words, array_pos);
                let ((array, own), test) = zip_ok(paths, test)?;
                let copied = self.stored(alloc, own.as_slice(), pos, test);
                let ((array, own), copied) = with_ok((array, own), copied)?;
                Ok(Handed {
                    copied,
                    entity: Entity::Element(array, own, *unsigned),
                })
            }
            _ => stands_for(alloc, None),
        }
    }

    /// An index that is tested by the length of an array. The one error is want of memory.
    #[tactic(auto)]
    fn tested(
        &self,
        alloc: Global,
        scope: &Scope<'a>,
        index: &Expr,
        words: u32,
        pos: Pos,
    ) -> Result<Kx, Memory>
        ensures { IfOk result
            (λ test. kernel.expression_of test ≡ spec.index_test (context_of self.now)
            (scope_of scope.now) (tree.expression_of index.now) words pos) }
    {
        let index = word(alloc, self.numbers, scope, index)?;
        index_test(alloc, index.value, words, pos)
    }

    /// The copy of a parameter's variable of this path, which holds a word. The one error is want of memory.
    #[tactic(auto)]
    fn stored(&self, alloc: Global, path: &[u32], pos: Pos, value: Kx) -> Result<Copied, Memory>
        ensures { IfOk result (λ copied. (behind : Names) → copy_of copied behind
            ≡ copies.with_variable (copies.one_statement behind
            (contexts.set_word (context_of self.now) path.now (kernel.expression_of value)))
            (contexts.word_variable (context_of self.now) false path.now pos)) }
    {
        let stored = Copied::one_statement(alloc, self.set_word(path, value));
        let variable = self.word_variable(alloc, false, path, pos);
        let (stored, variable) = zip_ok(stored, variable)?;
        stored.and_variable(variable)
    }
}

/// The smaller of two numbers.
fn least(a: usize, b: usize) -> usize
    ensures { result ≡ min a b }
{
    if a < b { a } else { b }
}

/// A whole array, a channel or a port: a name. The one error is want of memory.
fn by_name(alloc: Global, scope: &Scope, argument: &Expr) -> Result<Handed, Memory>
    ensures { IfOk result (λ handed.
        IsPassed (spec.by_name (scope_of scope.now) (tree.expression_of argument.now)) handed) }
{
    match &argument.kind {
        Ex::Name(name) => stands_for(alloc, scope.entity(name.as_slice())),
        _ => stands_for(alloc, None),
    }
}

/// The parameter stands for what the argument stands for. The one error is want of memory.
fn stands_for(alloc: Global, entity: Option<&Entity>) -> Result<Handed, Memory>
    ensures { IfOk result
        (λ handed. IsPassed (spec.stands_for (entity_found entity.entry)) handed) }
{
    let entity = match entity {
        None => Entity::Unknown,
        Some(entity) => entity.copy(alloc)?,
    };
    Ok(Handed {
        copied: Copied::nothing(alloc),
        entity,
    })
}
