ghost use Rattle.std.specs.Prelude.{◌≡◌, ◌<◌, ◌≤◌, ◌-◌, ◌^◌, [], length, IfOk, OnOk, map, option_map};
ghost use Rattle.xc_tree.specs.Plain as plain;
ghost use Rattle.xc_tree.specs.Trees as tree;
ghost use Rattle.xc_tree.specs.declared.tree.Stmt.{out-Stmt};
ghost use Rattle.xc_kernel.specs.Copy as copies;
ghost use Rattle.xc_kernel.specs.Scopes.{Scope as Names};
ghost use Rattle.std.specs.Option.{IfSome};
ghost use Rattle.xc_inline.specs.Copied.{copy_of};
ghost use Rattle.xc_kernel.specs.Ports as ports_spec;
ghost use Rattle.xc_kernel.specs.Roots as spec;
ghost use Rattle.xc_kernel.specs.Statements.{calls_copy};
ghost use Rattle.xc_inline.specs.Contexts.{context_of, functions_of, ports_from};
ghost use Rattle.xc_inline.specs.Functions.{deepest, function_of};
ghost use Rattle.xc_tree.specs.Heights.{height};
ghost use Rattle.xc_inline.specs.Numbers.{numbering_of};
ghost use Rattle.xc_inline.specs.Roots.{rooted_by, rooted_of};
ghost use Rattle.xc_inline.specs.Scopes.{scope_of};

use crate::context::Context;
use crate::copied::Copied;
use crate::eval::eval;
use crate::expressions::word;
use crate::functions::Functions;
use crate::numbers::Numbers;
use crate::paths::path_of_branch;
use crate::scope::{Entity, Scope};
use std::alloc::Global;
use xc_kernel::Root;
use xc_tree::{Arg, At, Branch, FuncItem, Id, St, Stmt};
use xw_words::allocation::then_ok;
use xw_words::{List, Memory, Pos};

/// The greatest number of a core.
const LAST_CORE: u32 = 3;

/// What stands for the core of a place that names none.
const NO_CORE: u8 = 255;

/// Roots, and the copy of what they make, without their statements.
#[derive(Drop)]
pub struct Rooted {
    pub made: Copied,
    pub roots: List<Root>,
}

impl Rooted {
    /// No root.
    fn none(alloc: Global) -> Rooted
        ensures { (scope : Names) → rooted_of result scope ≡ spec.no_roots (copies.no_copy scope) }
    {
        Rooted {
            made: Copied::nothing(alloc),
            roots: List::new(alloc),
        }
    }

    /// More instances behind, without a root. The one error is want of memory.
    fn add_copy(&mut self, alloc: Global, copied: Copied) -> Result<(), Memory>
        ensures { OnOk result ((before behind : Names) → rooted_of self.new behind ≡ spec.and_roots
            (rooted_of self.old before) (spec.no_roots (copy_of copied behind))) }
    {
        let mut copied = copied;
        let _code = copied.take_code(alloc);
        self.made.join(copied)
    }

    /// One more root behind, by the copy of its statement. The one error is want of memory.
    fn add_root(
        &mut self,
        alloc: Global,
        core: u8,
        place: Pos,
        pos: Pos,
        copied: Copied,
    ) -> Result<(), Memory>
        ensures { OnOk result ((before behind : Names) → rooted_of self.new behind ≡ spec.and_roots
            (rooted_of self.old before) (spec.root_of core place pos (copy_of copied behind))) }
    {
        let mut copied = copied;
        let body = copied.take_code(alloc);
        let joined = self.made.join(copied);
        let body = then_ok(joined, body)?;
        self.roots.push(Root {
            core,
            place,
            body,
            pos,
        })
    }
}

/// The roots of a program with their instances, by a numbering of instances. The one error is want of memory.
pub fn roots_by_numbers<'a>(
    alloc: Global,
    functions: &Functions<'a>,
    ports: &[&'a [u8]],
    numbers: &Numbers,
) -> Result<Rooted, Memory>
    requires ports { length ports.now < 2 ^ 32 }
    ensures { IfOk result (λ r. rooted_of r (rooted_by (functions_of functions.now)
        (ports_from 0 ports.now) (numbering_of numbers.now)).made.scope ≡ rooted_by
        (functions_of functions.now) (ports_from 0 ports.now) (numbering_of numbers.now)) }
{
    let context = Context {
        functions,
        ports,
        numbers,
        core: 0,
        path: &[],
        result: &[],
        returns: &[],
        breaks: &[],
        continues: &[],
    };
    let main = functions.main();
    context.roots(alloc, functions.len(), main)
}

impl<'p, 'a> Context<'p, 'a> {
    /// The roots of a program by its main, where that is there. The one error is want of memory.
    fn roots(
        &self,
        alloc: Global,
        calls: usize,
        main: Option<&'a FuncItem>,
    ) -> Result<Rooted, Memory>
        requires height { IfSome main (λ f.
            height (tree.statement_of f.now.body) ≤ deepest self.now.functions.now.all.items) }
        requires parameters { IfSome main (λ f. length f.now.params < 2 ^ 32) }
        ensures { IfOk result (λ r. rooted_of r (spec.roots_of (calls_copy calls)
            (option_map (λ f. function_of f.now) main.entry) (context_of self.now)).made.scope
            ≡ spec.roots_of (calls_copy calls) (option_map (λ f. function_of f.now) main.entry)
            (context_of self.now)) }
    {
        match main {
            None => Ok(Rooted::none(alloc)),
            Some(main) => self.roots_by_main(alloc, calls, main),
        }
    }

    /// The roots of a program by its main. The one error is as for `roots`.
    fn roots_by_main(
        &self,
        alloc: Global,
        calls: usize,
        main: &'a FuncItem,
    ) -> Result<Rooted, Memory>
        requires height { height
            (tree.statement_of main.now.body) ≤ deepest self.now.functions.now.all.items }
        requires parameters { length main.now.params < 2 ^ 32 }
        ensures { IfOk result (λ r. rooted_of r (spec.roots_of (calls_copy calls)
            (Some (function_of main.now)) (context_of self.now)).made.scope ≡ spec.roots_of
            (calls_copy calls) (Some (function_of main.now)) (context_of self.now)) }
    {
        if block_has_placed(in_block(&main.body)) {
            self.placed_roots(alloc, calls, main)
        } else {
            self.main_root(alloc, calls, main)
        }
    }

    /// Main as the one root, by the empty path. The one error is as for `roots`.
    fn main_root(&self, alloc: Global, calls: usize, main: &'a FuncItem) -> Result<Rooted, Memory>
        requires height { height
            (tree.statement_of main.now.body) ≤ deepest self.now.functions.now.all.items }
        requires parameters { length main.now.params < 2 ^ 32 }
        ensures { IfOk result (λ r. rooted_of r (context_of self.now).ports
            ≡ spec.main_root (calls_copy calls) (function_of main.now) (context_of self.now)) }
    {
        let scope: Scope<'a> = self.scope_of_ports(alloc)?;
        let own: &[u32] = &[];
        let arguments: &'a [Arg] = &[];
        let made = (&*self).function(alloc, calls, own, main, arguments, &scope);
        drop(scope);
        let copied = made?;
        let mut root = Rooted::none(alloc);
        let added = root.add_root(alloc, 0, main.name.pos, main.name.pos, copied);
        then_ok(added, root)
    }

    /// Where a branch of main's is placed: main's instance and its branches. The one error is as for `roots`.
    fn placed_roots(
        &self,
        alloc: Global,
        calls: usize,
        main: &'a FuncItem,
    ) -> Result<Rooted, Memory>
        requires parameters { length main.now.params < 2 ^ 32 }
        ensures { IfOk result (λ r. rooted_of r (spec.placed_roots (calls_copy calls)
            (function_of main.now) (context_of self.now)).made.scope
            ≡ spec.placed_roots (calls_copy calls) (function_of main.now) (context_of self.now)) }
    {
        let mut scope = self.scope_of_ports(alloc)?;
        let rooted = self.roots_in_block(alloc, calls, main, &mut scope);
        drop(scope);
        rooted
    }

    /// The same, where the ports' names are known. The one error is as for `roots`.
    fn roots_in_block(
        &self,
        alloc: Global,
        calls: usize,
        main: &'a FuncItem,
        scope: &mut Scope<'a>,
    ) -> Result<Rooted, Memory>
        requires parameters { length main.now.params < 2 ^ 32 }
        requires ports { scope_of scope.old ≡ (context_of self.now).ports }
        ensures { IfOk result (λ r. rooted_of r (spec.placed_roots (calls_copy calls)
            (function_of main.now) (context_of self.now)).made.scope
            ≡ spec.placed_roots (calls_copy calls) (function_of main.now) (context_of self.now)) }
    {
        let instance = self.instance(alloc, main)?;
        let mut begun = Rooted::none(alloc);
        let added = begun.add_copy(alloc, instance);
        let mut rooted = then_ok(added, begun)?;
        let block = in_block(&main.body);
        for s in block {
            let more = self.statement_roots(alloc, calls, main.name.pos, s, &mut rooted, scope);
            rooted = then_ok(more, rooted)?;
        }
        Ok(rooted)
    }

    /// Main's declarations, and the branches of its `par`, behind other roots. The one error is as for `roots`.
    fn statement_roots(
        &self,
        alloc: Global,
        calls: usize,
        main: Pos,
        s: &'a Stmt,
        rooted: &mut Rooted,
        scope: &mut Scope<'a>,
    ) -> Result<(), Memory>
        ensures { OnOk result (rooted_of rooted.new (scope_of scope.new) ≡ spec.roots_then
            (rooted_of rooted.old (scope_of scope.old)) (spec.action_roots (calls_copy calls)
            main (tree.action_of (out-Stmt s.now).kind.value) (context_of self.now))) }
    {
        match &*s.kind {
            St::Decl(ds) => {
                let copied = self.declarations(alloc, calls, ds.as_slice(), scope)?;
                rooted.add_copy(alloc, copied)
            }
            St::Par(bs) => self.branch_roots(alloc, calls, main, bs.as_slice(), rooted, scope),
            St::Repl {
                first,
                from,
                to,
                body,
                ..
            } => self.numbered_roots(alloc, calls, main, first, *from, *to, body, rooted, scope),
            _ => Ok(()),
        }
    }

    /// The branches of a `par`, behind other roots. The one error is as for `roots`.
    fn branch_roots(
        &self,
        alloc: Global,
        calls: usize,
        main: Pos,
        bs: &'a [Branch],
        rooted: &mut Rooted,
        scope: &mut Scope<'a>,
    ) -> Result<(), Memory>
        ensures { OnOk result (rooted_of rooted.new (scope_of scope.new) ≡ spec.roots_then
            (rooted_of rooted.old (scope_of scope.old)) (spec.branch_roots (calls_copy calls)
            main (plain.branches (map tree.branch_of bs.now)) 0 (context_of self.now))) }
    {
        for (index, b) in bs.iter().enumerate() {
            let path = path_of_branch(alloc, self.path, index)?;
            let added = (&*self)
                .in_branch(path.as_slice())
                .branch_root(alloc, calls, main, b, rooted, scope);
            drop(path);
            added?;
        }
        Ok(())
    }

    /// The copies of a replicated branch, behind other roots. The one error is as for `roots`.
    fn numbered_roots(
        &self,
        alloc: Global,
        calls: usize,
        main: Pos,
        name: &'a Id,
        from: u32,
        until: u32,
        b: &'a Branch,
        rooted: &mut Rooted,
        scope: &mut Scope<'a>,
    ) -> Result<(), Memory>
        ensures { OnOk result (rooted_of rooted.new (scope_of scope.new)
            ≡ spec.and_roots (rooted_of rooted.old (scope_of scope.old))
            (spec.numbered_roots (calls_copy calls) main (tree.branch_of b.now) name.now.text
            (context_of self.now) (scope_of scope.old) (until - from) 0 from)) }
    {
        let known = scope.len();
        for number in from..until {
            let path = path_of_branch(alloc, self.path, (number - from) as usize)?;
            let declared = scope.declare(name.text.as_slice(), Entity::Constant(number));
            let path = then_ok(declared, path)?;
            let added = (&*self)
                .in_branch(path.as_slice())
                .branch_root(alloc, calls, main, b, rooted, scope);
            drop(path);
            added?;
            scope.leave(known);
        }
        Ok(())
    }

    /// A branch of main's on its core, behind other roots. The one error is as for `roots`.
    fn branch_root(
        &self,
        alloc: Global,
        calls: usize,
        main: Pos,
        b: &'a Branch,
        rooted: &mut Rooted,
        scope: &mut Scope<'a>,
    ) -> Result<(), Memory>
        ensures { OnOk result (rooted_of rooted.new (scope_of scope.new)
            ≡ spec.roots_then (rooted_of rooted.old (scope_of scope.old)) (spec.branch_root
            (calls_copy calls) main (tree.branch_of b.now) (context_of self.now))) }
    {
        let core = core_of(alloc, &b.place, scope)?;
        let copied = (&*self)
            .on_core(core)
            .statement(alloc, calls, &b.body, scope)?;
        let place = pos_of_place(main, &b.place);
        rooted.add_root(alloc, core, place, b.body.pos, copied)
    }
}

/// The core that a place names, or 255 where it names none of 0 to 3; what isn't placed is on core 0. The one error is want of
/// memory.
fn core_of(alloc: Global, place: &Option<At>, scope: &Scope) -> Result<u8, Memory>
    ensures { IfOk result (λ core. core
        ≡ ports_spec.core_of (scope_of scope.now) (option_map tree.place_of place.now)) }
{
    match place {
        None => Ok(0),
        Some(place) => {
            let none = Numbers::none(alloc);
            let read = word(alloc, &none, scope, &place.value);
            drop(none);
            let value = read?.value;
            let number = eval(&value);
            drop(value);
            match number {
                Some(number) => Ok(if number <= LAST_CORE {
                    number as u8
                } else {
                    NO_CORE
                }),
                None => Ok(NO_CORE),
            }
        }
    }
}

/// The same outside of functions, where no name is known.
pub fn core_outside(alloc: Global, place: &Option<At>) -> Result<u8, Memory>
    ensures { IfOk result (λ core. core
        ≡ ports_spec.core_of [] (option_map tree.place_of place.now)) }
{
    let none = Scope::new(alloc);
    let core = core_of(alloc, place, &none);
    drop(none);
    core
}

/// The first token of a place's expression, or else another position.
pub fn pos_of_place(other: Pos, place: &Option<At>) -> Pos
    ensures { result ≡ ports_spec.pos_of_place other (option_map tree.place_of place.now) }
{
    match place {
        None => other,
        Some(place) => place.first,
    }
}

/// The statements directly in a block.
#[tactic(auto, using(crate::proofs::Laws::Kinds::blocks))]
fn in_block(s: &Stmt) -> &[Stmt]
    ensures { plain.statements (map tree.statement_of result.now)
        ≡ spec.in_block (tree.statement_of s.now) }
{
    match &*s.kind {
        St::Block(ss) => ss.as_slice(),
        _ => &[],
    }
}

/// Whether a `par` directly in a block has a placed branch.
#[tactic(auto, using(crate::proofs::Laws::Roots::block_placed_step))]
fn block_has_placed(ss: &[Stmt]) -> bool
    ensures { result ≡ spec.block_has_placed (plain.statements (map tree.statement_of ss.now)) }
{
    for s in ss {
        if has_placed(s) {
            return true;
        }
    }
    false
}

/// Whether a statement is a `par` with a placed branch; one that is replicated has branches where its first number is below its
/// second.
#[tactic(auto, using(crate::proofs::Laws::Kinds::pars))]
fn has_placed(s: &Stmt) -> bool
    ensures { result ≡ spec.action_has_placed (tree.action_of (out-Stmt s.now).kind.value) }
{
    match &*s.kind {
        St::Par(bs) => some_placed(bs.as_slice()),
        St::Repl { from, to, body, .. } => body.place.is_some() && *from < *to,
        _ => false,
    }
}

/// Whether some branch is placed.
#[tactic(auto, using(crate::proofs::Laws::Roots::placed_step))]
fn some_placed(bs: &[Branch]) -> bool
    ensures { result ≡ spec.has_placed (plain.branches (map tree.branch_of bs.now)) }
{
    for b in bs {
        if b.place.is_some() {
            return true;
        }
    }
    false
}
