#![tactic(auto, using(crate::proofs::Laws::Expressions::words))]

ghost use Rattle.std.specs.Prelude.{◌≡◌, [], ◌∷◌, IfOk, option_map};
ghost use Rattle.xc_tree.specs.Trees as tree;
ghost use Rattle.xc_kernel.specs.Transfers as spec;
ghost use Rattle.xc_kernel.specs.Context as contexts;
ghost use Rattle.xc_kernel.specs.Copy as copies;
ghost use Rattle.xc_kernel.specs.Kernels as kernel;
ghost use Rattle.xc_inline.specs.Contexts.{context_of};
ghost use Rattle.xc_inline.specs.Copied.{copy_of};
ghost use Rattle.xc_kernel.specs.Scopes.{Scope as Names};
ghost use Rattle.xc_inline.specs.Scopes.{entity_found, scope_of};

use crate::context::Context;
use crate::copied::Copied;
use crate::entities::resource;
use crate::expressions::{place, word};
use crate::paths::path_at;
use crate::scope::{Entity, Scope};
use std::alloc::Global;
use std::collections::VecDeque;
use xc_kernel::{KHead, KOut, Kst, Kx, Place};
use xc_tree::{Dest, Head, Send, Timed, When};
use xw_words::allocation::{push_back, then_ok, with_ok, zip_ok};
use xw_words::{List, Memory, Pos};

/// An input of the kernel, and the copy of what it declares and names, without its statement.
#[derive(Drop)]
pub struct Received {
    pub head: KHead,
    pub names: Copied,
}

/// Where the word of an input goes, and the copy of the name that it declares.
#[derive(Drop)]
struct Target {
    place: Option<Place>,
    names: Copied,
}

impl<'p, 'a> Context<'p, 'a> {
    /// The copy of an output, with its channel named. The one error is want of memory.
    #[inline(never)]
    #[tactic(auto)]
    pub fn output(&self, alloc: Global, scope: &Scope<'a>, o: &Send) -> Result<Copied, Memory>
        ensures { IfOk result (λ copied. copy_of copied (scope_of scope.now) ≡ spec.output_copy
            (context_of self.now) (scope_of scope.now) (tree.output_of o.now)) }
    {
        let output = self.sent(alloc, scope, o)?;
        let one = Copied::one_statement(alloc, Kst::Out(output));
        let named = channel_named(alloc, scope, o.name.as_slice());
        Copied::joined(named, one)
    }

    /// The kernel's output. The one error is want of memory.
    #[tactic(auto)]
    fn sent(&self, alloc: Global, scope: &Scope<'a>, o: &Send) -> Result<KOut, Memory>
        ensures { IfOk result (λ r. kernel.output_of r
            ≡ spec.output_of (context_of self.now) (scope_of scope.now) (tree.output_of o.now)) }
    {
        let res = resource(self.numbers, scope.entity(o.name.as_slice()));
        let time = self.time(alloc, scope, &o.time);
        let value = word(alloc, self.numbers, scope, &o.value);
        let stamp = self.stamp(alloc, scope, &o.stamp);
        let stamped = zip_ok(value, stamp);
        let (time, (value, stamp)) = zip_ok(time, stamped)?;
        Ok(KOut {
            res,
            time,
            value: value.value,
            stamp,
            pos: o.pos,
        })
    }

    /// The copy of an input, with its channel named and its name declared. The one error is want of memory.
    #[inline(never)]
    #[tactic(auto)]
    pub fn input(&self, alloc: Global, scope: &mut Scope<'a>, i: &'a Head) -> Result<Copied, Memory>
        ensures { IfOk result (λ copied. copy_of copied (scope_of scope.new)
            ≡ spec.input_copy (context_of self.now) (scope_of scope.old) (tree.input_of i.now)) }
    {
        let received = self.received(alloc, scope, i)?;
        received.names.and_statement(Kst::In(received.head))
    }

    /// The kernel's input, and what it declares and names. The one error is want of memory.
    #[inline(never)]
    #[tactic(auto)]
    pub fn received(
        &self,
        alloc: Global,
        scope: &mut Scope<'a>,
        i: &'a Head,
    ) -> Result<Received, Memory>
        ensures head { IfOk result (λ r. kernel.input_of r.head
            ≡ spec.input_of (context_of self.now) (scope_of scope.old) (tree.input_of i.now)) }
        ensures names { IfOk result (λ r. copy_of r.names (scope_of scope.new)
            ≡ spec.input_names (context_of self.now) (scope_of scope.old) (tree.input_of i.now)) }
    {
        let res = resource(self.numbers, scope.entity(i.name.as_slice()));
        let named = channel_named(alloc, scope, i.name.as_slice());
        let time = self.time(alloc, scope, &i.time);
        let cond = self.condition(alloc, scope, &i.cond);
        let target = self.target(alloc, scope, &i.dest);
        let stamp = self.stamp(alloc, scope, &i.stamp);
        let waits = zip_ok(time, cond);
        let ends = zip_ok(target, stamp);
        let parts = zip_ok(waits, ends);
        let (named, ((time, cond), (target, stamp))) = zip_ok(named, parts)?;
        let head = KHead {
            res,
            time,
            cond,
            dest: target.place,
            stamp,
            pos: i.pos,
        };
        let names = named.followed_by(target.names);
        let (head, names) = with_ok(head, names)?;
        Ok(Received { head, names })
    }

    /// Where the word of an input goes, and the name that the target declares. The one error is want of memory.
    #[tactic(auto, using(crate::proofs::Laws::Expressions::words))]
    fn target(
        &self,
        alloc: Global,
        scope: &mut Scope<'a>,
        target: &'a Dest,
    ) -> Result<Target, Memory>
        ensures place { IfOk result (λ r. option_map kernel.place_of r.place ≡ spec.target_of
            (context_of self.now) (scope_of scope.old) (tree.target_of target.now)) }
        ensures names { IfOk result (λ r. copy_of r.names (scope_of scope.new) ≡ spec.target_copy
            (context_of self.now) (scope_of scope.old) (tree.target_of target.now)) }
    {
        match target {
            Dest::To(e) => Ok(Target {
                place: Some(place(alloc, self.numbers, scope, e)?),
                names: Copied::nothing(alloc),
            }),
            Dest::Drop => Ok(Target {
                place: None,
                names: Copied::nothing(alloc),
            }),
            Dest::Fresh(unsigned, name, pos) => {
                let path = path_at(alloc, self.path, *pos)?;
                let number = self.numbers.variable(path.as_slice());
                drop(path);
                let names = self.declares_word(alloc, scope, name.as_slice(), *pos, *unsigned)?;
                Ok(Target {
                    place: Some(Place::Word(number)),
                    names,
                })
            }
        }
    }

    /// The time of a transfer. The one error is want of memory.
    fn time(
        &self,
        alloc: Global,
        scope: &Scope<'a>,
        time: &Option<Timed>,
    ) -> Result<Option<Kx>, Memory>
        ensures { IfOk result (λ r. option_map kernel.expression_of r ≡ option_map (spec.time_of
            (context_of self.now) (scope_of scope.now)) (option_map tree.timing_of time.now)) }
    {
        match time {
            None => Ok(None),
            Some(time) => Ok(Some(word(alloc, self.numbers, scope, &time.value)?.value)),
        }
    }

    /// The stamp of a transfer. The one error is want of memory.
    fn stamp(
        &self,
        alloc: Global,
        scope: &Scope<'a>,
        stamp: &Option<Timed>,
    ) -> Result<Option<Place>, Memory>
        ensures { IfOk result (λ r. option_map kernel.place_of r ≡ option_map (spec.stamp_of
            (context_of self.now) (scope_of scope.now)) (option_map tree.timing_of stamp.now)) }
    {
        match stamp {
            None => Ok(None),
            Some(stamp) => Ok(Some(place(alloc, self.numbers, scope, &stamp.value)?)),
        }
    }

    /// The condition of an input. The one error is want of memory.
    fn condition(
        &self,
        alloc: Global,
        scope: &Scope<'a>,
        condition: &Option<When>,
    ) -> Result<Option<(u8, Kx)>, Memory>
        ensures { IfOk result (λ r. option_map kernel.condition_of r
            ≡ option_map (spec.condition_of (context_of self.now) (scope_of scope.now))
            (option_map tree.condition_of condition.now)) }
    {
        match condition {
            None => Ok(None),
            Some(when) => {
                let value = word(alloc, self.numbers, scope, &when.value)?.value;
                Ok(Some((when.test, value)))
            }
        }
    }

    /// A word variable that a name at a place declares. The one error is want of memory.
    #[tactic(auto)]
    pub fn declares_word(
        &self,
        alloc: Global,
        scope: &mut Scope<'a>,
        name: &'a [u8],
        pos: Pos,
        unsigned: bool,
    ) -> Result<Copied, Memory>
        ensures { IfOk result
            (λ copied. copy_of copied (scope_of scope.new) ≡ contexts.declares_word
            (context_of self.now) name.now pos unsigned (scope_of scope.old)) }
    {
        let path = path_at(alloc, self.path, pos)?;
        let variable = self.word_variable(alloc, true, path.as_slice(), pos);
        let declared = scope.declare(name, Entity::Word(path, unsigned));
        let (_, variable) = zip_ok(declared, variable)?;
        Copied::nothing(alloc).and_variable(variable)
    }
}

/// The copy of a communication without its statement: it names what a name stands for, where that is a channel. The one error
/// is want of memory.
fn channel_named(alloc: Global, scope: &Scope, name: &[u8]) -> Result<Copied, Memory>
    ensures { IfOk result (λ copied. (behind : Names) → copy_of copied behind
        ≡ spec.naming (scope_of scope.now) name.now (copies.no_copy behind)) }
{
    let named = channels_in(alloc, scope.entity(name))?;
    Ok(Copied {
        code: VecDeque::new(alloc),
        variables: VecDeque::new(alloc),
        channels: VecDeque::new(alloc),
        timers: VecDeque::new(alloc),
        blocks: VecDeque::new(alloc),
        instances: VecDeque::new(alloc),
        named,
    })
}

/// The channel that a name stands for, if it does. The one error is want of memory.
fn channels_in(alloc: Global, entity: Option<&Entity>) -> Result<VecDeque<List<u32>>, Memory>
    ensures { IfOk result (λ paths. paths.items ≡ spec.channel_of (entity_found entity.entry)) }
{
    match entity {
        Some(Entity::Channel(path)) => one_path(alloc, path),
        Some(Entity::Word(_, _)) => Ok(VecDeque::new(alloc)),
        Some(Entity::Array(_, _, _)) => Ok(VecDeque::new(alloc)),
        Some(Entity::Element(_, _, _)) => Ok(VecDeque::new(alloc)),
        Some(Entity::Timer(_)) => Ok(VecDeque::new(alloc)),
        Some(Entity::Port(_)) => Ok(VecDeque::new(alloc)),
        Some(Entity::Constant(_)) => Ok(VecDeque::new(alloc)),
        Some(Entity::Unknown) => Ok(VecDeque::new(alloc)),
        None => Ok(VecDeque::new(alloc)),
    }
}

/// One path by itself. The one error is want of memory.
fn one_path(alloc: Global, path: &List<u32>) -> Result<VecDeque<List<u32>>, Memory>
    ensures { IfOk result (λ paths. paths.items ≡ path.now ∷ []) }
{
    let own = path.copy(alloc)?;
    let mut paths = VecDeque::new(alloc);
    let pushed = push_back(&mut paths, own);
    then_ok(pushed, paths)
}
