ghost use Rattle.std.specs.Prelude.{◌≡◌, [], ◌∷◌, ◌++◌, IfOk, OnOk, map};
ghost use Rattle.xc_kernel.specs.Scopes.{Scope as Names};
ghost use Rattle.xc_kernel.specs.Calls.{naming_none};
ghost use Rattle.xc_kernel.specs.Copy as spec;
ghost use Rattle.xc_kernel.specs.Flow.{first_of};
ghost use Rattle.xc_kernel.specs.Kernels.{statement_of};
ghost use Rattle.xc_inline.specs.Copied.{copy_of};

use std::alloc::Global;
use std::collections::VecDeque;
use std::mem;
use xc_kernel::{Chan, Inst, Kst, Timer, Var};
use xw_words::allocation::{append, push_back, push_front, then_ok, with_ok, zip_ok};
use xw_words::{List, Memory};

/// The copy of a piece of a program: its statements, and the instances that it makes in order of first sight.
#[derive(Drop)]
pub struct Copied {
    pub code: VecDeque<Kst>,
    pub variables: VecDeque<Var>,
    pub channels: VecDeque<Chan>,
    pub timers: VecDeque<Timer>,
    pub blocks: VecDeque<List<u32>>,
    /// The instances of functions.
    pub instances: VecDeque<Inst>,
    /// The channels that its communications name, without those in functions that it calls.
    pub named: VecDeque<List<u32>>,
}

impl Copied {
    /// The copy of nothing.
    pub fn nothing(alloc: Global) -> Copied
        ensures { (scope : Names) → copy_of result scope ≡ spec.no_copy scope }
    {
        Copied {
            code: VecDeque::new(alloc),
            variables: VecDeque::new(alloc),
            channels: VecDeque::new(alloc),
            timers: VecDeque::new(alloc),
            blocks: VecDeque::new(alloc),
            instances: VecDeque::new(alloc),
            named: VecDeque::new(alloc),
        }
    }

    /// The copy that is one statement. The one error is want of memory.
    pub fn one_statement(alloc: Global, statement: Kst) -> Result<Copied, Memory>
        ensures { IfOk result (λ copied. (scope : Names) → copy_of copied scope
            ≡ spec.one_statement scope (statement_of statement)) }
    {
        let nothing = Copied::nothing(alloc);
        nothing.and_statement(statement)
    }

    /// One more statement, behind the others. The one error is want of memory.
    pub fn and_statement(self, statement: Kst) -> Result<Copied, Memory>
        ensures { IfOk result (λ copied. (scope : Names) → copy_of copied scope ≡ spec.with_code
            (copy_of self scope) ((copy_of self scope).code ++ statement_of statement ∷ [])) }
    {
        let mut copied = self;
        let added = push_back(&mut copied.code, statement);
        then_ok(added, copied)
    }

    /// The instances of a copy, with one statement in place of its own. The one error is want of memory.
    pub fn with_statement(self, alloc: Global, statement: Kst) -> Result<Copied, Memory>
        ensures { IfOk result (λ copied. (scope : Names) → copy_of copied scope
            ≡ spec.with_code (copy_of self scope) (statement_of statement ∷ [])) }
    {
        let mut made = self;
        let _replaced = made.take_code(alloc);
        made.and_statement(statement)
    }

    /// The copy followed by another. The one error is want of memory.
    #[inline(never)]
    pub fn followed_by(self, other: Copied) -> Result<Copied, Memory>
        ensures { IfOk result (λ both. (before after : Names) → copy_of both after
            ≡ spec.joined (copy_of self before) (copy_of other after)) }
    {
        let mut copied = self;
        let joined = copied.join(other);
        then_ok(joined, copied)
    }

    /// The copy followed by another, where that could be made. The one error is want of memory.
    #[inline(never)]
    pub fn with_next(self, next: Result<Copied, Memory>) -> Result<Copied, Memory>
        ensures { IfOk result (λ both. (before after : Names) (other : spec.Copy) →
            IfOk next (λ n. copy_of n after ≡ other) → copy_of both after
            ≡ spec.joined (copy_of self before) other) }
    {
        let (first, next) = with_ok(self, next)?;
        first.followed_by(next)
    }

    /// Two copies, one behind the other, where both could be made. The one error is want of memory.
    #[inline(never)]
    pub fn joined(
        first: Result<Copied, Memory>,
        second: Result<Copied, Memory>,
    ) -> Result<Copied, Memory>
        ensures { IfOk result (λ both. (before after : Names) (one other : spec.Copy) →
            IfOk first (λ f. copy_of f before ≡ one) → IfOk second (λ s. copy_of s after ≡ other) →
            copy_of both after ≡ spec.joined one other) }
    {
        let (first, second) = zip_ok(first, second)?;
        first.followed_by(second)
    }

    /// One more variable, seen before the others. The one error is want of memory.
    pub fn and_variable(self, variable: Var) -> Result<Copied, Memory>
        ensures { IfOk result (λ copied. (scope : Names) → copy_of copied scope
            ≡ spec.with_variable (copy_of self scope) variable) }
    {
        let mut copied = self;
        let added = push_front(&mut copied.variables, variable);
        then_ok(added, copied)
    }

    /// One more block, seen before the others. The one error is want of memory.
    pub fn and_block(self, path: List<u32>) -> Result<Copied, Memory>
        ensures { IfOk result (λ copied. (scope : Names) → copy_of copied scope
            ≡ spec.with_block (copy_of self scope) path) }
    {
        let mut copied = self;
        let added = push_front(&mut copied.blocks, path);
        then_ok(added, copied)
    }

    /// One more channel, behind the others. The one error is want of memory.
    pub fn and_channel(self, channel: Chan) -> Result<Copied, Memory>
        ensures { IfOk result (λ copied. (scope : Names) → copy_of copied scope ≡ record
            (copy_of self scope) { channels = (copy_of self scope).channels ++ channel ∷ [] }) }
    {
        let mut copied = self;
        let added = push_back(&mut copied.channels, channel);
        then_ok(added, copied)
    }

    /// One more timer, behind the others. The one error is want of memory.
    pub fn and_timer(self, timer: Timer) -> Result<Copied, Memory>
        ensures { IfOk result (λ copied. (scope : Names) → copy_of copied scope ≡ record
            (copy_of self scope) { timers = (copy_of self scope).timers ++ timer ∷ [] }) }
    {
        let mut copied = self;
        let added = push_back(&mut copied.timers, timer);
        then_ok(added, copied)
    }

    /// One more instance of a function, behind the others. The one error is want of memory.
    pub fn and_instance(self, instance: Inst) -> Result<Copied, Memory>
        ensures { IfOk result
            (λ copied. (scope : Names) → copy_of copied scope ≡ record (copy_of self
            scope) { instances = (copy_of self scope).instances ++ instance ∷ [] }) }
    {
        let mut copied = self;
        let added = push_back(&mut copied.instances, instance);
        then_ok(added, copied)
    }

    /// Another copy behind this one, in place. The one error is want of memory.
    #[inline(never)]
    pub fn join(&mut self, other: Copied) -> Result<(), Memory>
        ensures { OnOk result ((before after : Names) → copy_of self.new after
            ≡ spec.joined (copy_of self.old before) (copy_of other after)) }
    {
        let mut other = other;
        let joined = self.append(&mut other);
        drop(other);
        joined
    }

    /// All that another copy holds behind what this one does. The one error is want of memory.
    fn append(&mut self, other: &mut Copied) -> Result<(), Memory>
        ensures { OnOk result ((before after : Names) → copy_of self.new after
            ≡ spec.joined (copy_of self.old before) (copy_of other.old after)) }
    {
        append(&mut self.code, &mut other.code)?;
        append(&mut self.variables, &mut other.variables)?;
        append(&mut self.channels, &mut other.channels)?;
        append(&mut self.timers, &mut other.timers)?;
        append(&mut self.blocks, &mut other.blocks)?;
        append(&mut self.instances, &mut other.instances)?;
        append(&mut self.named, &mut other.named)
    }

    /// A call's channels aren't named by the caller.
    #[inline(never)]
    pub fn naming_none(self, alloc: Global) -> Copied
        ensures { (behind : Names) → copy_of result behind ≡ naming_none (copy_of self behind) }
    {
        let mut copied = self;
        copied.named = VecDeque::new(alloc);
        copied
    }

    /// The path of the first channel that is named, and the empty path where none is.
    pub fn first_named(&self) -> &[u32]
        ensures { (behind : Names) → result.now ≡ first_of (copy_of self.now behind).named }
    {
        match self.named.front() {
            None => &[],
            Some(path) => path.as_slice(),
        }
    }

    /// The instances of functions alone.
    pub fn into_instances(self) -> List<Inst>
        ensures { result ≡ self.instances.items }
    {
        let Copied { instances, .. } = self;
        List::from_vec(Vec::from(instances))
    }

    /// Takes the statements, and leaves the instances.
    pub fn take_code(&mut self, alloc: Global) -> List<Kst>
        ensures code { (scope : Names) → map statement_of result ≡ (copy_of self.old scope).code }
        ensures left { (scope : Names) → copy_of self.new scope
            ≡ spec.with_code (copy_of self.old scope) [] }
    {
        let code = mem::replace(&mut self.code, VecDeque::new(alloc));
        List::from_vec(Vec::from(code))
    }
}
