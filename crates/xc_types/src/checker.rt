ghost use Rattle.std.specs.Prelude.{◌≡◌, [], ◌<◌, ◌≤◌, drop, length, IfOk, OnOk};
ghost use Rattle.xc_tree.specs.Shapes.Rules.{are_one as one};
ghost use Rattle.xc_types.specs.Checker.{one_more_name, with_type, with_type_at, with_broken, with_channel, with_first};

use crate::counter::Counter;
use crate::shapes::are_one;
use std::alloc::Global;
use xc_tree::earlier;
use xw_words::{Broken, List, Memory, Pos};

/// What a walk has found of a program.
#[derive(Drop)]
pub struct Checker {
    /// Where memory is taken.
    pub alloc: Global,
    /// How many names were passed.
    pub names: Counter,
    /// For each node that was passed whether it is a word that is `unsigned`.
    pub types: List<bool>,
    /// The first of the broken rules.
    pub best: Option<Broken>,
    /// The declarations of the channels that communications named.
    pub channels: List<u32>,
}

impl Checker {
    /// Of nothing.
    pub fn new(alloc: Global) -> Checker
        ensures names { result.names ≡ 0 }
        ensures types { result.types ≡ [] }
        ensures best { result.best ≡ None }
        ensures channels { result.channels ≡ [] }
    {
        Checker {
            alloc,
            names: Counter::new(alloc),
            types: List::new(alloc),
            best: None,
            channels: List::new(alloc),
        }
    }

    /// Goes past a name.
    #[tactic(auto, unfolding(crate::specs::Checker::one_more_name))]
    pub fn pass(&mut self) -> Result<(), Memory>
        ensures { OnOk result (self.new ≡ one_more_name self.old) }
    {
        self.names.add_one()
    }

    /// Keeps a node's type, and gives the node's place among the nodes.
    #[tactic(auto, unfolding(crate::specs::Checker::with_type))]
    pub fn add_type(&mut self, is_unsigned: bool) -> Result<usize, Memory>
        ensures found { OnOk result (self.new ≡ with_type is_unsigned self.old) }
        ensures place { IfOk result (λ place. place ≡ length self.old.types) }
    {
        let place = self.types.len();
        self.types.push(is_unsigned)?;
        Ok(place)
    }

    /// Changes the type of a node.
    #[tactic(auto, unfolding(crate::specs::Checker::with_type_at))]
    pub fn set_type(&mut self, place: usize, is_unsigned: bool)
        requires { place < length self.old.types }
        ensures { self.new ≡ with_type_at place is_unsigned self.old }
    {
        self.types.set(place, is_unsigned);
    }

    /// Keeps that a rule is broken, where it is.
    #[tactic(auto, unfolding(crate::specs::Checker::with_broken))]
    pub fn breaks_where(&mut self, is_broken: bool, rule: u16, pos: Pos)
        ensures { self.new ≡ with_broken is_broken rule pos self.old }
    {
        if is_broken {
            self.best = earlier(self.best, Some(Broken { rule, pos }));
        }
    }

    /// Keeps what a communication names, where that is a channel.
    #[tactic(auto, unfolding(crate::specs::Checker::with_channel))]
    pub fn names_channel(&mut self, is_channel: bool, declared: Option<u32>) -> Result<(), Memory>
        ensures { OnOk result (self.new ≡ with_channel is_channel declared self.old) }
    {
        match (is_channel, declared) {
            (true, Some(declared)) => self.channels.push(declared),
            (true, None) => Ok(()),
            (false, _) => Ok(()),
        }
    }

    /// Keeps one more broken rule, if there is one.
    #[tactic(auto, unfolding(crate::specs::Checker::with_first))]
    pub fn breaks(&mut self, broken: Option<Broken>)
        ensures { self.new ≡ with_first broken self.old }
    {
        self.best = earlier(self.best, broken);
    }

    /// Whether the communications that were found since there were so many channels named one.
    pub fn names_one_channel(&self, begin: usize) -> bool
        requires { begin ≤ length self.now.channels }
        ensures { result ≡ one (drop begin self.now.channels) }
    {
        are_one(&self.channels.as_slice()[begin..])
    }
}
