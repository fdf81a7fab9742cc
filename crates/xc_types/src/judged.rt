ghost use Rattle.std.specs.Option.{option_copied};
ghost use Rattle.std.specs.Prelude.{◌≡◌, OnOk};
ghost use Rattle.xc_tree.specs.Types.Rules.{is_one_of as one_of};
ghost use Rattle.xc_types.specs.Judged.{judged_nothing, with_argument, with_variable};
ghost use Rattle.xc_types.specs.Checker.{first_with as first_of_with};

use crate::arguments::{fits, is_channel_given, referred};
use std::alloc::Global;
use xc_tree::{Arg, Named, ParamKind, earlier};
use xw_words::{Broken, List, Memory, Pos};

/// What is said of the arguments of a call together.
#[derive(Drop)]
pub struct Judged {
    /// The first that doesn't fit its parameter.
    pub misfit: Option<Broken>,
    /// The first that refers to a variable to which an earlier one does.
    pub again: Option<Broken>,
    /// The variables to which they refer.
    pub variables: List<u32>,
    /// Whether a channel is among them.
    pub has_channel: bool,
}

impl Judged {
    /// Of no argument.
    pub fn new(alloc: Global) -> Judged
        ensures { result ≡ judged_nothing }
    {
        Judged {
            misfit: None,
            again: None,
            variables: List::new(alloc),
            has_channel: false,
        }
    }

    /// Goes on with an argument, before which the text has k names.
    pub fn judge(
        &mut self,
        named: &Named,
        k: usize,
        parameter: Option<&ParamKind>,
        arg: &Arg,
    ) -> Result<(), Memory>
        ensures { OnOk result (self.new
            ≡ with_argument named.now k (option_copied parameter.entry) arg.now self.old) }
    {
        let variable = referred(named, k, parameter, &arg.value);
        self.misfit = first_with(
            !fits(named, k, parameter, &arg.value),
            406,
            arg.first,
            self.misfit,
        );
        self.again = first_with(
            is_one_of(self.variables.as_slice(), variable),
            416,
            arg.first,
            self.again,
        );
        self.has_channel = self.has_channel || is_channel_given(named, k, &arg.value);
        self.add(variable)
    }

    /// Keeps a variable, if it is one.
    fn add(&mut self, variable: Option<u32>) -> Result<(), Memory>
        ensures { OnOk result (self.new ≡ with_variable variable self.old) }
    {
        match variable {
            None => Ok(()),
            Some(variable) => self.variables.push(variable),
        }
    }
}

/// The first of what was broken and of a rule that is broken where this holds.
fn first_with(is_broken: bool, rule: u16, pos: Pos, best: Option<Broken>) -> Option<Broken>
    ensures { result ≡ first_of_with is_broken rule pos best }
{
    if is_broken {
        earlier(best, Some(Broken { rule, pos }))
    } else {
        best
    }
}

/// Whether a variable is one of these.
fn is_one_of(variables: &[u32], variable: Option<u32>) -> bool
    ensures { result ≡ one_of variables.now variable }
{
    match variable {
        None => false,
        Some(variable) => variables.contains(&variable),
    }
}
