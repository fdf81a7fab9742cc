ghost use Rattle.std.specs.Option.{option_copied};
ghost use Rattle.std.specs.Prelude.{◌≡◌, OnOk};
ghost use Rattle.xc_tree.specs.Types.Named.{named_of};
ghost use Rattle.xc_types.specs.Communications.{after_condition, after_stamp, after_target_and_stamp, after_time, can_ask, past_input};
ghost use Rattle.xc_types.specs.After as after;

use crate::checker::Checker;
use crate::entities::{
    declaration_of, gives_input, is_channel, is_port, is_timer, takes_output, what_of,
};
use crate::lvals::{lval, part};
use xc_tree::words::TIMERAFTER_WORD;
use xc_tree::{Dest, Head, Named, Send, Timed, What, When};
use xw_words::{Memory, Pos};

/// Checks an output.
#[tactic(auto, using(crate::proofs::Talks::talks))]
pub fn output(found: &mut Checker, named: &Named, send: &Send) -> Result<(), Memory>
    ensures { OnOk result (found.new ≡ after.output named.now send.now found.old) }
{
    let name = found.names.count();
    let what = what_of(named, name);
    found.breaks_where(!takes_output(what), 410, send.pos);
    found.names_channel(is_channel(what), declaration_of(named, name))?;
    found.pass()?;
    time(found, named, is_port(what), &send.time)?;
    part(found, named, &send.value)?;
    stamp(found, named, is_port(what), &send.stamp)
}

/// Checks an input.
pub fn input(found: &mut Checker, named: &Named, head: &Head) -> Result<(), Memory>
    ensures { OnOk result (found.new ≡ after.input named.now head.now found.old) }
{
    let what = what_of(named, found.names.count());
    let is_port = is_port(what);
    input_name(found, named, head.pos)?;
    time(found, named, is_port, &head.time)?;
    condition(found, named, what, &head.cond)?;
    target_and_stamp(found, named, is_port, head)
}

/// Checks an input, if there is one.
#[tactic(auto, using(crate::proofs::Steps::steps))]
pub fn input_if_any(found: &mut Checker, named: &Named, head: &Option<Head>) -> Result<(), Memory>
    ensures { OnOk result (found.new ≡ after.input_if_any named.now head.now found.old) }
{
    match head {
        None => Ok(()),
        Some(head) => input(found, named, head),
    }
}

/// Checks the name of an input, which stands at this place.
#[tactic(auto, using(crate::proofs::Talks::same_names))]
fn input_name(found: &mut Checker, named: &Named, pos: Pos) -> Result<(), Memory>
    ensures { OnOk result (found.new ≡ past_input (named_of named.now) pos found.old) }
{
    let name = found.names.count();
    let what = what_of(named, name);
    found.breaks_where(!gives_input(what), 411, pos);
    found.names_channel(is_channel(what), declaration_of(named, name))?;
    found.pass()
}

/// Checks where an input goes, and the stamp behind that.
fn target_and_stamp(
    found: &mut Checker,
    named: &Named,
    is_port: bool,
    head: &Head,
) -> Result<(), Memory>
    ensures { OnOk result
        (found.new ≡ after_target_and_stamp named.now is_port head.now found.old) }
{
    target(found, named, &head.dest)?;
    stamp(found, named, is_port, &head.stamp)
}

/// Checks a time, in a communication with a port or something else.
fn time(
    found: &mut Checker,
    named: &Named,
    is_port: bool,
    time: &Option<Timed>,
) -> Result<(), Memory>
    ensures { OnOk result (found.new ≡ after_time named.now is_port time.now found.old) }
{
    match time {
        None => Ok(()),
        Some(time) => {
            found.breaks_where(!is_port, 413, time.at);
            part(found, named, &time.value)
        }
    }
}

/// Checks a stamp, which is an `lval`.
fn stamp(
    found: &mut Checker,
    named: &Named,
    is_port: bool,
    stamp: &Option<Timed>,
) -> Result<(), Memory>
    ensures { OnOk result (found.new ≡ after_stamp named.now is_port stamp.now found.old) }
{
    match stamp {
        None => Ok(()),
        Some(stamp) => {
            found.breaks_where(!is_port, 413, stamp.at);
            lval(found, named, &stamp.value)
        }
    }
}

/// Checks a condition on what is read.
fn condition(
    found: &mut Checker,
    named: &Named,
    what: Option<&What>,
    condition: &Option<When>,
) -> Result<(), Memory>
    ensures { OnOk result
        (found.new ≡ after_condition named.now (option_copied what.entry) condition.now found.old) }
{
    match condition {
        None => Ok(()),
        Some(condition) => {
            found.breaks_where(!can_be_asked(what, condition.test), 414, condition.at);
            part(found, named, &condition.value)
        }
    }
}

/// Whether a test can be asked of something: `timerafter` of a timer, the others of a port.
fn can_be_asked(what: Option<&What>, test: u8) -> bool
    ensures { result ≡ can_ask (option_copied what.entry) test }
{
    if test == TIMERAFTER_WORD {
        is_timer(what)
    } else {
        is_port(what)
    }
}

/// Checks where an input goes. A name that is declared there is a word.
#[tactic(auto, using(crate::proofs::Steps::steps))]
fn target(found: &mut Checker, named: &Named, dest: &Dest) -> Result<(), Memory>
    ensures { OnOk result (found.new ≡ after.target named.now dest.now found.old) }
{
    match dest {
        Dest::To(e) => lval(found, named, e),
        Dest::Drop => Ok(()),
        Dest::Fresh(_, _, _) => found.pass(),
    }
}
