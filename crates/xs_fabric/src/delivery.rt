// What is due at a core comes to its ends.

ghost use Rattle.std.specs.Prelude.{◌≡◌, ◌<◌, ◌≤◌, ℕ, length};
ghost use Rattle.xs_instr.specs.Machine.{link_of, link_put};
ghost use Rattle.xs_fabric.specs.Lockstep.{all_came, due_from, due_of, late_from, late_of};
ghost use Rattle.xs_fabric.specs.Rooms.{AllHaveRoom};
ghost use Rattle.xs_fabric.specs.Rounds.{due_at};

use crate::link::{Link, Links, are_empty_to};
use xs_core::Core;

const CORES: u8 = 4;

/// What is due on a link comes to the core, and how much that was.
fn deliver_due(core: &mut Core, link: &mut Link) -> u32
    requires few { length link.old ≤ 512 }
    requires room { AllHaveRoom core.old.home core.old.state
        (due_of core.old.state.clock link.old) }
    ensures core { core.new ≡ record core.old {
      state = all_came core.old.state (due_of core.old.state.clock link.old);
    } }
    ensures link { link.new ≡ late_of core.old.state.clock link.old }
    ensures count { result ≡ length (due_of core.old.state.clock link.old) }
    ensures most { result ≤ 512 }
{
    let clock = core.clock();
    let mut count = 0;
    'due: while let Some(item) = link.take_due(clock) {
        core.deliver(item.moved);
        count += 1;
    }
    count
}

/// What is due on the link from a core comes, and how much that was.
fn deliver_from(core: &mut Core, links: &mut Links, from: u8) -> u32
    requires from { from < 4 }
    requires number { core.old.home.number < 4 }
    requires few { length (link_of links.old from core.old.home.number) ≤ 512 }
    requires room { AllHaveRoom core.old.home core.old.state
        (due_of core.old.state.clock (link_of links.old from core.old.home.number)) }
    ensures core { core.new ≡ record core.old {
      state = all_came core.old.state
          (due_of core.old.state.clock (link_of links.old from core.old.home.number));
    } }
    ensures links { links.new ≡ link_put links.old from core.old.home.number
        (late_of core.old.state.clock (link_of links.old from core.old.home.number)) }
    ensures count { result
        ≡ length (due_of core.old.state.clock (link_of links.old from core.old.home.number)) }
    ensures most { result ≤ 512 }
{
    let to = core.number();
    let link = &mut links[from as usize][to as usize];
    deliver_due(core, link)
}

/// What is due comes, by the number of the sender and then as it was sent, and how much that was.
pub fn deliver_all(core: &mut Core, links: &mut Links) -> u32
    requires number { core.old.home.number < 4 }
    requires few { (a : ℕ) → a < 4 → length (link_of links.old a core.old.home.number) ≤ 512 }
    requires room { (a : ℕ) → a < 4 → AllHaveRoom core.old.home
        (all_came core.old.state (due_from links.old core.old.home.number core.old.state.clock a))
        (due_of core.old.state.clock (link_of links.old a core.old.home.number)) }
    ensures core { core.new ≡ record core.old {
      state = all_came core.old.state (due_at core.old.home links.old core.old.state);
    } }
    ensures links { links.new
        ≡ late_from links.old core.old.home.number core.old.state.clock 4 }
    ensures count { result ≡ length (due_at core.old.home links.old core.old.state) }
    ensures most { result ≤ 2048 }
{
    if are_empty_to(links, core.number()) {
        return 0;
    }
    let mut count = 0;
    for from in 0..CORES {
        count += deliver_from(core, links, from);
    }
    count
}
