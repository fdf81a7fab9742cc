ghost use Rattle.std.specs.Prelude.{◌≡◌, map};
ghost use Rattle.xc_disjoint.specs.Leasts.{first_among};
ghost use Rattle.xc_disjoint.specs.Places.{rule_of_place as at_place, rule_of_port, rule_of_root};
ghost use Rattle.xc_kernel.specs.Kernels.{root_of};

use xc_kernel::{PortUse, Root};
use xc_tree::earlier;
use xw_words::{Broken, Pos};

/// What stands for a core where a place gives none.
const NO_CORE: u8 = 255;

/// The first place of a root that gives no core, as rule 705, or this rule where it stands before.
pub fn first_of_roots(roots: &[Root], best: Option<Broken>) -> Option<Broken>
    ensures { result ≡ first_among rule_of_root best (map root_of roots.now) }
{
    let mut best = best;
    for root in roots {
        best = earlier(best, rule_of_place(root.core, root.place));
    }
    best
}

/// The first place of a port that gives no core, as rule 705, or this rule where it stands before.
pub fn first_of_ports(ports: &[PortUse], best: Option<Broken>) -> Option<Broken>
    ensures { result ≡ first_among rule_of_port best ports.now }
{
    let mut best = best;
    for port in ports {
        best = earlier(best, rule_of_place(port.core, port.place));
    }
    best
}

fn rule_of_place(core: u8, place: Pos) -> Option<Broken>
    ensures { result ≡ at_place core place }
{
    if core == NO_CORE {
        Some(Broken {
            rule: 705,
            pos: place,
        })
    } else {
        None
    }
}
