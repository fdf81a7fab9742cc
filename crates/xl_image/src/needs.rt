// What a core declares: its ports and timers, and whether it has a root.

ghost use Rattle.std.specs.Prelude.{◌≡◌, ◌<◌, ◌^◌, map, sum_by, IfOk};
ghost use Rattle.xc_disjoint.specs.Cores.{if_so};
ghost use Rattle.xc_disjoint.specs.Needs.{timers_of};
ghost use Rattle.xc_kernel.specs.Kernels.{root_of};
ghost use Rattle.xl_image.specs.Parts.{is_some_root};
ghost use Rattle.xl_image.specs.Images.{decl_of, dir_of, roots_on};
ghost use Rattle.xl_plan.specs.Planned.{ports_on};

use std::alloc::Global;
use xc_kernel::{PortUse, Root, Timer};
use xc_tree::TreeDir;
use xs_instr::{Dir, PortDecl};
use xw_words::{List, Memory};

/// The declarations of a core's ports.
pub fn declarations(alloc: Global, ports: &[PortUse], core: u8) -> Result<List<PortDecl>, Memory>
    ensures { IfOk result (λ all. all ≡ map decl_of (ports_on core ports.now)) }
{
    let mut all = List::new(alloc);
    for port in ports {
        if port.core == core {
            all.push(declaration(port))?;
        }
    }
    Ok(all)
}

fn declaration(port: &PortUse) -> PortDecl
    ensures { result ≡ decl_of port.now }
{
    PortDecl {
        port: port.id,
        dir: way(port.dir),
    }
}

fn way(dir: TreeDir) -> Dir
    ensures { result ≡ dir_of dir }
{
    match dir {
        TreeDir::In => Dir::In,
        TreeDir::Out => Dir::Out,
        TreeDir::Both => Dir::Both,
    }
}

/// How many timers a core has.
pub fn timer_count(timers: &[Timer], core: u8) -> u32
    requires { sum_by (timers_of core) timers.now < 2 ^ 32 }
    ensures { result ≡ sum_by (timers_of core) timers.now }
{
    let mut count: u32 = 0;
    for timer in timers {
        count += one_if(timer.core == core);
    }
    count
}

fn one_if(is_so: bool) -> u32
    ensures { result ≡ if_so is_so 1 }
{
    if is_so { 1 } else { 0 }
}

/// Whether some root is on a core.
pub fn has_root(roots: &[Root], core: u8) -> bool
    ensures { result ≡ is_some_root (roots_on core (map root_of roots.now)) }
{
    for root in roots {
        if root.core == core {
            return true;
        }
    }
    false
}
