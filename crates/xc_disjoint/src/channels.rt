//! How the roots of a kernel use channels: one walk, of which the rules of sides and the channel ends are read.

ghost use Rattle.std.specs.Prelude.{◌≡◌, [], ◌∷◌, ◌++◌, map, OnOk, IfOk};
ghost use Rattle.xc_disjoint.specs.RootUses.{seen_in, seen_of};
ghost use Rattle.xc_disjoint.specs.UseTables.{shares_in, uses_in};
ghost use Rattle.xc_disjoint.specs.Uses.{all_with, no_shares, with_branches};
ghost use Rattle.xc_kernel.specs.Branches.{branches_of};
ghost use Rattle.xc_kernel.specs.Kernels.{root_of};

use crate::channel_uses::statements;
use crate::use_tables::{ParTable, UseTable};
use std::alloc::Global;
use xc_kernel::Root;
use xw_words::{List, Memory, Pos};

/// How each root uses channels, and how all do, as the branches of one `par`.
#[derive(Drop)]
pub struct Channels {
    pub in_roots: List<RootTable>,
    pub among_roots: ParTable,
}

/// A root's core, and how the root uses channels.
#[derive(Drop)]
pub struct RootTable {
    pub core: u8,
    pub uses: UseTable,
}

/// Goes through all roots. The stack that it needs grows with the depth of the kernel.
pub fn channels_of(alloc: Global, roots: &[Root]) -> Result<Channels, Memory>
    ensures in_roots { IfOk result
        (λ c. map seen_in c.in_roots ≡ map seen_of (map root_of roots.now)) }
    ensures among_roots { IfOk result (λ c. shares_in c.among_roots
        ≡ with_branches no_shares (branches_of (map root_of roots.now))) }
{
    let mut channels = Channels {
        in_roots: List::new(alloc),
        among_roots: ParTable::new(alloc),
    };
    channels.add_each(alloc, roots)?;
    Ok(channels)
}

/// How a root uses channels.
fn root_table(alloc: Global, root: &Root) -> Result<RootTable, Memory>
    ensures { IfOk result (λ table. seen_in table ≡ seen_of (root_of root.now)) }
{
    let mut uses = UseTable::new(alloc);
    statements(alloc, &mut uses, root.body.as_slice())?;
    Ok(RootTable {
        core: root.core,
        uses,
    })
}

impl Channels {
    /// Goes on to more roots.
    fn add_each(&mut self, alloc: Global, roots: &[Root]) -> Result<(), Memory>
        ensures in_roots { OnOk result (map seen_in self.new.in_roots
            ≡ map seen_in self.old.in_roots ++ map seen_of (map root_of roots.now)) }
        ensures among_roots { OnOk result (shares_in self.new.among_roots
            ≡ with_branches (shares_in self.old.among_roots) (branches_of (map root_of roots.now))) }
    {
        for root in roots {
            self.add(root_table(alloc, root)?, root.pos)?;
        }
        Ok(())
    }

    /// Goes on to one more root, which stands at this place.
    fn add(&mut self, root: RootTable, pos: Pos) -> Result<(), Memory>
        ensures in_roots { OnOk result
            (self.new.in_roots ≡ self.old.in_roots ++ root ∷ []) }
        ensures among_roots { OnOk result (shares_in self.new.among_roots
            ≡ all_with pos (shares_in self.old.among_roots) (uses_in root.uses)) }
    {
        self.among_roots.add_all(&root.uses, pos)?;
        self.in_roots.push(root)
    }
}
