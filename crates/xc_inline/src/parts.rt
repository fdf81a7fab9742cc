ghost use Rattle.std.specs.Prelude.{◌≡◌, [], IfOk, OnOk, map, option_map};
ghost use Rattle.xc_kernel.specs.Scopes.{Scope as Names};
ghost use Rattle.xc_kernel.specs.Copy as copies;
ghost use Rattle.xc_kernel.specs.Flow as spec;
ghost use Rattle.xc_kernel.specs.Kernels as kernel;
ghost use Rattle.xc_kernel.specs.Plain as plain;
ghost use Rattle.xc_inline.specs.Copied.{copy_of};
ghost use Rattle.xc_inline.specs.Parts.{branched_before, cased_before, default_before};

use crate::copied::Copied;
use crate::transfers::Received;
use std::alloc::Global;
use std::mem;
use xc_kernel::{KBranch, KCase, KSelect, Kst, Kx};
use xw_words::allocation::zip_ok;
use xw_words::{List, Memory, Pos};

/// The instances of some branches, and the branches.
#[derive(Drop)]
pub struct Branched {
    pub made: Copied,
    pub branches: List<KBranch>,
}

impl Branched {
    /// No branches.
    pub fn none(alloc: Global) -> Branched
        ensures { (others : spec.Branched) → branched_before result others ≡ others }
    {
        Branched {
            made: Copied::nothing(alloc),
            branches: List::new(alloc),
        }
    }

    /// One more branch behind the others, whose statement begins at a place. The one error is want of memory.
    #[inline(never)]
    pub fn and(self, alloc: Global, pos: Pos, mut copied: Copied) -> Result<Branched, Memory>
        ensures { IfOk result
            (λ r. (behind : Names) (others : spec.Branched) → branched_before r others
            ≡ branched_before self (spec.and_branch pos (copy_of copied behind) others)) }
    {
        let Branched { made, mut branches } = self;
        let body = copied.take_code(alloc);
        let pushed = branches.push(KBranch { body, pos });
        let joined = made.followed_by(copied);
        let (_, made) = zip_ok(pushed, joined)?;
        Ok(Branched { made, branches })
    }

    /// A `par` of the branches. The one error is want of memory.
    #[inline(never)]
    pub fn as_par(self, alloc: Global) -> Result<Copied, Memory>
        ensures { IfOk result (λ copied. (behind : Names) → copy_of copied behind
            ≡ spec.par_copy (branched_before self (spec.no_branches behind))) }
    {
        let Branched { made, branches } = self;
        made.with_statement(alloc, Kst::Par(branches))
    }
}

/// The instances of some cases, the cases, and the `default`.
#[derive(Drop)]
pub struct Cased {
    pub made: Copied,
    pub cases: List<KCase>,
    pub otherwise: Option<List<Kst>>,
}

impl Cased {
    /// No cases.
    pub fn none(alloc: Global) -> Cased
        ensures { (others : spec.Cased) → cased_before result others ≡ others }
    {
        Cased {
            made: Copied::nothing(alloc),
            cases: List::new(alloc),
            otherwise: None,
        }
    }

    /// One more case behind the others. The one error is want of memory.
    #[inline(never)]
    pub fn add_case(
        &mut self,
        alloc: Global,
        guard: Option<Kx>,
        received: Received,
        block: Copied,
    ) -> Result<(), Memory>
        ensures { OnOk result
            ((between behind : Names) (others : spec.Cased) → cased_before self.new
            others ≡ cased_before self.old (record {
              made = copies.joined (copies.joined
                  (copy_of received.names between) (copies.with_code (copy_of block behind) []))
                  others.made;
              cases = plain.more_cases (plain.case (option_map kernel.expression_of
                  guard) (kernel.input_of received.head) (copies.code_of (copy_of block behind)))
                  others.cases;
              otherwise = others.otherwise;
            })) }
    {
        let mut block = block;
        let body = block.take_code(alloc);
        let Received { head, names } = received;
        let pushed = self.cases.push(KCase { guard, head, body });
        let inside = names.followed_by(block);
        let (_, inside) = zip_ok(pushed, inside)?;
        self.made.join(inside)
    }

    /// A `default` behind the others, which counts where none was before. The one error is want of memory.
    #[inline(never)]
    pub fn add_default(&mut self, alloc: Global, block: Copied) -> Result<(), Memory>
        ensures { OnOk result ((behind : Names) (others : spec.Cased) → cased_before self.new others
            ≡ cased_before self.old (record {
              made = copies.joined
                  (copies.with_code (copy_of block behind) []) others.made;
              cases = others.cases;
              otherwise = plain.default (copies.code_of (copy_of block behind));
            })) }
    {
        let mut block = block;
        let body = block.take_code(alloc);
        let before = mem::replace(&mut self.otherwise, None);
        self.otherwise = first_of(before, body);
        self.made.join(block)
    }

    /// A `select` of the cases, whose word stands at a place. The one error is want of memory.
    #[inline(never)]
    pub fn as_select(self, alloc: Global, pos: Pos) -> Result<Copied, Memory>
        ensures { IfOk result (λ copied. (behind : Names) → copy_of copied behind
            ≡ spec.select_copy behind pos (cased_before self (spec.no_cases behind))) }
    {
        let Cased {
            made,
            cases,
            otherwise,
        } = self;
        let select = Kst::Select(KSelect {
            cases,
            otherwise,
            pos,
        });
        made.with_statement(alloc, select)
    }
}

/// The first `default`.
fn first_of(before: Option<List<Kst>>, body: List<Kst>) -> Option<List<Kst>>
    ensures { (others : plain.Default) → default_before result others ≡ default_before before
        (plain.default (plain.statements (map kernel.statement_of body))) }
{
    match before {
        Some(before) => Some(before),
        None => Some(body),
    }
}
