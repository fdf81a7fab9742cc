//! A statement, from its parts.

ghost use Rattle.std.specs.Prelude.{◌≡◌, ◌-◌, ◌^◌, ◌<◌, ◌≤◌, length, IfOk, IfErr};
ghost use Rattle.xc_tree.specs.Derives.{extent};
ghost use Rattle.xc_tree.specs.Grammar.{statement_of};
ghost use Rattle.xc_tree.specs.Plain as plain;
ghost use Rattle.xc_tree.specs.Trees as trees;
ghost use Rattle.xc_nonterminals.specs.declared.stop.Stop.TheVariants as stop;

use crate::parser::{Parser, Read};
use crate::stop::Stop;
use xc_tree::{St, Stmt};
use xw_words::allocation::boxed;

impl<'a> Parser<'a> {
    /// The statement from one place up to another, which has so many tokens in statements that it holds.
    pub fn whole(&self, at: usize, end: usize, held: usize, kind: St) -> Result<Read<Stmt>, Stop>
        requires forth { at < end }
        requires within { end ≤ length self.now.toks.now }
        requires short { length self.now.toks.now < 2 ^ 32 }
        requires held { held ≡ plain.held (trees.action_of kind) }
        requires room { held ≤ end - at }
        ensures bounds { IfOk result (λ r. (at < r.end) × (r.end ≤ length self.now.toks.now)) }
        ensures made { IfOk result (λ r. (r.end ≡ end) × (trees.statement_of r.value
            ≡ statement_of (extent self.now.toks.now at end) (trees.action_of kind))) }
        ensures memory { IfErr result (λ e. e ≡ stop.Memory) }
    {
        let kind = boxed(self.alloc, kind)?;
        let value = Stmt {
            kind,
            pos: self.toks[at].pos,
            close: self.toks[end - 1].pos,
            own: (end - at - held) as u32,
        };
        Ok(Read { value, end })
    }
}
