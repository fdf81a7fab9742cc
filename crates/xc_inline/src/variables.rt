#![tactic(auto, using(crate::proofs::Laws::Expressions::steps))]

ghost use Rattle.std.specs.Prelude.{◌≡◌, IfOk};
ghost use Rattle.xc_kernel.specs.Context as spec;
ghost use Rattle.xc_kernel.specs.Kernels as kernel;
ghost use Rattle.xc_inline.specs.Contexts.{context_of};

use crate::context::Context;
use crate::paths::same_path;
use std::alloc::Global;
use xc_kernel::{Kst, Kx, Place, Var};
use xw_words::{Memory, Pos};

impl<'p, 'a> Context<'p, 'a> {
    /// A statement that sets the words of the variable of this path to 0.
    pub fn set_zero(&self, path: &[u32]) -> Kst
        ensures { kernel.statement_of result ≡ spec.set_zero (context_of self.now) path.now }
    {
        Kst::Zero(self.numbers.variable(path))
    }

    /// A statement that stores a word in the variable of this path.
    pub fn set_word(&self, path: &[u32], value: Kx) -> Kst
        ensures { kernel.statement_of result
            ≡ spec.set_word (context_of self.now) path.now (kernel.expression_of value) }
    {
        Kst::Set(Place::Word(self.numbers.variable(path)), value)
    }

    /// A variable of one word; those of parameters and results aren't counted by themselves. The one error is want of memory.
    pub fn word_variable(
        &self,
        alloc: Global,
        counted: bool,
        path: &[u32],
        pos: Pos,
    ) -> Result<Var, Memory>
        ensures { IfOk result
            (λ v. v ≡ spec.word_variable (context_of self.now) counted path.now pos) }
    {
        Ok(Var {
            words: 1,
            array: false,
            counted,
            core: self.core,
            path: same_path(alloc, path)?,
            pos,
        })
    }

    /// A variable of an array. The one error is want of memory.
    pub fn array_variable(
        &self,
        alloc: Global,
        words: u32,
        path: &[u32],
        pos: Pos,
    ) -> Result<Var, Memory>
        ensures { IfOk result
            (λ v. v ≡ spec.array_variable (context_of self.now) words path.now pos) }
    {
        Ok(Var {
            words,
            array: true,
            counted: true,
            core: self.core,
            path: same_path(alloc, path)?,
            pos,
        })
    }
}
