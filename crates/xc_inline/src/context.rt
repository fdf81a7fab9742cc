ghost use Rattle.std.specs.Prelude.{◌<◌, ◌^◌, length};

use crate::functions::Functions;
use crate::numbers::Numbers;

/// Where a statement stands: what is the same for a function's body, a branch, or a loop's body.
#[derive(Clone, Copy)]
pub struct Context<'p, 'a> {
    pub functions: &'p Functions<'a>,
    /// The ports' names, which each function knows.
    pub ports: &'p [&'a [u8]],
    pub numbers: &'p Numbers,
    pub core: u8,
    /// The instance of a function or branch.
    pub path: &'p [u32],
    /// The variable of the function's result.
    pub result: &'p [u32],
    /// The blocks that `return`, `break` and `continue` leave.
    pub returns: &'p [u32],
    pub breaks: &'p [u32],
    pub continues: &'p [u32],
    ghost few_ports: { length ports.now < 2 ^ 32 },
}
