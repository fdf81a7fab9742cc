use crate::statement::Kst;
use xc_tree::TreeDir;
use xw_words::{List, Pos};

/// A program with each call replaced. A number of a variable, channel, timer or port is its place in the list of its kind,
/// from 0. A core is a number from 0 to 3, or 255 where the place that the text gives is none of these.
pub struct Kernel {
    pub roots: List<Root>,
    pub vars: List<Var>,
    pub chans: List<Chan>,
    pub timers: List<Timer>,
    /// One entry for each declared port, in the order of the text.
    pub ports: List<PortUse>,
    /// One entry for each instance of a function, main's among them.
    pub insts: List<Inst>,
    /// The place of main's name.
    pub main: Pos,
}

impl Drop for Kernel {
    /// Gives back its memory. The stack that it needs grows with the depth of the kernel.
    fn drop(self) {
        let Kernel {
            roots,
            vars,
            chans,
            timers,
            ports,
            insts,
            main: _,
        } = self;
        drop(roots);
        drop(vars);
        drop(chans);
        drop(timers);
        drop(ports);
        drop(insts);
    }
}

/// A branch that runs from the start: main, or each branch of its `par` where one of these is placed.
#[derive(Drop)]
pub struct Root {
    pub core: u8,
    /// The first token of the expression of the branch's place, or main's name where it has none.
    pub place: Pos,
    pub body: List<Kst>,
    /// The first token of the branch's statement, or main's name where main itself is the root.
    pub pos: Pos,
}

/// An instance of a variable, of a parameter that holds a word, or of a function's result.
#[derive(Drop)]
pub struct Var {
    /// 1, or an array's length.
    pub words: u32,
    pub array: bool,
    /// Whether its words count among its core's by themselves: so do variables, but neither parameters nor results.
    pub counted: bool,
    pub core: u8,
    pub path: List<u32>,
    /// The declaring name, which is the function's for a result.
    pub pos: Pos,
}

/// An instance of a channel.
#[derive(Drop)]
pub struct Chan {
    pub streaming: bool,
    pub path: List<u32>,
    /// The declaring name.
    pub pos: Pos,
}

/// An instance of a timer.
#[derive(Drop)]
pub struct Timer {
    pub core: u8,
    pub path: List<u32>,
    /// The declaring name.
    pub pos: Pos,
}

/// A declared port.
#[derive(Clone, Copy, PartialEq, Eq)]
pub struct PortUse {
    /// The place of its identifier among `1A` to `1P`, `4A` to `4F`, `8A` to `8D`, `16A`, `16B` and `32A`, from 0.
    pub id: u8,
    pub dir: TreeDir,
    pub core: u8,
    /// The first token of the expression of its place, or its name where it has none.
    pub place: Pos,
    /// The declaring name.
    pub pos: Pos,
}

/// An instance of a function.
#[derive(Clone, Copy, PartialEq, Eq)]
pub struct Inst {
    pub core: u8,
    /// How many parameters it has.
    pub params: u32,
}
