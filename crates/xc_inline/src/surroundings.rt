//! What stands around a branch, a loop's body, a case's and a function's.

ghost use Rattle.std.specs.Prelude.{◌≡◌, ◌-◌};
ghost use Rattle.xc_inline.specs.Contexts.{context_of};

use crate::context::Context;

impl<'p, 'a> Context<'p, 'a> {
    /// A branch of a `par` here, by its path.
    pub fn in_branch<'q>(&'q self, path: &'q [u32]) -> Context<'q, 'a>
        ensures context { context_of result ≡ record (context_of self.now) { path = path.now } }
        ensures functions { result.functions ≡ self.now.functions }
    {
        Context {
            functions: self.functions,
            ports: self.ports,
            numbers: self.numbers,
            core: self.core,
            path,
            result: self.result,
            returns: self.returns,
            breaks: self.breaks,
            continues: self.continues,
        }
    }

    /// The body of a loop, by the paths of the blocks that `break` and `continue` leave.
    pub fn in_loop<'q>(&'q self, whole: &'q [u32], turn: &'q [u32]) -> Context<'q, 'a>
        ensures context { context_of result
            ≡ record (context_of self.now) { breaks = whole.now; continues = turn.now } }
        ensures functions { result.functions ≡ self.now.functions }
    {
        Context {
            functions: self.functions,
            ports: self.ports,
            numbers: self.numbers,
            core: self.core,
            path: self.path,
            result: self.result,
            returns: self.returns,
            breaks: whole,
            continues: turn,
        }
    }

    /// The body of a case, by the path of the block that `break` leaves.
    pub fn in_case<'q>(&'q self, path: &'q [u32]) -> Context<'q, 'a>
        ensures context { context_of result ≡ record (context_of self.now) { breaks = path.now } }
        ensures functions { result.functions ≡ self.now.functions }
    {
        Context {
            functions: self.functions,
            ports: self.ports,
            numbers: self.numbers,
            core: self.core,
            path: self.path,
            result: self.result,
            returns: self.returns,
            breaks: path,
            continues: self.continues,
        }
    }

    /// The body of a function, by the paths of its instance and of its result.
    pub fn in_function<'q>(&'q self, own: &'q [u32], result_path: &'q [u32]) -> Context<'q, 'a>
        ensures context { context_of result ≡ record (context_of self.now)
            { path = own.now; result = result_path.now; returns = own.now } }
        ensures functions { result.functions ≡ self.now.functions }
    {
        Context {
            functions: self.functions,
            ports: self.ports,
            numbers: self.numbers,
            core: self.core,
            path: own,
            result: result_path,
            returns: own,
            breaks: self.breaks,
            continues: self.continues,
        }
    }

    /// A branch on a core, by its path.
    pub fn on_core<'q>(&'q self, core: u8) -> Context<'q, 'a>
        ensures context { context_of result ≡ record (context_of self.now) { core = core } }
        ensures functions { result.functions ≡ self.now.functions }
    {
        Context {
            functions: self.functions,
            ports: self.ports,
            numbers: self.numbers,
            core,
            path: self.path,
            result: self.result,
            returns: self.returns,
            breaks: self.breaks,
            continues: self.continues,
        }
    }
}
