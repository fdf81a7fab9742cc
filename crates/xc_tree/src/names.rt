use crate::tree::{Id, Tree, TreeDir};
use xw_words::List;

/// What a name is declared as.
#[derive(Drop)]
pub enum What {
    /// A variable, `unsigned` or not.
    Word(bool),
    /// An array, `unsigned` or not, and its length.
    Array(bool, u32),
    /// A parameter for a word by reference, `unsigned` or not.
    Ref(bool),
    /// A parameter for a whole array, `unsigned` or not, and its length, where it is given.
    ArrayParam(bool, Option<u32>),
    /// A channel, streaming or not.
    Chan(bool),
    /// A parameter for an end of a channel, streaming or not.
    End(bool),
    Timer,
    Port(TreeDir),
    PortParam(TreeDir),
    /// A function, by its place among the items of the program.
    Func(u32),
    /// The index of a replicated `par`.
    Index,
}

/// A declaration: a name, and what it is declared as.
#[derive(Drop)]
pub struct Decl {
    pub name: Id,
    pub what: What,
}

/// What the text of a program has at one place, as far as names and their scopes go.
#[derive(Drop)]
pub enum Mark {
    /// A scope begins.
    Opens,
    /// The scope that began last of those that are open ends.
    Closes,
    /// A name is declared.
    Declares(Decl),
    /// A name is used, but not as that of a call.
    Uses(Id),
    /// A name is called.
    Calls(Id),
}

/// A program with its declarations and, for each name in it, its place among these. Both are in the order of the text, and
/// a name that is declared stands for its own declaration.
pub struct Named {
    pub tree: Tree,
    pub decls: List<Decl>,
    pub uses: List<u32>,
}

impl Drop for Named {
    /// Gives back its memory. The stack that it needs grows with the depth of the tree.
    fn drop(self) {
        let Named { tree, decls, uses } = self;
        drop(tree);
        drop(decls);
        drop(uses);
    }
}
