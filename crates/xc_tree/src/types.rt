use crate::names::Named;
use xw_words::List;

/// A program with the types of its expressions: for each node of one, in the order of the text, whether it is a word that is
/// `unsigned`.
pub struct Typed {
    pub named: Named,
    pub unsigned_at: List<bool>,
}

impl Drop for Typed {
    /// Gives back its memory. The stack that it needs grows with the depth of the tree.
    fn drop(self) {
        let Typed { named, unsigned_at } = self;
        drop(named);
        drop(unsigned_at);
    }
}
