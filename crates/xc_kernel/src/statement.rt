use xw_words::{List, Pos};

/// A port, a timer or a channel, by its place in the kernel's list of its kind.
#[derive(Clone, Copy, PartialEq, Eq)]
pub enum KRes {
    Port(u32),
    Timer(u32),
    Chan(u32),
}

/// An expression.
#[cycle(expression)]
pub enum Kx {
    Num(u32),
    Read(Place),
    /// An operator as the place of its symbol in `SYMBOLS`, whether it is that of `unsigned` words, its operands, and its
    /// place in the text. `[` gives its first operand, where that is below the second, and is an error of the index else.
    Op(u8, bool, List<Kx>, Pos),
}

impl Drop for Kx {
    /// Gives back its memory. The stack that it needs grows with the depth of the expression.
    #[cycle(drop_of_expression)]
    fn drop(self) {
        match self {
            Kx::Num(_) => {}
            Kx::Read(place) => drop(place),
            Kx::Op(_, _, operands, _) => drop(operands),
        }
    }
}

/// Where a word stands.
#[cycle(expression)]
#[derive(Drop)]
pub enum Place {
    /// The word of a variable.
    Word(u32),
    /// An element of an array, its index, and the place of the array's name in the text.
    Elem(u32, Box<Kx>, Pos),
}

/// An output: after `time` the value goes out, and then the port's counter is stored in `stamp`.
#[derive(Drop)]
pub struct KOut {
    pub res: KRes,
    pub time: Option<Kx>,
    pub value: Kx,
    pub stamp: Option<Place>,
    /// The name of the port or channel.
    pub pos: Pos,
}

/// An input: after `time`, or once `cond` holds, a word comes in; it is stored in `dest`, and then the port's counter in
/// `stamp`.
#[derive(Drop)]
pub struct KHead {
    pub res: KRes,
    pub time: Option<Kx>,
    /// The test as the place of its word in `WORDS`, and what is in its brackets.
    pub cond: Option<(u8, Kx)>,
    pub dest: Option<Place>,
    pub stamp: Option<Place>,
    /// The name of the port, timer or channel.
    pub pos: Pos,
}

/// A case of a `select`, which counts where its guard isn't 0 or it has none.
#[cycle(statement)]
#[derive(Drop)]
pub struct KCase {
    pub guard: Option<Kx>,
    pub head: KHead,
    pub body: List<Kst>,
}

/// A `select`, and the body of its `default`.
#[cycle(statement)]
#[derive(Drop)]
pub struct KSelect {
    pub cases: List<KCase>,
    pub otherwise: Option<List<Kst>>,
    /// The word `select`.
    pub pos: Pos,
}

/// A branch of a `par`.
#[cycle(statement)]
#[derive(Drop)]
pub struct KBranch {
    pub body: List<Kst>,
    /// The first token of its statement.
    pub pos: Pos,
}

/// A statement.
#[cycle(statement)]
pub enum Kst {
    /// All words of a variable become 0.
    Zero(u32),
    Set(Place, Kx),
    Out(KOut),
    In(KHead),
    If(Kx, List<Kst>, List<Kst>),
    /// As long as the test isn't 0, the body and then what follows each turn.
    Loop(Kx, List<Kst>, List<Kst>),
    /// A block that can be left, by its number, which no other block of the kernel has.
    Block(u32, List<Kst>),
    /// Leaves the block of this number.
    Exit(u32),
    Select(KSelect),
    Par(List<KBranch>),
    /// A transaction, of the master or else of the slave, from its word to its closing brace.
    Tran {
        chan: u32,
        master: bool,
        body: List<Kst>,
        open_at: Pos,
        close_at: Pos,
    },
}

impl Drop for Kst {
    /// Gives back its memory. The stack that it needs grows with the depth of the statement.
    #[cycle(drop_of_statement)]
    fn drop(self) {
        match self {
            Kst::Zero(_) | Kst::Exit(_) => {}
            Kst::Set(place, value) => {
                drop(place);
                drop(value);
            }
            Kst::Out(output) => drop(output),
            Kst::In(input) => drop(input),
            Kst::If(test, first, second) | Kst::Loop(test, first, second) => {
                drop(test);
                drop(first);
                drop(second);
            }
            Kst::Block(_, body) => drop(body),
            Kst::Select(select) => drop(select),
            Kst::Par(branches) => drop(branches),
            Kst::Tran {
                chan: _,
                master: _,
                body,
                open_at: _,
                close_at: _,
            } => drop(body),
        }
    }
}
