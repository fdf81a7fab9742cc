use crate::token::Text;
use xw_words::{List, Pos};

/// A name, and the place of its token.
#[derive(Drop)]
pub struct Id {
    pub text: Text,
    pub pos: Pos,
}

/// An expression, and the place of its own token: the number, the name, the operator, the `?`, or the `(` of a cast.
/// Brackets around an expression leave no node.
#[cycle(expression)]
pub struct Expr {
    pub kind: Ex,
    pub pos: Pos,
}

impl Drop for Expr {
    /// Gives back its memory. The stack that it needs grows with the depth of the expression.
    #[cycle(drop_of_expression)]
    fn drop(self) {
        let Expr { kind, pos: _ } = self;
        drop(kind);
    }
}

/// What an expression is. A `u8` is the place of a symbol in `SYMBOLS`.
#[cycle(expression)]
#[derive(Drop)]
pub enum Ex {
    /// A number, and whether it is `unsigned`.
    Num(u32, bool),
    Name(Text),
    /// `name [ index ]`
    Index(Text, Box<Expr>),
    /// `- + ~ !` before an expression.
    Un(u8, Box<Expr>),
    Bin(u8, Box<Expr>, Box<Expr>),
    /// `test ? first : second`
    Cond(Box<Expr>, Box<Expr>, Box<Expr>),
    /// `(unsigned)`, or else `(int)`, before an expression.
    Cast(bool, Box<Expr>),
}

/// An argument of a call, and the place of its first token, brackets included.
#[derive(Drop)]
pub struct Arg {
    pub value: Expr,
    pub first: Pos,
}

/// What stands at the right of an `=`, and behind `return`.
#[derive(Drop)]
pub enum Rhs {
    Value(Expr),
    Call {
        name: Text,
        pos: Pos,
        args: List<Arg>,
    },
}

/// An `@` and the expression behind it.
#[derive(Drop)]
pub struct Timed {
    pub at: Pos,
    pub value: Expr,
}

/// A `when`, its test as the place of its word in `WORDS`, and the expression in the test's brackets.
#[derive(Drop)]
pub struct When {
    pub at: Pos,
    pub test: u8,
    pub value: Expr,
}

/// An output: `name @ time <: value @ stamp`.
#[derive(Drop)]
pub struct Send {
    pub name: Text,
    pub pos: Pos,
    pub time: Option<Timed>,
    pub value: Expr,
    pub stamp: Option<Timed>,
}

/// Where the value of an input goes.
#[derive(Drop)]
pub enum Dest {
    To(Expr),
    /// `void`: nowhere.
    Drop,
    /// To a name that is declared here, `unsigned` or not.
    Fresh(bool, Text, Pos),
}

/// An input: `name @ time :> dest @ stamp`, or with `when` and a condition in place of the time.
#[derive(Drop)]
pub struct Head {
    pub name: Text,
    pub pos: Pos,
    pub time: Option<Timed>,
    pub cond: Option<When>,
    pub dest: Dest,
    pub stamp: Option<Timed>,
}

/// What a declaration declares by one name.
#[derive(Drop)]
pub enum DeclKind {
    /// A variable, `unsigned` or not, and its initial value.
    Word(bool, Option<Rhs>),
    /// An array, `unsigned` or not, its length and the place of that number.
    Array(bool, u32, Pos),
    /// A channel, streaming or not.
    Chan(bool),
    Timer,
}

/// A name that a declaration declares.
#[derive(Drop)]
pub struct Declared {
    pub kind: DeclKind,
    pub name: Id,
}

/// A place on a core: the `on`, the first token of its expression, and that expression.
#[derive(Drop)]
pub struct At {
    pub on: Pos,
    pub first: Pos,
    pub value: Expr,
}

/// A statement: what it is, in memory of its own, so that a statement is small wherever it stands; the places of its first and of
/// its last token; and how many tokens it has outside the statements that it holds.
#[cycle(statement)]
pub struct Stmt {
    pub kind: Box<St>,
    pub pos: Pos,
    pub close: Pos,
    pub own: u32,
}

impl Drop for Stmt {
    /// Gives back its memory. The stack that it needs grows with the depth of the statement.
    #[cycle(drop_of_statement)]
    fn drop(self) {
        let Stmt {
            kind,
            pos: _,
            close: _,
            own: _,
        } = self;
        drop(kind);
    }
}

/// What a statement is. A `u8` is the place of a symbol in `SYMBOLS`.
#[cycle(statement)]
#[derive(Drop)]
pub enum St {
    Empty,
    Block(List<Stmt>),
    Decl(List<Declared>),
    /// To which variable or element; `=` or another symbol that assigns, and its place; and the right side.
    Assign(Expr, u8, Pos, Rhs),
    /// `++` or `--`.
    Step(Expr, u8),
    Do(Rhs),
    Output(Send),
    Input(Head),
    If(Expr, Stmt, Option<Stmt>),
    While(Expr, Stmt),
    DoWhile(Stmt, Expr),
    For(Option<Stmt>, Option<Expr>, Option<Stmt>, Stmt),
    Return(Option<Rhs>),
    Break,
    Continue,
    Par(List<Branch>),
    /// `par (int first = from; second < to; third++)`
    Repl {
        first: Id,
        second: Id,
        third: Id,
        from: u32,
        to: u32,
        body: Box<Branch>,
    },
    Select(List<Case>),
    /// A transaction, of the master or else of the slave.
    Tran(bool, List<Stmt>),
}

/// A branch of a `par`.
#[cycle(statement)]
#[derive(Drop)]
pub struct Branch {
    pub place: Option<At>,
    pub body: Stmt,
}

/// A case of a `select`: the place of `case` or `default`, and its parts. The `break` that ends it isn't in the body.
#[cycle(statement)]
#[derive(Drop)]
pub struct Case {
    pub pos: Pos,
    pub guard: Option<Expr>,
    /// `None` for `default`.
    pub head: Option<Head>,
    pub body: List<Stmt>,
}

/// The direction of a port.
#[derive(Clone, Copy, PartialEq, Eq)]
pub enum TreeDir {
    In,
    Out,
    Both,
}

/// What a parameter is.
#[derive(Drop)]
pub enum ParamKind {
    /// A word by value, `unsigned` or not.
    Value(bool),
    /// A word by reference, `unsigned` or not.
    Ref(bool),
    /// A whole array, `unsigned` or not, and its length with the place of that number, where it is given.
    Array(bool, Option<(u32, Pos)>),
    /// An end of a channel, streaming or not.
    End(bool),
    Port(TreeDir),
}

#[derive(Drop)]
pub struct Param {
    pub kind: ParamKind,
    pub name: Id,
}

/// The declaration of a port: `place dir name = ident ;`.
#[derive(Drop)]
pub struct PortItem {
    pub place: Option<At>,
    pub dir: TreeDir,
    pub name: Id,
    pub ident: Id,
}

/// A function: its result, `unsigned` or not, and `None` for `void`; and how many tokens its head has.
#[derive(Drop)]
pub struct FuncItem {
    pub result: Option<bool>,
    pub name: Id,
    pub params: List<Param>,
    pub body: Stmt,
    pub own: u32,
}

#[derive(Drop)]
pub enum Item {
    Port(PortItem),
    Func(FuncItem),
}

/// A program: its ports and functions, in the order of the text.
pub struct Tree {
    pub items: List<Item>,
}

impl Drop for Tree {
    /// Gives back its memory. The stack that it needs grows with the depth of the tree.
    fn drop(self) {
        let Tree { items } = self;
        drop(items);
    }
}
