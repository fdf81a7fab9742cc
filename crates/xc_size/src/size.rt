ghost use Rattle.std.specs.Prelude.{◌≡◌, ◌+◌, ◌*◌, max, min};
ghost use Rattle.xc_size.specs.Sizes.{up_to};
ghost use Rattle.xc_kernel.specs.Size.{greatest_depth, most_nodes, most_statements};

/// How many statements a part of a program counts and how many nodes it has, with all copies, and how deep these stand. No
/// count goes further than one above its limit.
#[derive(Clone, Copy, PartialEq, Eq)]
pub struct Size {
    pub statements: u32,
    pub nodes: u32,
    pub depth: u32,
}

/// One more than the greatest count that is allowed.
const ABOVE_STATEMENTS: u32 = 100_001;

const ABOVE_NODES: u32 = 1_000_001;

const ABOVE_DEPTH: u32 = 1_001;

impl Size {
    /// The size of nothing.
    pub fn none() -> Size
        ensures { result ≡ record { statements = 0; nodes = 0; depth = 0 } }
    {
        Size {
            statements: 0,
            nodes: 0,
            depth: 0,
        }
    }

    /// The size of this and another part.
    #[tactic(auto, unfolding(crate::specs::Sizes::up_to))]
    pub fn parallel(self, other: Size) -> Size
        ensures statements { result.statements
            ≡ up_to most_statements (self.statements + other.statements) }
        ensures nodes { result.nodes ≡ up_to most_nodes (self.nodes + other.nodes) }
        ensures depth { result.depth ≡ up_to greatest_depth (max self.depth other.depth) }
    {
        Size {
            statements: sum(self.statements, other.statements, ABOVE_STATEMENTS),
            nodes: sum(self.nodes, other.nodes, ABOVE_NODES),
            depth: self.depth.max(other.depth).min(ABOVE_DEPTH),
        }
    }

    /// The size with so many statements more.
    #[tactic(auto, unfolding(crate::specs::Sizes::up_to))]
    pub fn counted(self, more: usize) -> Size
        ensures statements { result.statements ≡ up_to most_statements (self.statements + more) }
        ensures nodes { result.nodes ≡ self.nodes }
        ensures depth { result.depth ≡ self.depth }
    {
        let more = more.min(ABOVE_STATEMENTS as usize) as u32;
        Size {
            statements: sum(self.statements, more, ABOVE_STATEMENTS),
            ..self
        }
    }

    /// The size with the node above of an expression.
    #[tactic(auto, unfolding(crate::specs::Sizes::up_to))]
    pub fn node(self) -> Size
        ensures statements { result.statements ≡ self.statements }
        ensures nodes { result.nodes ≡ up_to most_nodes (self.nodes + 1) }
        ensures depth { result.depth ≡ up_to greatest_depth (self.depth + 1) }
    {
        Size {
            nodes: sum(self.nodes, 1, ABOVE_NODES),
            depth: sum(self.depth, 1, ABOVE_DEPTH),
            ..self
        }
    }

    /// The size with the node above of a statement.
    #[tactic(auto, unfolding(crate::specs::Sizes::up_to))]
    pub fn deeper(self) -> Size
        ensures statements { result.statements ≡ self.statements }
        ensures nodes { result.nodes ≡ self.nodes }
        ensures depth { result.depth ≡ up_to greatest_depth (self.depth + 1) }
    {
        Size {
            depth: sum(self.depth, 1, ABOVE_DEPTH),
            ..self
        }
    }

    /// The size of so many copies.
    #[tactic(auto, unfolding(crate::specs::Sizes::up_to))]
    pub fn times(self, copies: u32) -> Size
        ensures statements { result.statements ≡ up_to most_statements (copies * self.statements) }
        ensures nodes { result.nodes ≡ up_to most_nodes (copies * self.nodes) }
        ensures depth { result.depth ≡ self.depth }
    {
        Size {
            statements: product(copies, self.statements, ABOVE_STATEMENTS),
            nodes: product(copies, self.nodes, ABOVE_NODES),
            ..self
        }
    }
}

/// The sum, no further than up to a bound.
fn sum(a: u32, b: u32, bound: u32) -> u32
    ensures { result ≡ min (a + b) bound }
{
    a.saturating_add(b).min(bound)
}

/// The product, no further than up to a bound.
fn product(a: u32, b: u32, bound: u32) -> u32
    ensures { result ≡ min (a * b) bound }
{
    a.saturating_mul(b).min(bound)
}
