ghost use Rattle.std.specs.Prelude.{◌≡◌};
ghost use Rattle.xc_disjoint.specs.Uses.{after as behind, use_of as use_by, with_use};

use xc_tree::earlier;
use xw_words::{Broken, Pos};

/// How some code uses a channel.
#[derive(Clone, Copy)]
pub struct Use {
    pub held: Held,
    /// The first rule 605 of all `par`s in the code, were each in one of the channel's sides: at the second branch that uses it.
    pub second: Option<Broken>,
}

/// How the innermost `par` in some code that holds all its uses of a channel holds them.
#[derive(Clone, Copy)]
pub enum Held {
    /// There is none, or one branch alone uses it.
    Apart,
    /// Two branches use it, and this is the first rule 605 of the `par`s inside.
    Two(Option<Broken>),
    /// More do, and this is rule 603 at the third.
    Many(Broken),
}

/// How the first branches of a `par` use a channel.
#[derive(Clone, Copy)]
pub enum Share {
    /// One uses it, like this.
    One(Use),
    /// Two do: rule 605 at the second, and the first one of the `par`s inside.
    Two(Broken, Option<Broken>),
    /// More do: rule 603 at the third, and the first rule 605 of all.
    Many(Broken, Option<Broken>),
}

/// By the use in some code and in what follows it.
pub fn after(first: Use, next: Use) -> Use
    ensures { result ≡ behind first next }
{
    Use {
        held: Held::Apart,
        second: earlier(first.second, next.second),
    }
}

/// How the first branches use a channel, with one more at this place that uses it.
pub fn with_branch(share: Option<Share>, next: Use, pos: Pos) -> Share
    ensures { result ≡ with_use pos share next }
{
    match share {
        None => Share::One(next),
        Some(Share::One(one)) => Share::Two(
            Broken { rule: 605, pos },
            earlier(one.second, next.second),
        ),
        Some(Share::Two(second, inside)) => Share::Many(
            Broken { rule: 603, pos },
            earlier(earlier(inside, Some(second)), next.second),
        ),
        Some(Share::Many(third, seconds)) => Share::Many(third, earlier(seconds, next.second)),
    }
}

/// The use in the whole `par`, by that of all its branches.
pub fn use_of(share: Share) -> Use
    ensures { result ≡ use_by share }
{
    match share {
        Share::One(one) => one,
        Share::Two(second, inside) => Use {
            held: Held::Two(inside),
            second: earlier(inside, Some(second)),
        },
        Share::Many(third, seconds) => Use {
            held: Held::Many(third),
            second: seconds,
        },
    }
}
