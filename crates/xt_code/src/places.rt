// Where variables and ports stand, and what is in the memory.

use std::alloc::{AllocError, Global};
use xl_expr::{Plan, ResAt, VarAt, VarPlan};
use xw_words::List;

/// What stands at dp + 4n, by n.
pub const MEMORY: [(u32, u32); 17] = [
    (0, 7),
    (1, 10),
    (2, 11),
    (3, 12),
    (4, 99),
    (5, 80),
    (6, 120),
    (7, 124),
    (8, 0xffff_ff00),
    (9, 0xffff_ff01),
    (20, 30),
    (21, 31),
    (22, 32),
    (23, 98),
    (30, 40),
    (31, 41),
    (32, 97),
];

/// A word next to dp; three words next to dp; three words elsewhere; an element of three, elsewhere; a word elsewhere.
const VARIABLES: [Option<VarPlan>; 5] = [
    Some(VarPlan {
        place: VarAt::Near(0),
        words: 1,
    }),
    Some(VarPlan {
        place: VarAt::Near(1),
        words: 3,
    }),
    Some(VarPlan {
        place: VarAt::Far(5),
        words: 3,
    }),
    Some(VarPlan {
        place: VarAt::Through(6),
        words: 3,
    }),
    Some(VarPlan {
        place: VarAt::Far(7),
        words: 1,
    }),
];

/// Port 32A, by its identifier and by a word that is 256 below it; then ports 1A, 16A and 1B.
const PORTS: [Option<ResAt>; 5] = [
    Some(ResAt::Fixed(0)),
    Some(ResAt::Held(8, 1)),
    Some(ResAt::Fixed(0x100)),
    Some(ResAt::Fixed(0x200)),
    Some(ResAt::Fixed(0x300)),
];

/// A timer by its identifier, another one by a word that is 512 below it.
const TIMERS: [Option<ResAt>; 2] = [Some(ResAt::Fixed(1)), Some(ResAt::Held(9, 2))];

pub fn plan(alloc: Global) -> Result<Plan, AllocError> {
    Ok(Plan {
        vars: List::from_vec(Vec::from_array(alloc, VARIABLES)?),
        ports: List::from_vec(Vec::from_array(alloc, PORTS)?),
        timers: List::from_vec(Vec::from_array(alloc, TIMERS)?),
        ends: List::new(alloc),
        channels: List::new(alloc),
        first_stack: 0,
    })
}
