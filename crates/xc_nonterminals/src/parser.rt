use std::alloc::Global;
use xc_tree::Tok;

/// The tokens of a program, and where memory for its tree comes from.
#[derive(Clone, Copy)]
pub struct Parser<'a> {
    pub alloc: Global,
    pub toks: &'a [Tok],
}

/// What was read, and the place of the token behind it.
#[derive(Drop)]
pub struct Read<T> {
    pub value: T,
    pub end: usize,
}
