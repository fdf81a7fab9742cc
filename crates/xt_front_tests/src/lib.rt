//! Tests of the compiler's front on texts, by the public calls of the crates from xc_lexer to xc_disjoint. The crate has nothing
//! for others to use.
#![tactic(auto)]

#[cfg(test)]
mod deepest;
#[cfg(test)]
mod rows;
