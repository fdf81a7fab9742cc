//! Examples of what programs mean, worked out by hand; the check computes them by the definitions of xc_meaning, xc_kernel and
//! xr_match. The crate has nothing for others to use.
//!
//! They stand in proofs/, by subject: what is seen of runs, of text and of kernel, how many steps a run takes, in which states nothing
//! is left but to wait, where the law between text and kernel says less, what counts programs have under the limits of size, and
//! listings that implement no program that ends.
#![tactic(auto)]
