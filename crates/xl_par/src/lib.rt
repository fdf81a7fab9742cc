//! Lowering of `par`: the code that opens and closes one, and the code that ends its branches and a root.
#![tactic(auto)]

mod closing;
mod opening;
mod root;

pub use closing::{close_par, close_slave};
pub use opening::open_par;
pub use root::end_root;
