//! Tokens, trees, names and kernels as text, each put on a page.

mod kernels;
mod names;
mod page;
mod spelled;
mod tokens;
mod trees;

pub use kernels::put_kernel;
pub use names::put_names;
pub use page::Page;
pub use tokens::put_tokens;
pub use trees::put_tree;
