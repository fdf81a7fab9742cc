//! Images: `image` gives the image of a checked kernel whose roots' code is built. In specs/ stands what it means that an image's
//! code is the pieces of a kernel's statements, in order.
#![tactic(auto)]

mod channels;
mod cores;
mod law;
mod needs;
mod roots;

pub use cores::image;
pub use law::kernels_are_built;
