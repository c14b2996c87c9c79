//! Cones of combinational gates over at most five leaves: what they give, and which may stand in the place of
//! which.
#![tactic(auto)]

mod below;
mod cone;
pub mod laws;
mod row;

pub use below::cone_below;
pub use cone::Cone;
pub use row::{Leaf, Row};
