//! Values of keys in a cache that threads share: each is built by the first that asks for it, and found by the others.
#![tactic(auto)]

mod ask;
mod finding;
pub mod laws;
mod order;

pub use finding::{Found, built_now, find};
pub use order::Order;
