//! Results that are kept under keys: who may build one, and what was built.
#![tactic(auto)]

mod cache;
mod call;
mod keyed;
pub mod laws;
mod locks;
mod make;
mod meet;
mod seat;
mod shard;
mod view;

pub use cache::SharedCache;
pub use call::{Act, Call};
pub use keyed::Keyed;
pub use make::Opened;
pub use seat::{Seat, SeatCalls};
pub use shard::{Claim, Forget, Shard, Ticket};
