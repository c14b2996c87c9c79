//! Bits, lists of them, texts, a counter of steps, and the one error of the base crates.
#![tactic(auto)]

mod bit;
mod bits;
mod knowledge;
pub mod laws;
mod memory;
mod numbers;
mod seq;
mod short;
mod steps;
mod text;

pub use bit::{Bit, bit_and, bit_mux, bit_not, bit_or, bit_xor, merge};
pub use knowledge::all_known;
pub use memory::Memory;
pub use numbers::{digit_of, is_one, low_bit_of, number_of, top_of};
pub use seq::{Copied, Seq};
pub use steps::Steps;
pub use text::Text;

/// A list of bits, the least significant first.
pub type Bits = Seq<Bit>;
