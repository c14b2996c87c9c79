//! Laws of what is built beside a module: cells, wires and connections that go after its own. The program calls none
//! of it.
#![tactic(auto)]

mod laws;

pub use laws::fresh_bits_stand_once;
