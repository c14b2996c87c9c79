//! A state machine that was found in a module.

ghost use Rattle.std.specs.Prelude.{◌≡◌, IfOk};

use rtl_bits::{Bits, Copied, Memory, Seq};

/// A state wire, with the cells that make its next state and that compare it. Cells and wires are
/// named by their places in the module's lists.
#[derive(Drop)]
pub struct Machine {
    pub wire: u32,
    pub flop: u32,
    pub muxes: Seq<u32>,
    pub compares: Seq<u32>,
    /// The states, rising as numbers.
    pub states: Seq<Bits>,
    /// The state that the flip-flop's reset gives, where it has one.
    pub reset: Option<Bits>,
    /// The state before the first step, where it is known.
    pub start: Option<Bits>,
}

/// A copy of the bits that may be there.
fn copy_of(bits: &Option<Bits>) -> Result<Option<Bits>, Memory>
    ensures value { IfOk result (λ copy. copy ≡ bits.now) }
{
    match bits {
        Some(bits) => Ok(Some(bits.copy()?)),
        None => Ok(None),
    }
}

impl Copied for Machine {
    fn copy(&self) -> Result<Machine, Memory> {
        Ok(Machine {
            wire: self.wire,
            flop: self.flop,
            muxes: self.muxes.copy()?,
            compares: self.compares.copy()?,
            states: self.states.copy()?,
            reset: copy_of(&self.reset)?,
            start: copy_of(&self.start)?,
        })
    }
}
