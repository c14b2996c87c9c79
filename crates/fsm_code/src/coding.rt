//! What signals become in the code.

ghost use Rattle.std.specs.Prelude.{◌≡◌, IfOk, replicate};
ghost use Rattle.rtl_bits.specs.declared.bit.Bit.TheVariants.{X};
ghost use Rattle.rtl_sig.specs.declared.sig.SigBit.TheVariants.{Fixed};
ghost use Rattle.net_model.specs.Fsm.Code.{coded, or_nothing, output_code};
ghost use Rattle.fsm_code.specs.Outputs.{IsTabled, coding_of, outputs_of};

use crate::numbers::fixed_code;
use crate::outputs::Outputs;
use fsm_parts::is_state_constant;
use rtl_bits::{Bit, Bits, Copied, Memory};
use rtl_ir::{constants_of, same_signal};
use rtl_sig::{SigBit, SigSpec};
use std::alloc::Global;

/// The states of a machine, its state wire and the wire of the code, and the outputs of its tree.
#[derive(Drop)]
pub(crate) struct Coding<'a> {
    pub(crate) states: &'a [Bits],
    pub(crate) state: SigSpec,
    pub(crate) code: SigSpec,
    pub(crate) outputs: Outputs,
}

/// So many x.
fn unknowns(alloc: Global, count: usize) -> Result<SigSpec, Memory>
    ensures value { IfOk result (λ signal. signal ≡ replicate count (Fixed X)) }
{
    let bits = vec![in alloc; SigBit::Fixed(Bit::X); count]?;
    SigSpec::from_vec(bits)
}

impl Coding<'_> {
    /// A followed signal in the code: the state, an output of the tree, a known constant, or x.
    pub(crate) fn coded(&self, alloc: Global, signal: &[SigBit]) -> Result<SigSpec, Memory>
        ensures value { IfOk result (λ after. IsTabled self.now.outputs →
            after ≡ coded (coding_of self.now) signal.now) }
    {
        if same_signal(self.state.as_slice(), signal) {
            return self.code.copy();
        }
        if is_state_constant(signal) {
            let bits = constants_of(alloc, signal)?;
            return fixed_code(alloc, self.states, bits.as_slice());
        }
        match self.outputs.find(alloc, signal)? {
            Some(after) => after.copy(),
            None => unknowns(alloc, self.states.len()),
        }
    }

    /// The fresh output of an old one, no bits where there is none.
    pub(crate) fn output(&self, alloc: Global, signal: &[SigBit]) -> Result<SigSpec, Memory>
        ensures value { IfOk result (λ after. IsTabled self.now.outputs →
            after ≡ or_nothing (output_code (outputs_of self.now.outputs) signal.now)) }
    {
        match self.outputs.find(alloc, signal)? {
            Some(after) => after.copy(),
            None => Ok(SigSpec::make(alloc)),
        }
    }
}
