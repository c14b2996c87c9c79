//! The stimulus of a simulation.

ghost use Rattle.std.specs.Prelude.{◌≡◌, ◌+◌, ◌++◌, ◌∷◌, [], ◌≤◌, ℕ, Err, IfOk, List, None, Ok, OnOk, Some, drop};
ghost use Rattle.std.specs.Prelude.{length, position, take};
ghost use Rattle.rtl_bits.specs.declared.bit.Bit.{Bit};
ghost use Rattle.rtl_ir.specs.declared.wire.Role.TheVariants.{Input};
ghost use Rattle.sim_text.specs.Lines.{step_of};
ghost use Rattle.sim_text.specs.Ports.{port_widths};
ghost use Rattle.sim_trace.specs.Stimulus.{ends_line, stimulus_of};

use rtl_bits::{Bits, Memory, Seq};
use rtl_ir::Module;
use sim_text::{StepFault, read_step};
use std::alloc::Global;
use thiserror::Error;

/// Why a text is no stimulus.
#[derive(Clone, Copy, Debug, PartialEq, Eq, Error)]
pub enum StimulusFault {
    /// The number, from 1, of the first line that says no input vector.
    #[error("line {0} of the stimulus is bad")]
    Bad(usize),
    #[error("out of memory")]
    Memory,
}

impl From<Memory> for StimulusFault {
    ghost use Rattle.std.specs.Prelude.{◌≡◌};
    ghost use Rattle.sim_trace.specs.declared.stimulus.StimulusFault.TheVariants as faults;

    ghost from_gives = { λ _ fault. fault ≡ faults.Memory };

    fn from(_memory: Memory) -> StimulusFault {
        StimulusFault::Memory
    }
}

/// Where the first line of a text ends.
fn line_end(text: &[u8]) -> Option<usize>
    ensures value { result ≡ position ends_line text.now }
{
    text.iter().position(|byte| *byte == b'\n')
}

/// The first bytes, so many.
fn front(count: usize, bytes: &[u8]) -> &[u8]
    requires within { count ≤ length bytes.now }
    ensures value { result.now ≡ take count bytes.now }
{
    &bytes[..count]
}

/// The bytes without so many at the front.
#[tactic(auto, using(std::proofs::lemmas::List::drop_min))]
fn behind(count: usize, bytes: &[u8]) -> &[u8]
    ensures value { result.now ≡ drop count bytes.now }
{
    &bytes[count.min(bytes.len())..]
}

/// Puts the input vector of a line behind those of the lines before it.
fn push_step(
    alloc: Global,
    steps: &mut Seq<Bits>,
    line: &[u8],
    module: &Module,
) -> Result<(), StimulusFault>
    ensures ok { OnOk result ((bits : List Bit) × (step_of (port_widths Input «module».now) line.now ≡
        Some bits) × (steps.new ≡ steps.old ++ bits ∷ [])) }
    ensures bad { (number : ℕ) → result ≡ Err (StimulusFault.Bad number) →
        (number ≡ length steps.old + 1) × (step_of (port_widths Input «module».now) line.now ≡ None) }
{
    let number = steps.as_slice().len() + 1;
    match read_step(alloc, line, module) {
        Ok(bits) => {
            steps.push(bits)?;
            Ok(())
        }
        Err(StepFault::Bad) => Err(StimulusFault::Bad(number)),
        Err(StepFault::Memory) => Err(StimulusFault::Memory),
    }
}

/// The stimulus of a module that the lines of a text say; what stands behind the last LF is no line.
#[tactic(auto, using(crate::proofs::Lining::reads_first, crate::proofs::Lining::reads_more, crate::proofs::Lining::reads_bad, crate::proofs::Lining::reads_end, crate::proofs::Lining::end_within))]
pub fn stimulus_of(alloc: Global, module: &Module, text: &[u8]) -> Result<Seq<Bits>, StimulusFault>
    ensures reads { IfOk result (λ steps. stimulus_of «module».now text.now ≡ Ok steps) }
    ensures bad { (number : ℕ) → result ≡ Err (StimulusFault.Bad number) →
        stimulus_of «module».now text.now ≡ Err number }
{
    let mut steps = Seq::make(alloc);
    let mut rest = text;
    while let Some(end) = line_end(rest) {
        let line = front(end, rest);
        push_step(alloc, &mut steps, line, module)?;
        rest = behind(end + 1, rest);
    }
    Ok(steps)
}
