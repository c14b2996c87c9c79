//! States as numbers, and their codes.

ghost use Rattle.std.specs.Prelude.{◌≡◌, ◌==◌, IfOk, if◌then◌else◌, map};
ghost use Rattle.rtl_bits.specs.declared.bit.Bit.TheVariants.{S0, S1};
ghost use Rattle.rtl_bits.specs.Numbers.{digit_of, number_of};
ghost use Rattle.rtl_sig.specs.declared.sig.SigBit.TheVariants.{Fixed};
ghost use Rattle.net_model.specs.Fsm.Code.{code_of, state_bit};
ghost use Rattle.fsm_code.specs.Digits.{digit_at, same_number};

use rtl_bits::{Bit, Bits, Memory, digit_of};
use rtl_sig::{SigBit, SigSpec, fixed};
use std::alloc::Global;

/// What the bit at a place adds there; past the end nothing.
fn digit_at(bits: &[Bit], at: usize) -> u8
    ensures value { result ≡ digit_at bits.now at }
{
    match bits.get(at) {
        Some(bit) => digit_of(*bit),
        None => 0,
    }
}

/// Whether the bits stand for one number.
#[tactic(auto, using(crate::proofs::Digits::numbers_differ, crate::proofs::Digits::numbers_same))]
pub(crate) fn same_number(a: &[Bit], b: &[Bit]) -> bool
    ensures value { result ≡ same_number a.now b.now }
{
    for at in 0..a.len().max(b.len()) {
        if digit_at(a, at) != digit_at(b, at) {
            return false;
        }
    }
    true
}

/// The bit of a state in the code of the number that the bits stand for.
fn code_bit(state: &[Bit], bits: &[Bit]) -> Bit
    ensures value { result ≡ (if number_of state.now == number_of bits.now then S1 else S0) }
{
    if same_number(state, bits) {
        Bit::S1
    } else {
        Bit::S0
    }
}

/// The code of the number that the bits stand for: 1 at its place among the states, 0 at all others.
pub(crate) fn code_of(alloc: Global, states: &[Bits], bits: &[Bit]) -> Result<Bits, Memory>
    ensures value { IfOk result (λ code. code ≡ code_of states.now (number_of bits.now)) }
{
    let mut code = Bits::make(alloc);
    for state in states {
        code.push(code_bit(state.as_slice(), bits))?;
    }
    Ok(code)
}

/// The code of the number that the bits stand for, as constants of a signal.
pub(crate) fn fixed_code(alloc: Global, states: &[Bits], bits: &[Bit]) -> Result<SigSpec, Memory>
    ensures value { IfOk result (λ code. code ≡ map Fixed (code_of states.now (number_of bits.now))) }
{
    let code = code_of(alloc, states, bits)?;
    fixed(alloc, code.as_slice())
}

/// The bit of the state that the bits stand for, where it is one of the states.
pub(crate) fn state_bit(states: &[Bits], code: &[SigBit], bits: &[Bit]) -> Option<SigBit>
    ensures value { result ≡ state_bit states.now code.now (number_of bits.now) }
{
    for at in 0..states.len().min(code.len()) {
        if same_number(states[at].as_slice(), bits) {
            return Some(code[at]);
        }
    }
    None
}
