//! The values that a machine may start from, and its states.

ghost use Rattle.std.specs.Prelude.{◌≡◌, ◌++◌, false, true, IfOk, MatchOption, OnOk, length};
ghost use Rattle.std.specs.List.{list_all, list_any};
ghost use Rattle.rtl_bits.specs.Knowledge.{all_known, is_known};
ghost use Rattle.net_model.specs.Fsm.Find.{in_state_order, known_start, option_state, reset_value};
ghost use Rattle.fsm_find.specs.Attributes.{init_bits};
ghost use Rattle.fsm_find.specs.Starts.{AreStarts, are_starts, is_count, is_state_of, with_starts};

use crate::params::{reset_value, start_bits};
use crate::states::{MAX_STATES, in_state_order};
use rtl_bits::{Bit, Bits, Copied, Memory, all_known};
use rtl_ir::{Cell, Wire};
use std::alloc::Global;

/// The values that a machine may start from.
#[derive(Drop)]
pub(crate) struct Starts {
    /// The state that the reset gives, where there is one.
    pub(crate) reset: Option<Bits>,
    /// The state before the first step, where it is known.
    pub(crate) start: Option<Bits>,
}

/// Whether a bit is known.
fn has_known(bits: &[Bit]) -> bool
    ensures value { result ≡ list_any is_known bits.now }
{
    for bit in bits {
        if bit.known() {
            return true;
        }
    }
    false
}

/// Whether the bits are known, where there are some.
fn are_known_or_none(bits: &Option<Bits>) -> bool
    ensures value { result ≡ list_all all_known (option_state bits.now) }
{
    match bits {
        Some(bits) => all_known(bits.as_slice()),
        None => true,
    }
}

/// The bits where they are known.
fn known_start(bits: Bits) -> Option<Bits>
    ensures value { result ≡ known_start bits }
{
    if all_known(bits.as_slice()) {
        Some(bits)
    } else {
        None
    }
}

/// Whether the reset value is known where there is one, and the start value wholly or not at all.
fn are_starts(reset: &Option<Bits>, start: &[Bit]) -> bool
    ensures value { result ≡ are_starts reset.now start.now }
{
    are_known_or_none(reset) && (all_known(start) || !has_known(start))
}

/// The values that the flip-flop and its wire start from, None where the reset value is not known, or a part of the
/// start value alone.
pub(crate) fn start_values(
    alloc: Global,
    wire: &Wire,
    flop: &Cell,
) -> Result<Option<Starts>, Memory>
    ensures value { IfOk result (λ starts.
        MatchOption starts (are_starts (reset_value flop.now) (init_bits «wire».now) ≡ false)
        (AreStarts (reset_value flop.now) (init_bits «wire».now))) }
{
    let reset = reset_value(alloc, flop)?;
    let bits = start_bits(alloc, wire)?;
    if !are_starts(&reset, bits.as_slice()) {
        return Ok(None);
    }
    let start = known_start(bits);
    Ok(Some(Starts { reset, start }))
}

/// A copy of the state goes last, where there is one.
fn push_state(list: &mut Vec<Bits>, state: &Option<Bits>) -> Result<(), Memory>
    ensures ok { OnOk result (list.new.items ≡ list.old.items ++ option_state state.now) }
{
    match state {
        Some(bits) => {
            list.push(bits.copy()?)?;
            Ok(())
        }
        None => Ok(()),
    }
}

/// Known leaves with the values that the machine may start from.
fn with_starts(leaves: Vec<Bits>, starts: &Starts) -> Result<Vec<Bits>, Memory>
    ensures value { IfOk result (λ list. list.items ≡ with_starts leaves.items starts.now) }
{
    let mut list = leaves;
    push_state(&mut list, &starts.reset)?;
    push_state(&mut list, &starts.start)?;
    Ok(list)
}

/// Whether the bits are known, and as many as the width says.
fn is_state_of(width: usize, bits: &[Bit]) -> bool
    ensures value { result ≡ is_state_of width bits.now }
{
    bits.len() == width && all_known(bits)
}

/// Whether each of the list is a state of the width.
fn are_states_of(width: usize, list: &[Bits]) -> bool
    ensures value { result ≡ list_all (is_state_of width) list.now }
{
    for bits in list {
        if !is_state_of(width, bits.as_slice()) {
            return false;
        }
    }
    true
}

/// The states of a machine of this width, rising as numbers, None where there are not 2 to 64. A state that is not
/// known, or of another width, is taken for want of memory.
pub(crate) fn states_of(
    alloc: Global,
    width: usize,
    leaves: Vec<Bits>,
    starts: &Starts,
) -> Result<Option<Vec<Bits>>, Memory>
    ensures value { IfOk result (λ states.
        MatchOption states (is_count (length (in_state_order (with_starts leaves.items starts.now))) ≡ false)
        (λ s. (s.items ≡ in_state_order (with_starts leaves.items starts.now))
        × (is_count (length (in_state_order (with_starts leaves.items starts.now))) ≡ true))) }
    ensures told { OnOk result (list_all (is_state_of width) (with_starts leaves.items starts.now) ≡ true) }
{
    let list = with_starts(leaves, starts)?;
    let slice = list.as_slice();
    if !are_states_of(width, slice) {
        return Err(Memory);
    }
    let states = counted_states(alloc, slice)?;
    Ok(states)
}

/// The states of a list, rising as numbers, None where there are not 2 to 64.
fn counted_states(alloc: Global, list: &[Bits]) -> Result<Option<Vec<Bits>>, Memory>
    ensures value { IfOk result (λ states. MatchOption states (is_count (length (in_state_order list.now)) ≡ false)
        (λ s. (s.items ≡ in_state_order list.now) × (is_count (length (in_state_order list.now)) ≡ true))) }
{
    match in_state_order(alloc, list)? {
        Some(states) => Ok(if_counted(states)),
        None => Ok(None),
    }
}

/// The states where there are 2 to 64.
fn if_counted(states: Vec<Bits>) -> Option<Vec<Bits>>
    ensures value { MatchOption result (is_count (length states.items) ≡ false) (λ s. (s.items ≡ states.items)
        × (is_count (length states.items) ≡ true)) }
{
    if is_count(states.len()) {
        Some(states)
    } else {
        None
    }
}

/// Whether a machine may have so many states.
fn is_count(count: usize) -> bool
    ensures value { result ≡ is_count count }
{
    2 <= count && count <= MAX_STATES
}
