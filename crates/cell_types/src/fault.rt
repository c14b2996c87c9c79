//! The faults of a cell's parameters and pins.

ghost use Rattle.std.specs.Prelude.{◌≡◌, ◌≤◌};
ghost use Rattle.std.specs.List.{list_all, list_any};
ghost use Rattle.cell_types.specs.Fault.{are_params_good, are_pins_good, fault_of, fits, has_no_meaning};
ghost use Rattle.cell_types.specs.Fault.{has_other_width, has_param, has_pin, has_width, is_bad, is_given, is_joined};
ghost use Rattle.cell_types.specs.Fault.{is_wide, is_wide_pin, limit_of, may_lack};

use crate::given::{Param, PinWidth, count_params, count_pins, number_in, value_in};
use crate::kind::CellKind;
use crate::memory::MemoryKind;
use crate::number::is_passed;
use crate::param_name::ParamName;
use crate::params::params_of;
use crate::pin_name::PinName;
use crate::pins::pins_of;
use crate::reading::is_readable;
use crate::widths::pin_width;
use crate::word::{ShiftKind, UnaryKind, WordKind};
use rtl_bits::Memory;
use thiserror::Error;

/// What is wrong with a cell: the first of these. Only want of memory is no fault of the cell.
#[derive(Clone, Copy, Debug, PartialEq, Eq, Error)]
pub enum CellFault {
    /// A parameter or pin is missing, unknown or given twice, or a parameter has no value that
    /// the cell can be read with.
    #[error("a parameter or pin is missing, unknown, given twice or without meaning")]
    Bad,
    /// A width passes its limit.
    #[error("a width passes its limit")]
    Wide,
    /// A pin has another width than the parameters say.
    #[error("a pin has another width than the parameters say")]
    Width,
    /// There was no memory for the shape.
    #[error("out of memory")]
    Memory,
}

impl From<Memory> for CellFault {
    ghost use Rattle.cell_types.specs.declared.fault.CellFault.TheVariants as Fault;

    ghost from_gives = { λ _ fault. fault ≡ Fault.Memory };

    fn from(_memory: Memory) -> CellFault {
        CellFault::Memory
    }
}

/// The first fault of a cell. It takes no memory.
pub(crate) fn fault_of(kind: CellKind, params: &[Param], pins: &[PinWidth]) -> Option<CellFault>
    ensures value { result ≡ fault_of kind params.now pins.now }
{
    if is_bad(kind, params, pins) {
        Some(CellFault::Bad)
    } else if is_wide(kind, params) {
        Some(CellFault::Wide)
    } else if has_other_width(kind, params, pins) {
        Some(CellFault::Width)
    } else {
        None
    }
}

fn is_bad(kind: CellKind, params: &[Param], pins: &[PinWidth]) -> bool
    ensures value { result ≡ is_bad kind params.now pins.now }
{
    !are_params_good(kind, params) || !are_pins_good(kind, pins) || has_no_meaning(kind, params)
}

/// Whether each parameter of the kind is given once, with a value that can be read, and no other.
fn are_params_good(kind: CellKind, params: &[Param]) -> bool
    ensures value { result ≡ are_params_good kind params.now }
{
    are_given(kind, params, params_of(kind)) && are_params_known(kind, params)
}

fn are_given(kind: CellKind, params: &[Param], names: &[ParamName]) -> bool
    ensures value { result ≡ list_all (is_given kind params.now) names.now }
{
    names.iter().all(|name| is_given(kind, params, *name))
}

fn are_params_known(kind: CellKind, params: &[Param]) -> bool
    ensures value { result ≡ list_all (has_param kind) params.now }
{
    params.iter().all(|param| has_param(kind, param))
}

fn is_given(kind: CellKind, params: &[Param], name: ParamName) -> bool
    ensures value { result ≡ is_given kind params.now name }
{
    count_params(params, name) == 1 && is_readable(kind, params, name)
}

fn has_param(kind: CellKind, param: &Param) -> bool
    ensures value { result ≡ has_param kind param.now }
{
    params_of(kind).iter().any(|name| param.is(*name))
}

/// Whether each pin of the kind is there once, where it may not be missing, and no other.
fn are_pins_good(kind: CellKind, pins: &[PinWidth]) -> bool
    ensures value { result ≡ are_pins_good kind pins.now }
{
    are_joined(kind, pins, pins_of(kind)) && are_pins_known(kind, pins)
}

fn are_joined(kind: CellKind, pins: &[PinWidth], names: &[PinName]) -> bool
    ensures value { result ≡ list_all (is_joined kind pins.now) names.now }
{
    names.iter().all(|name| is_joined(kind, pins, *name))
}

fn are_pins_known(kind: CellKind, pins: &[PinWidth]) -> bool
    ensures value { result ≡ list_all (has_pin kind) pins.now }
{
    pins.iter().all(|pin| has_pin(kind, pin))
}

fn is_joined(kind: CellKind, pins: &[PinWidth], name: PinName) -> bool
    ensures value { result ≡ is_joined kind pins.now name }
{
    match count_pins(pins, name) {
        0 => may_lack(kind, name),
        1 => true,
        _ => false,
    }
}

fn has_pin(kind: CellKind, pin: &PinWidth) -> bool
    ensures value { result ≡ has_pin kind pin.now }
{
    pins_of(kind).iter().any(|name| pin.is(*name))
}

/// A read port may lack all but its address and its word.
fn may_lack(kind: CellKind, pin: PinName) -> bool
    ensures value { result ≡ may_lack kind pin }
{
    match kind {
        CellKind::Memory(MemoryKind::Memrd | MemoryKind::MemrdV2) => {
            !matches!(pin, PinName::Addr | PinName::Data)
        }
        _ => false,
    }
}

/// A signed `$shiftx`, and a slice that passes the end of its operand.
fn has_no_meaning(kind: CellKind, params: &[Param]) -> bool
    ensures value { result ≡ has_no_meaning kind params.now }
{
    match kind {
        CellKind::Word(WordKind::Shift(ShiftKind::Shiftx)) => {
            number_in(params, ParamName::ASigned) != 0
        }
        CellKind::Word(WordKind::Slice) => is_passed(
            value_in(params, ParamName::AWidth),
            value_in(params, ParamName::Offset),
            value_in(params, ParamName::YWidth),
        ),
        _ => false,
    }
}

fn is_wide(kind: CellKind, params: &[Param]) -> bool
    ensures value { result ≡ is_wide kind params.now }
{
    match kind {
        CellKind::Word(word) => has_wide_pin(word, params, pins_of(kind)),
        CellKind::Storage(_) | CellKind::Memory(_) => number_in(params, ParamName::Width) > 4096,
        CellKind::Gate(_) | CellKind::StorageGate(_) => false,
    }
}

fn has_wide_pin(kind: WordKind, params: &[Param], names: &[PinName]) -> bool
    ensures value { result ≡ list_any (is_wide_pin kind params.now) names.now }
{
    names.iter().any(|name| is_wide_pin(kind, params, *name))
}

fn is_wide_pin(kind: WordKind, params: &[Param], name: PinName) -> bool
    ensures value { result ≡ is_wide_pin kind params.now name }
{
    pin_width(CellKind::Word(kind), params, name) > limit_of(kind)
}

/// The greatest width of a pin.
fn limit_of(kind: WordKind) -> u128
    ensures value { result ≡ limit_of kind }
    ensures small { result ≤ 4096 }
{
    match kind {
        WordKind::Unary(UnaryKind::Neg)
        | WordKind::Order(_)
        | WordKind::Arith(_)
        | WordKind::Division(_) => 128,
        _ => 4096,
    }
}

fn has_other_width(kind: CellKind, params: &[Param], pins: &[PinWidth]) -> bool
    ensures value { result ≡ has_other_width kind params.now pins.now }
{
    !have_widths(kind, params, pins, pins_of(kind))
}

fn have_widths(kind: CellKind, params: &[Param], pins: &[PinWidth], names: &[PinName]) -> bool
    ensures value { result ≡ list_all (has_width kind params.now pins.now) names.now }
{
    names
        .iter()
        .all(|name| has_width(kind, params, pins, *name))
}

fn has_width(kind: CellKind, params: &[Param], pins: &[PinWidth], name: PinName) -> bool
    ensures value { result ≡ has_width kind params.now pins.now name }
{
    pins.iter().all(|pin| fits(kind, params, name, pin))
}

/// Whether a pin has the width of this name, where it is named so.
fn fits(kind: CellKind, params: &[Param], name: PinName, pin: &PinWidth) -> bool
    ensures value { result ≡ fits kind params.now name pin.now }
{
    !pin.is(name) || u128::from(pin.width) == pin_width(kind, params, name)
}
