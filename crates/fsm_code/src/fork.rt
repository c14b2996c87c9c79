//! Cells of the tree in the code.

ghost use Rattle.std.specs.Prelude.{◌≡◌, IfOk, List, drop, flat_map, map, slice_get};
ghost use Rattle.rtl_sig.specs.declared.sig.SigBit.{SigBit};
ghost use Rattle.rtl_ir.specs.declared.module.Module.{Module};
ghost use Rattle.rtl_ir.specs.Types.{Ports};
ghost use Rattle.net_index.specs.Drivers.{AreDrivers};
ghost use Rattle.net_model.specs.Fsm.Code.{coded, coded_arms, coded_fork, fork_params, or_nothing};
ghost use Rattle.fsm_code.specs.Outputs.{IsTabled, coding_of};
ghost use Rattle.fsm_code.specs.Parts.{fork_pins, select_params, width_params};

use crate::coding::Coding;
use cell_types::{CellKind, ParamName, PinName, WordKind};
use fsm_parts::{arms, at_pin};
use net_index::Drivers;
use rtl_bits::{Copied, Memory, Seq};
use rtl_ir::{Cell, CellParam, Pin, cell_kind, integer_param, pin_of};
use rtl_sig::{SigBit, SigSpec};
use std::alloc::Global;

/// A width.
fn width_params(alloc: Global, width: usize) -> Result<Vec<CellParam>, Memory>
    ensures value { IfOk result (λ params. params.items ≡ width_params width) }
{
    let mut params = Vec::new(alloc);
    params.push(integer_param(alloc, ParamName::Width, width)?)?;
    Ok(params)
}

/// A width, and a number of selects.
fn select_params(alloc: Global, width: usize, selects: usize) -> Result<Vec<CellParam>, Memory>
    ensures value { IfOk result (λ params. params.items ≡ select_params width selects) }
{
    let mut params = Vec::new(alloc);
    params.push(integer_param(alloc, ParamName::Width, width)?)?;
    params.push(integer_param(alloc, ParamName::SWidth, selects)?)?;
    Ok(params)
}

/// The parameters of a fork of a width, with so many selects.
fn fork_params(
    alloc: Global,
    kind: Option<CellKind>,
    width: usize,
    selects: usize,
) -> Result<Vec<CellParam>, Memory>
    ensures value { IfOk result (λ params. params.items ≡ fork_params kind width selects) }
{
    match kind {
        Some(CellKind::Word(WordKind::Pmux)) => select_params(alloc, width, selects),
        _ => width_params(alloc, width),
    }
}

/// The pins of a fork: A, B, S and Y.
fn fork_pins(
    alloc: Global,
    a: &[SigBit],
    b: &[SigBit],
    s: &[SigBit],
    y: &[SigBit],
) -> Result<Vec<Pin>, Memory>
    ensures value { IfOk result (λ pins. pins.items ≡ fork_pins a.now b.now s.now y.now) }
{
    let mut pins = Vec::new(alloc);
    pins.push(pin_of(alloc, PinName::A, a)?)?;
    pins.push(pin_of(alloc, PinName::B, b)?)?;
    pins.push(pin_of(alloc, PinName::S, s)?)?;
    pins.push(pin_of(alloc, PinName::Y, y)?)?;
    Ok(pins)
}

/// These signals in the code.
fn coded_all(alloc: Global, coding: &Coding, signals: &[SigSpec]) -> Result<Vec<SigSpec>, Memory>
    ensures value { IfOk result (λ after. IsTabled coding.now.outputs →
        after.items ≡ map (coded (coding_of coding.now)) signals.now) }
{
    let mut after = Vec::new(alloc);
    for signal in signals {
        after.push(coding.coded(alloc, signal.as_slice())?)?;
    }
    Ok(after)
}

/// The first of these signals, no bits where there is none.
fn first(alloc: Global, signals: &[SigSpec]) -> Result<SigSpec, Memory>
    ensures value { IfOk result (λ signal. signal ≡ or_nothing (slice_get signals.now 0)) }
{
    match signals.get(0) {
        Some(signal) => signal.copy(),
        None => Ok(SigSpec::make(alloc)),
    }
}

/// The other signals, one behind another.
fn others(alloc: Global, signals: &[SigSpec]) -> Result<SigSpec, Memory>
    ensures value { IfOk result (λ signal. signal ≡ flat_map (λ (s : List SigBit). s) (drop 1 signals.now)) }
{
    let mut joined = Vec::new(alloc);
    for at in 1..signals.len() {
        joined.extend_from_slice(signals[at].as_slice())?;
    }
    SigSpec::from_vec(joined)
}

/// The arms of a fork in the code.
fn arms_in_code(
    alloc: Global,
    index: &Drivers,
    coding: &Coding,
    cell: &Cell,
) -> Result<Vec<SigSpec>, Memory>
    ensures value { IfOk result (λ after. (ports : Ports) (m : Module) → AreDrivers index.now ports m →
        IsTabled coding.now.outputs → after.items ≡ coded_arms m (coding_of coding.now) cell.now) }
{
    let old = arms(alloc, index, cell)?;
    let new = coded_all(alloc, coding, old.as_slice())?;
    Ok(new)
}

/// A cell of the tree in the code.
pub(crate) fn coded_fork(
    alloc: Global,
    index: &Drivers,
    coding: &Coding,
    cell: Cell,
) -> Result<Cell, Memory>
    ensures value { IfOk result (λ after. (ports : Ports) (m : Module) → AreDrivers index.now ports m →
        IsTabled coding.now.outputs → after ≡ coded_fork m (coding_of coding.now) cell) }
{
    let arms = arms_in_code(alloc, index, coding, &cell)?;
    let a = first(alloc, arms.as_slice())?;
    let b = others(alloc, arms.as_slice())?;
    let s = at_pin(&cell, PinName::S);
    let y = coding.output(alloc, at_pin(&cell, PinName::Y))?;
    let params = fork_params(alloc, cell_kind(&cell), coding.states.len(), s.len())?;
    let pins = fork_pins(alloc, a.as_slice(), b.as_slice(), s, y.as_slice())?;
    Ok(Cell {
        params: Seq::from_vec(params),
        pins: Seq::from_vec(pins),
        ..cell
    })
}
