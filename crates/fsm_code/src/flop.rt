//! The flip-flop in the code.

ghost use Rattle.std.specs.Prelude.{◌≡◌, IfOk};
ghost use Rattle.cell_types.specs.Levels.{level_in};
ghost use Rattle.cell_types.specs.declared.param_name.ParamName.TheVariants.{ArstPolarity, ClkPolarity};
ghost use Rattle.rtl_ir.specs.declared.module.Module.{Module};
ghost use Rattle.rtl_ir.specs.Parameters.{given_params};
ghost use Rattle.rtl_ir.specs.Types.{Ports};
ghost use Rattle.net_index.specs.Drivers.{AreDrivers};
ghost use Rattle.net_model.specs.Fsm.Code.{coded_flop, flop_params};
ghost use Rattle.net_model.specs.Proc.Sync.{polarity_of};
ghost use Rattle.fsm_code.specs.Outputs.{IsTabled, coding_of};
ghost use Rattle.fsm_code.specs.Parts.{clock_params, flop_pins, pins_of, reset_params, reset_pins};

use crate::coding::Coding;
use crate::numbers::code_of;
use cell_types::{CellKind, Levels, ParamName, PinName};
use fsm_parts::{at_pin, followed};
use match_cells::polarity_of;
use net_index::Drivers;
use rtl_bits::{Bits, Memory, Seq};
use rtl_ir::{Cell, CellParam, Pin, bits_param, cell_kind, fitting_shape, integer_param, pin_of};
use rtl_sig::SigBit;
use std::alloc::Global;

/// The levels at which the pins of a storage cell act. The flip-flop of a machine is one and fits its
/// kind, so memory alone can be missing; any other cell is answered with `Memory` too.
#[tactic(auto, unfolding(rtl_ir::specs::Flat::Cell::cell_shape))]
fn levels(alloc: Global, cell: &Cell) -> Result<Levels, Memory>
    ensures clock { IfOk result (λ levels. levels.clk ≡ level_in (given_params cell.now.params) ClkPolarity) }
    ensures reset { IfOk result (λ levels. levels.arst ≡ level_in (given_params cell.now.params) ArstPolarity) }
{
    match cell_kind(cell) {
        Some(CellKind::Storage(kind)) => {
            let shape = fitting_shape(alloc, CellKind::Storage(kind), cell)?;
            Ok(shape.levels)
        }
        _ => Err(Memory),
    }
}

/// A width, and the number of a clock's level.
fn clock_params(alloc: Global, width: usize, clock: u32) -> Result<Vec<CellParam>, Memory>
    ensures value { IfOk result (λ params. params.items ≡ clock_params width clock) }
{
    let mut params = Vec::new(alloc);
    params.push(integer_param(alloc, ParamName::Width, width)?)?;
    params.push(integer_param(alloc, ParamName::ClkPolarity, clock as usize)?)?;
    Ok(params)
}

/// A width, the numbers of the levels of a clock and a reset, and the value of the reset.
fn reset_params(
    alloc: Global,
    width: usize,
    clock: u32,
    level: u32,
    code: Bits,
) -> Result<Vec<CellParam>, Memory>
    ensures value { IfOk result (λ params. params.items ≡ reset_params width clock level code) }
{
    let mut params = Vec::new(alloc);
    params.push(integer_param(alloc, ParamName::Width, width)?)?;
    params.push(integer_param(alloc, ParamName::ClkPolarity, clock as usize)?)?;
    params.push(integer_param(alloc, ParamName::ArstPolarity, level as usize)?)?;
    params.push(bits_param(alloc, ParamName::ArstValue, code)?)?;
    Ok(params)
}

/// The parameters of the flip-flop, with the reset value in the code where it has one.
fn flop_params(
    alloc: Global,
    cell: &Cell,
    states: &[Bits],
    reset: &Option<Bits>,
) -> Result<Vec<CellParam>, Memory>
    ensures value { IfOk result (λ params. params.items ≡ flop_params cell.now states.now reset.now) }
{
    let levels = levels(alloc, cell)?;
    let clock = polarity_of(levels.clk);
    match reset {
        None => clock_params(alloc, states.len(), clock),
        Some(value) => {
            let level = polarity_of(levels.arst);
            let code = code_of(alloc, states, value.as_slice())?;
            reset_params(alloc, states.len(), clock, level, code)
        }
    }
}

/// The pins of a flip-flop: CLK, D and Q.
fn flop_pins(
    alloc: Global,
    clock: &[SigBit],
    d: &[SigBit],
    q: &[SigBit],
) -> Result<Vec<Pin>, Memory>
    ensures value { IfOk result (λ pins. pins.items ≡ flop_pins clock.now d.now q.now) }
{
    let mut pins = Vec::new(alloc);
    pins.push(pin_of(alloc, PinName::Clk, clock)?)?;
    pins.push(pin_of(alloc, PinName::D, d)?)?;
    pins.push(pin_of(alloc, PinName::Q, q)?)?;
    Ok(pins)
}

/// The pins of a flip-flop with a reset: CLK, ARST, D and Q.
fn reset_pins(
    alloc: Global,
    clock: &[SigBit],
    reset: &[SigBit],
    d: &[SigBit],
    q: &[SigBit],
) -> Result<Vec<Pin>, Memory>
    ensures value { IfOk result (λ pins. pins.items ≡ reset_pins clock.now reset.now d.now q.now) }
{
    let mut pins = Vec::new(alloc);
    pins.push(pin_of(alloc, PinName::Clk, clock)?)?;
    pins.push(pin_of(alloc, PinName::Arst, reset)?)?;
    pins.push(pin_of(alloc, PinName::D, d)?)?;
    pins.push(pin_of(alloc, PinName::Q, q)?)?;
    Ok(pins)
}

/// The pins of the flip-flop of a cell, with its reset where it has one.
fn pins_of(
    alloc: Global,
    cell: &Cell,
    reset: &Option<Bits>,
    d: &[SigBit],
    q: &[SigBit],
) -> Result<Vec<Pin>, Memory>
    ensures value { IfOk result (λ pins. pins.items ≡ pins_of cell.now reset.now d.now q.now) }
{
    let clock = at_pin(cell, PinName::Clk);
    match reset {
        None => flop_pins(alloc, clock, d, q),
        Some(_) => reset_pins(alloc, clock, at_pin(cell, PinName::Arst), d, q),
    }
}

/// The flip-flop in the code.
pub(crate) fn coded_flop(
    alloc: Global,
    index: &Drivers,
    coding: &Coding,
    reset: &Option<Bits>,
    cell: Cell,
) -> Result<Cell, Memory>
    ensures value { IfOk result (λ after. (ports : Ports) (m : Module) → AreDrivers index.now ports m →
        IsTabled coding.now.outputs → after ≡ coded_flop m (coding_of coding.now) reset.now cell) }
{
    let next = followed(alloc, index, at_pin(&cell, PinName::D))?;
    let d = coding.coded(alloc, next.as_slice())?;
    let params = flop_params(alloc, &cell, coding.states, reset)?;
    let pins = pins_of(alloc, &cell, reset, d.as_slice(), coding.code.as_slice())?;
    Ok(Cell {
        params: Seq::from_vec(params),
        pins: Seq::from_vec(pins),
        ..cell
    })
}
