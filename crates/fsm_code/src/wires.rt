//! Fresh wires for the code and for the outputs of the tree.

ghost use Rattle.std.specs.Prelude.{◌≡◌, Err, IfOk, OnOk, Some, map, option_map, slice_get};
ghost use Rattle.cell_types.specs.declared.pin_name.PinName.TheVariants.{Y};
ghost use Rattle.rtl_ir.specs.declared.cell.Cell.{Cell};
ghost use Rattle.net_index.specs.Builder.{IsInLimits, PassesLimit};
ghost use Rattle.net_model.specs.Fsm.Code.{code_init};
ghost use Rattle.net_model.specs.Fsm.Find.{at_pin};
ghost use Rattle.fsm_code.specs.Outputs.{IsTabled, code_wire, fresh_by, output_wire, outputs_of};

use crate::numbers::code_of;
use crate::outputs::Outputs;
use cell_types::PinName;
use fsm_parts::{at_pin, cell_at};
use net_index::{Builder, PassFault};
use rtl_bits::{Bits, Memory, Seq, Text};
use rtl_ir::{Attribute, Cell, Value};
use rtl_sig::SigSpec;
use std::alloc::Global;

/// The output of the cell at a place. A place past the cells is taken for want of memory.
fn output_signal(alloc: Global, cells: &[Cell], place: u32) -> Result<SigSpec, Memory>
    ensures value { IfOk result (λ signal. option_map (λ (c : Cell). at_pin c Y) (slice_get cells.now place) ≡
        Some signal) }
{
    match cell_at(cells, place as usize) {
        Some(cell) => SigSpec::from_slice(alloc, at_pin(cell, PinName::Y)),
        None => Err(Memory),
    }
}

/// The outputs of the cells at these places.
pub(crate) fn output_signals(
    alloc: Global,
    cells: &[Cell],
    places: &[u32],
) -> Result<Vec<SigSpec>, Memory>
    ensures value { IfOk result (λ signals.
        map (λ at. option_map (λ (c : Cell). at_pin c Y) (slice_get cells.now at)) places.now ≡
        map Some signals.items) }
{
    let mut signals = Vec::new(alloc);
    for place in places {
        signals.push(output_signal(alloc, cells, *place)?)?;
    }
    Ok(signals)
}

/// The code of the start value as an attribute; none where it is unknown.
fn code_init(alloc: Global, states: &[Bits], start: &Option<Bits>) -> Result<Seq<Attribute>, Memory>
    ensures value { IfOk result (λ attributes. attributes ≡ code_init states.now start.now) }
{
    let mut attributes = Seq::make(alloc);
    if let Some(start) = start {
        attributes.push(Attribute {
            name: Text::from_slice(alloc, b"\\init")?,
            value: Value::Bits(code_of(alloc, states, start.as_slice())?, false),
        })?;
    }
    Ok(attributes)
}

/// The fresh wire of the code.
pub(crate) fn code_wire(
    alloc: Global,
    states: &[Bits],
    start: &Option<Bits>,
    builder: &mut Builder,
) -> Result<SigSpec, PassFault>
    ensures exact { IfOk result (λ code. (code, builder.new) ≡ code_wire states.now start.now builder.old) }
    ensures over { result ≡ Err PassFault.Over → PassesLimit (code_wire states.now start.now builder.old).1 }
    ensures within { OnOk result (IsInLimits builder.new) }
{
    let attributes = code_init(alloc, states, start)?;
    builder.fresh_signal(states.len(), attributes)
}

/// A fresh wire of this width.
fn output_wire(alloc: Global, width: usize, builder: &mut Builder) -> Result<SigSpec, PassFault>
    ensures exact { IfOk result (λ signal. (signal, builder.new) ≡ output_wire width builder.old) }
    ensures over { result ≡ Err PassFault.Over → PassesLimit (output_wire width builder.old).1 }
    ensures within { OnOk result (IsInLimits builder.new) }
{
    builder.fresh_signal(width, Seq::make(alloc))
}

/// Fresh outputs of this width for the old ones, in their order.
pub(crate) fn fresh_outputs(
    alloc: Global,
    width: usize,
    old: Vec<SigSpec>,
    builder: &mut Builder,
) -> Result<Outputs, PassFault>
    ensures exact { IfOk result (λ outputs. (outputs_of outputs, builder.new) ≡ fresh_by width old.items builder.old) }
    ensures tabled { IfOk result IsTabled }
    ensures over { result ≡ Err PassFault.Over → PassesLimit (fresh_by width old.items builder.old).1 }
    ensures within { IsInLimits builder.old → OnOk result (IsInLimits builder.new) }
{
    let mut outputs = Outputs::none(alloc);
    for before in old {
        let after = output_wire(alloc, width, builder)?;
        outputs.push(alloc, before, after)?;
    }
    Ok(outputs)
}
