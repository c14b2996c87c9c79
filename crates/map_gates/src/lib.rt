//! Gates for the word cells that work bit by bit, that make one bit of words, that choose and that join.
#![tactic(auto)]

mod bitwise;
mod choice;
mod folds;
mod gate;
mod operand;
mod parts;
mod value;

ghost use Rattle.std.specs.Prelude.{◌≡◌, Err, OnOk};
ghost use Rattle.net_index.specs.Builder.{IsInLimits, PassesLimit};
ghost use Rattle.map_laws.specs.Expansion.{ExpandsMapped, StandsForMapped};
ghost use Rattle.map_laws.specs.Operand.{pin_signal};
ghost use Rattle.cell_types.specs.declared.pin_name.PinName.TheVariants.{Y};
ghost use Rattle.gate_nets.specs.Give.{given};
ghost use Rattle.map_gates.specs.Expand.{is_mapped, map_of, value_of};

use crate::bitwise::{binary_gates, bwmux_gates, mux_gates, unary_gates};
use crate::operand::bit_at;
use crate::parts::demux_gates;
use crate::value::{is_given, value};
use cell_types::{CellKind, GateKind, PinName, Shape, UnaryKind, WordKind};
use gate_nets::{gate_for, give, pin_signal};
use net_index::{Builder, PassFault};
use rtl_ir::Cell;
use std::alloc::Global;

/// Adds the gates that stand for the cell. A cell of another kind adds nothing. After an error the builder
/// holds some of the gates, and is to be given up.
pub fn expand(
    alloc: Global,
    cell: &Cell,
    shape: &Shape,
    builder: &mut Builder,
) -> Result<(), PassFault>
    ensures exact { OnOk result (builder.new ≡ map_of shape.now cell.now builder.old) }
    ensures over { result ≡ Err PassFault.Over → PassesLimit (map_of shape.now cell.now builder.old) }
    ensures within { IsInLimits builder.old → OnOk result (IsInLimits builder.new) }
    ensures expansion { OnOk result (ExpandsMapped is_mapped shape.now cell.now builder.old builder.new) }
    ensures refines { OnOk result (StandsForMapped is_mapped shape.now cell.now builder.old builder.new) }
{
    add_gates(alloc, cell, shape, builder)
}

/// The gates by the kind of the cell.
fn add_gates(
    alloc: Global,
    cell: &Cell,
    shape: &Shape,
    builder: &mut Builder,
) -> Result<(), PassFault>
    ensures exact { OnOk result (builder.new ≡ map_of shape.now cell.now builder.old) }
    ensures over { result ≡ Err PassFault.Over → PassesLimit (map_of shape.now cell.now builder.old) }
    ensures within { IsInLimits builder.old → OnOk result (IsInLimits builder.new) }
{
    let a = pin_signal(cell, PinName::A);
    let b = pin_signal(cell, PinName::B);
    let y = pin_signal(cell, PinName::Y);
    match shape.kind {
        CellKind::Word(WordKind::Unary(UnaryKind::Not)) => {
            unary_gates(alloc, GateKind::Not, shape.signs.a, a, y, builder)
        }
        CellKind::Word(WordKind::Bitwise(kind)) => {
            let signed = shape.signs.a && shape.signs.b;
            binary_gates(gate_for(kind), signed, a, b, y, builder)
        }
        CellKind::Word(WordKind::Mux) => {
            let s = bit_at(false, pin_signal(cell, PinName::S), 0);
            mux_gates(alloc, a, b, s, y, builder)
        }
        CellKind::Word(WordKind::Bwmux) => {
            let s = pin_signal(cell, PinName::S);
            bwmux_gates(alloc, a, b, s, y, builder)
        }
        CellKind::Word(WordKind::Demux) => {
            demux_gates(alloc, a, pin_signal(cell, PinName::S), y, builder)
        }
        CellKind::Word(kind) if is_given(kind) => give_value(alloc, kind, cell, shape, builder),
        _ => Ok(()),
    }
}

/// The net of the value of the cell, whose result is given to Y.
fn give_value(
    alloc: Global,
    kind: WordKind,
    cell: &Cell,
    shape: &Shape,
    builder: &mut Builder,
) -> Result<(), PassFault>
    ensures exact { OnOk result (builder.new ≡
        given (pin_signal cell.now Y) (value_of kind shape.now cell.now) builder.old) }
    ensures over { result ≡ Err PassFault.Over →
        PassesLimit (given (pin_signal cell.now Y) (value_of kind shape.now cell.now) builder.old) }
    ensures within { IsInLimits builder.old → OnOk result (IsInLimits builder.new) }
{
    let bits = value(alloc, kind, cell, shape, builder)?;
    let y = pin_signal(cell, PinName::Y);
    give(alloc, y, bits.as_slice(), builder)?;
    Ok(())
}
