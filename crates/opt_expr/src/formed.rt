//! Cells as rules form them anew.

ghost use Rattle.std.specs.Prelude.{◌≡◌, ◌<◌, IfOk};
ghost use Rattle.opt_expr.specs.Formed.{formed, number, params_for, pin, pins_for};

use cell_types::{CellKind, GateKind, ParamName, PinName, WordKind};
use expr_rules::NewCell;
use rtl_bits::{Memory, Seq, Text};
use rtl_ir::{Cell, CellParam, Pin, Value, signal_at};
use rtl_sig::{SigBit, SigSpec};
use std::alloc::Global;

/// The cell by what comes in its place: it keeps its name, its attributes and its output. A width of more than 2^31 is
/// taken for want of memory.
#[tactic(auto, using(net_index::proofs::KindNames::kind_named))]
pub(crate) fn formed(alloc: Global, new: NewCell, cell: Cell) -> Result<Cell, Memory>
    ensures value { IfOk result (λ after. after ≡ formed new cell) }
{
    let y = signal_at(cell.pins.as_slice(), PinName::Y.text());
    Ok(Cell {
        kind_name: new.kind.name(alloc)?,
        params: params_for(alloc, new.kind, new.a.as_slice().len(), y.len())?,
        pins: pins_for(alloc, &new, y)?,
        name: cell.name,
        attributes: cell.attributes,
    })
}

/// The parameters of an inverter or a multiplexer of words whose A and Y have these widths; a gate has none.
fn params_for(alloc: Global, kind: CellKind, a: usize, y: usize) -> Result<Seq<CellParam>, Memory>
    ensures value { IfOk result (λ params. params ≡ params_for kind a y) }
{
    let mut params = Seq::make(alloc);
    match kind {
        CellKind::Word(WordKind::Unary(_)) => {
            params.push(number(alloc, ParamName::ASigned, 0)?)?;
            params.push(number(alloc, ParamName::AWidth, a)?)?;
            params.push(number(alloc, ParamName::YWidth, y)?)?;
        }
        CellKind::Word(WordKind::Mux) => params.push(number(alloc, ParamName::Width, y)?)?,
        _ => {}
    }
    Ok(params)
}

/// A parameter that is a number.
fn number(alloc: Global, name: ParamName, count: usize) -> Result<CellParam, Memory>
    ensures value { IfOk result (λ param. param ≡ number name count) }
{
    Ok(CellParam {
        name: Text::from_slice(alloc, name.text())?,
        value: Value::Int(i32::try_from(count).ok().ok_or(Memory)?),
        signed: false,
    })
}

/// The pins of an inverter or a multiplexer, with this signal at Y.
fn pins_for(alloc: Global, new: &NewCell, y: &[SigBit]) -> Result<Seq<Pin>, Memory>
    ensures value { IfOk result (λ pins. pins ≡ pins_for new.now.kind new.now y.now) }
{
    let mut pins = Seq::make(alloc);
    pins.push(pin(alloc, PinName::A, new.a.as_slice())?)?;
    if let CellKind::Word(WordKind::Mux) | CellKind::Gate(GateKind::Mux) = new.kind {
        pins.push(pin(alloc, PinName::B, new.b.as_slice())?)?;
        pins.push(pin(alloc, PinName::S, new.s.as_slice())?)?;
    }
    pins.push(pin(alloc, PinName::Y, y)?)?;
    Ok(pins)
}

/// A pin of this signal.
fn pin(alloc: Global, name: PinName, signal: &[SigBit]) -> Result<Pin, Memory>
    ensures value { IfOk result (λ made. made ≡ pin name signal.now) }
{
    Ok(Pin {
        name: Text::from_slice(alloc, name.text())?,
        sig: SigSpec::from_slice(alloc, signal)?,
    })
}
