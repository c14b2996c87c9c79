//! The shape of a cell: what its value depends on beside its inputs.

ghost use Rattle.std.specs.Prelude.{◌≡◌, ◌≢◌, Err, IfErr, IfOk, Ok};
ghost use Rattle.cell_types.specs.Bounds.{KeepsBounds};
ghost use Rattle.cell_types.specs.Shape.{bit_of, gate_resets, is_set, made_shape, port_of, resets_of, shape_of};
ghost use Rattle.cell_types.specs.Shape.{signs_of, small, width_of, widths_of};

use crate::fault::{CellFault, fault_of};
use crate::given::{Param, PinWidth, number_in, value_in};
use crate::kind::CellKind;
use crate::levels::{Levels, levels_of};
use crate::param_name::ParamName;
use crate::pin_name::PinName;
use crate::storage_gate::StorageGate;
use crate::widths::pin_width;
use rtl_bits::{Bit, Bits, Memory};
use std::alloc::Global;

/// The widths of the pins A, B, S and Y of a combinational cell. A pin that the kind lacks has 0
/// here, or 1 at a gate.
#[derive(Clone, Copy, Debug, PartialEq, Eq)]
pub struct Widths {
    pub a: u32,
    pub b: u32,
    pub s: u32,
    pub y: u32,
}

/// Whether the operands A and B are signed.
#[derive(Clone, Copy, Debug, PartialEq, Eq)]
pub struct Signs {
    pub a: bool,
    pub b: bool,
}

/// What the resets of a storage cell set: as many bits as the cell has, or none where it has no
/// such reset.
#[derive(Drop)]
pub struct Resets {
    pub arst: Bits,
    pub srst: Bits,
}

/// What a memory cell says beside the memory's name.
#[derive(Drop)]
pub struct Port {
    /// The width of an address.
    pub address: u32,
    /// Whether the port has a clock.
    pub clocked: bool,
    /// The number of a write port.
    pub number: u32,
    /// Bit i is 1 where this write port comes after write port i.
    pub mask: Bits,
    /// How many start words there are.
    pub words: u32,
    /// The place of the start words in their order, an unsigned number of any length.
    pub priority: Bits,
}

/// What a cell's value depends on beside its inputs. A number is cut off at the greatest `u32`.
/// What the kind does not have is 0, false, low or empty.
#[derive(Drop)]
pub struct Shape {
    pub kind: CellKind,
    pub widths: Widths,
    pub signs: Signs,
    /// The lowest bit of a slice.
    pub offset: u32,
    /// The width of what a storage or memory cell keeps, 1 at a storage gate.
    pub width: u32,
    /// The levels at which the control pins of a storage cell or a write port act.
    pub levels: Levels,
    pub resets: Resets,
    pub port: Port,
}

/// The shape that its parameters and pins give a cell, or the first fault of `Bad`, `Wide` and
/// `Width`. A fault takes no memory.
pub fn shape_of(
    alloc: Global,
    kind: CellKind,
    params: &[Param],
    pins: &[PinWidth],
) -> Result<Shape, CellFault>
    ensures ok { IfOk result (λ shape. shape_of kind params.now pins.now ≡ Ok shape) }
    ensures fault { IfErr result (λ fault.
        fault ≢ CellFault.Memory → shape_of kind params.now pins.now ≡ Err fault) }
    ensures bounds { IfOk result KeepsBounds }
{
    if let Some(fault) = fault_of(kind, params, pins) {
        return Err(fault);
    }
    Ok(made_shape(alloc, kind, params)?)
}

fn made_shape(alloc: Global, kind: CellKind, params: &[Param]) -> Result<Shape, Memory>
    ensures value { IfOk result (λ shape. shape ≡ made_shape kind params.now) }
{
    Ok(Shape {
        kind,
        widths: widths_of(kind, params),
        signs: signs_of(params),
        offset: small(number_in(params, ParamName::Offset)),
        width: width_of(kind, params),
        levels: levels_of(kind, params),
        resets: resets_of(alloc, kind, params)?,
        port: port_of(alloc, params)?,
    })
}

fn widths_of(kind: CellKind, params: &[Param]) -> Widths
    ensures value { result ≡ widths_of kind params.now }
{
    match kind {
        CellKind::Word(_) | CellKind::Gate(_) => Widths {
            a: small(pin_width(kind, params, PinName::A)),
            b: small(pin_width(kind, params, PinName::B)),
            s: small(pin_width(kind, params, PinName::S)),
            y: small(pin_width(kind, params, PinName::Y)),
        },
        _ => Widths {
            a: 0,
            b: 0,
            s: 0,
            y: 0,
        },
    }
}

fn signs_of(params: &[Param]) -> Signs
    ensures value { result ≡ signs_of params.now }
{
    Signs {
        a: is_set(params, ParamName::ASigned),
        b: is_set(params, ParamName::BSigned),
    }
}

fn width_of(kind: CellKind, params: &[Param]) -> u32
    ensures value { result ≡ width_of kind params.now }
{
    match kind {
        CellKind::StorageGate(_) => 1,
        _ => small(number_in(params, ParamName::Width)),
    }
}

fn resets_of(alloc: Global, kind: CellKind, params: &[Param]) -> Result<Resets, Memory>
    ensures value { IfOk result (λ resets. resets ≡ resets_of kind params.now) }
{
    match kind {
        CellKind::Storage(_) => Ok(Resets {
            arst: Bits::from_slice(alloc, value_in(params, ParamName::ArstValue))?,
            srst: Bits::from_slice(alloc, value_in(params, ParamName::SrstValue))?,
        }),
        CellKind::StorageGate(gate) => gate_resets(alloc, gate),
        _ => Ok(Resets {
            arst: Bits::make(alloc),
            srst: Bits::make(alloc),
        }),
    }
}

fn gate_resets(alloc: Global, gate: StorageGate) -> Result<Resets, Memory>
    ensures value { IfOk result (λ resets. resets ≡ gate_resets gate) }
{
    let mut resets = Resets {
        arst: Bits::make(alloc),
        srst: Bits::make(alloc),
    };
    match gate {
        StorageGate::Adff { value, .. }
        | StorageGate::Adffe { value, .. }
        | StorageGate::Adlatch { value, .. } => resets.arst.push(bit_of(value))?,
        StorageGate::Sdff { value, .. }
        | StorageGate::Sdffe { value, .. }
        | StorageGate::Sdffce { value, .. } => resets.srst.push(bit_of(value))?,
        _ => {}
    }
    Ok(resets)
}

fn bit_of(value: bool) -> Bit
    ensures value { result ≡ bit_of value }
{
    if value { Bit::S1 } else { Bit::S0 }
}

fn port_of(alloc: Global, params: &[Param]) -> Result<Port, Memory>
    ensures value { IfOk result (λ port. port ≡ port_of params.now) }
{
    Ok(Port {
        address: small(number_in(params, ParamName::Abits)),
        clocked: is_set(params, ParamName::ClkEnable),
        number: small(number_in(params, ParamName::Portid)),
        mask: Bits::from_slice(alloc, value_in(params, ParamName::PriorityMask))?,
        words: small(number_in(params, ParamName::Words)),
        priority: Bits::from_slice(alloc, value_in(params, ParamName::Priority))?,
    })
}

/// Any number but 0 sets a sign or an enable.
fn is_set(params: &[Param], name: ParamName) -> bool
    ensures value { result ≡ is_set params.now name }
{
    number_in(params, name) != 0
}

fn small(number: u128) -> u32
    ensures value { result ≡ small number }
{
    number.min(u32::MAX as u128) as u32
}
