//! Registers that are always enabled, and those that never change.

ghost use Rattle.std.specs.Prelude.{◌≡◌, List, IfOk, map, option_map, slice_index_or};
ghost use Rattle.rtl_bits.specs.declared.bit.Bit.TheVariants.{X};
ghost use Rattle.rtl_sig.specs.declared.sig.SigBit.TheVariants.{Fixed};
ghost use Rattle.rtl_ir.specs.Flat.Cell.{cell_shape};
ghost use Rattle.rtl_ir.specs.Types as rtl;
ghost use Rattle.rtl_ir.specs.declared.cell.Cell.{Cell};
ghost use Rattle.rtl_ir.specs.declared.module.Link.{Link};
ghost use Rattle.rtl_ir.specs.declared.wire.Wire.{Wire};
ghost use Rattle.net_index.specs.Types.{AreTypes};
ghost use Rattle.net_alias.specs.Aliases.{IsAliases};
ghost use Rattle.follow_laws.specs.Inputs.{followed_cell};
ghost use Rattle.opt_more.specs.Dff.{
  agree,
  agreed,
  data_of,
  enable_pin,
  enabled,
  enabled_kind,
  enabled_of,
  enabled_pins,
  params_for,
  polarity_of,
  register_of,
  register_visit,
  registered,
  same_pin,
  settled_bit,
  settled_of,
  without_enable,
};
ghost use Rattle.opt_more.specs.Registers.{visit_of};
ghost use Rattle.rtl_ir.specs.Starts.{AreInits};

use crate::kinds::{has_reset, register_of};
use cell_gate::{active, reset_at, storage_kind};
use cell_types::{CellKind, Level, ParamName, PinName, Shape, StorageGate, StorageKind};
use net_alias::Aliases;
use net_index::Types;
use opt_expr::followed_cell;
use rtl_bits::{Bit, Bits, Memory, Seq};
use rtl_ir::{
    Cell, CellParam, Link, Pin, constant_of, fitting_shape, integer_param, pin_of, pin_signal,
    same_place, start,
};
use rtl_sig::{SigBit, SigSpec};
use std::alloc::Global;

/// What comes of a cell.
#[derive(Drop)]
pub(crate) enum Visited {
    /// It stays in its place, changed or not.
    Stays(Cell),
    /// It goes, and its output is connected.
    Goes(Link),
}

/// What comes of a cell: a register without a nonzero `\keep` that never changes goes, one that is always enabled loses
/// its enable, any other cell stays.
pub(crate) fn registered(
    alloc: Global,
    types: &Types,
    inits: &[Bits],
    aliases: &mut Aliases,
    cell: Cell,
) -> Result<Visited, Memory>
    ensures value { IfOk result (λ visited. (ports : rtl.Ports) (wires : List Wire) (links : List Link) →
        AreTypes types.now ports → AreInits inits.now wires → IsAliases aliases.old links →
        visit_of visited ≡ registered wires (register_of cell) cell (followed_cell ports links cell)) }
    ensures keeps { (links : List Link) → IsAliases aliases.old links → IsAliases aliases.new links }
{
    let Some(kind) = register_of(alloc, &cell)? else {
        return Ok(Visited::Stays(cell));
    };
    let followed = followed_cell(alloc, types, aliases, cell)?;
    let visited = register_visit(alloc, inits, kind, followed.cell)?;
    Ok(visited)
}

/// What comes of a register whose inputs are followed.
fn register_visit(
    alloc: Global,
    inits: &[Bits],
    kind: CellKind,
    cell: Cell,
) -> Result<Visited, Memory>
    ensures value { IfOk result (λ visited. (wires : List Wire) → AreInits inits.now wires →
        visit_of visited ≡ register_visit (settled_of wires kind cell) kind cell) }
{
    let shape = fitting_shape(alloc, kind, &cell)?;
    let enable = enabled_of(kind, &shape, cell.pins.as_slice());
    let values = settled_of(alloc, inits, kind, &shape, enable, cell.pins.as_slice())?;
    match values {
        Some(right) => {
            let left = SigSpec::from_slice(alloc, pin_signal(cell.pins.as_slice(), PinName::Q))?;
            Ok(Visited::Goes(Link { left, right }))
        }
        None => {
            let after = enabled(alloc, enable, kind, &shape, cell)?;
            Ok(Visited::Stays(after))
        }
    }
}

/// Whether a `$dffe` or its gate is enabled: 1 always, 0 never, x where that is not known, and of any other kind.
fn enabled_of(kind: CellKind, shape: &Shape, pins: &[Pin]) -> Bit
    ensures value { (c : Cell) → shape.now ≡ cell_shape kind c.params → pins.now ≡ c.pins → result ≡ enabled_of kind c }
{
    match storage_kind(kind) {
        StorageKind::Dffe => {
            let enable = first_bit(pin_signal(pins, enable_pin(kind)));
            active(shape.levels.en, constant_of(enable))
        }
        _ => Bit::X,
    }
}

/// The enable of a register.
fn enable_pin(kind: CellKind) -> PinName
    ensures value { result ≡ enable_pin kind }
{
    match kind {
        CellKind::StorageGate(_) => PinName::E,
        _ => PinName::En,
    }
}

/// The lowest bit of a signal, x where it has none.
fn first_bit(signal: &[SigBit]) -> SigBit
    ensures value { result ≡ slice_index_or signal.now 0 (Fixed X) }
{
    sig_at(signal, 0)
}

/// The bit of a signal at a place, past the end x.
fn sig_at(signal: &[SigBit], at: usize) -> SigBit
    ensures value { result ≡ slice_index_or signal.now at (Fixed X) }
{
    match signal.get(at) {
        Some(bit) => *bit,
        None => SigBit::Fixed(Bit::X),
    }
}

/// The values that the register always has, where each bit has one, as constants.
fn settled_of(
    alloc: Global,
    inits: &[Bits],
    kind: CellKind,
    shape: &Shape,
    enable: Bit,
    pins: &[Pin],
) -> Result<Option<SigSpec>, Memory>
    ensures value { IfOk result (λ values. (wires : List Wire) (c : Cell) → AreInits inits.now wires →
        shape.now ≡ cell_shape kind c.params → enable ≡ enabled_of kind c → pins.now ≡ c.pins →
        values ≡ option_map (λ bits. map Fixed bits) (settled_of wires kind c)) }
{
    let count = pin_signal(pins, PinName::Q).len();
    let mut values = SigSpec::with_capacity(alloc, count)?;
    for at in 0..count {
        match settled_bit(inits, kind, shape, enable, pins, at) {
            Some(bit) => values.push(SigBit::Fixed(bit))?,
            None => return Ok(None),
        }
    }
    Ok(Some(values))
}

/// The value that the bit at a place always has, where there is one.
fn settled_bit(
    inits: &[Bits],
    kind: CellKind,
    shape: &Shape,
    enable: Bit,
    pins: &[Pin],
    at: usize,
) -> Option<Bit>
    ensures value { (wires : List Wire) (c : Cell) → AreInits inits.now wires →
        shape.now ≡ cell_shape kind c.params → enable ≡ enabled_of kind c → pins.now ≡ c.pins →
        result ≡ settled_bit wires kind c at }
{
    let q = sig_at(pin_signal(pins, PinName::Q), at);
    let d = sig_at(pin_signal(pins, PinName::D), at);
    let store = storage_kind(kind);
    let reset = reset_at(store, &shape.resets, at);
    agreed(store, enable, start(inits, q), reset, q, d)
}

/// The value on which the start value, the reset value and the data of a bit agree.
fn agreed(
    store: StorageKind,
    enable: Bit,
    start: Bit,
    reset: Bit,
    q: SigBit,
    d: SigBit,
) -> Option<Bit>
    ensures value { result ≡ agreed store enable start reset q d }
{
    let reset = if has_reset(store) { reset } else { Bit::X };
    agree(start, agree(reset, data_of(enable, q, d)))
}

/// The data as a candidate: x where the register keeps its own bit, else the constant, if it is one.
fn data_of(enable: Bit, q: SigBit, d: SigBit) -> Option<Bit>
    ensures value { result ≡ data_of enable q d }
{
    if enable == Bit::S0 {
        return Some(Bit::X);
    }
    match d {
        SigBit::Fixed(bit) => Some(bit.seen()),
        SigBit::Wire(_) => if same_place(d, q) { Some(Bit::X) } else { None },
    }
}

/// The value that a candidate and others agree on: none where two known ones differ.
fn agree(value: Bit, others: Option<Bit>) -> Option<Bit>
    ensures value { result ≡ agree value others }
{
    match (value, others) {
        (Bit::S0, Some(Bit::S1)) => None,
        (Bit::S1, Some(Bit::S0)) => None,
        (Bit::S0, Some(_)) => Some(Bit::S0),
        (Bit::S1, Some(_)) => Some(Bit::S1),
        _ => others,
    }
}

/// A register that changes, by whether it is enabled: without its enable where it always is.
fn enabled(
    alloc: Global,
    enable: Bit,
    kind: CellKind,
    shape: &Shape,
    cell: Cell,
) -> Result<Cell, Memory>
    requires shape { shape.now ≡ cell_shape kind cell.params }
    ensures value { IfOk result (λ after. after ≡ enabled enable kind cell) }
{
    match enable {
        Bit::S1 => without_enable(alloc, kind, shape, cell),
        _ => Ok(cell),
    }
}

/// A register that is always enabled, without its enable.
#[tactic(auto, using(net_index::proofs::KindNames::kind_named))]
fn without_enable(alloc: Global, kind: CellKind, shape: &Shape, cell: Cell) -> Result<Cell, Memory>
    requires shape { shape.now ≡ cell_shape kind cell.params }
    ensures value { IfOk result (λ after. after ≡ without_enable kind cell) }
{
    let pins = cell.pins.as_slice();
    let width = pin_signal(pins, PinName::Q).len();
    let params = enabled_params(alloc, kind, shape.levels.clk, width)?;
    let after = enabled_pins(alloc, kind, pins)?;
    Ok(Cell {
        kind_name: enabled_kind(kind).name(alloc)?,
        params,
        pins: after,
        name: cell.name,
        attributes: cell.attributes,
    })
}

/// The pins of a register without an enable, as they are.
fn enabled_pins(alloc: Global, kind: CellKind, pins: &[Pin]) -> Result<Seq<Pin>, Memory>
    ensures value { IfOk result (λ after. (c : Cell) → pins.now ≡ c.pins →
        after ≡ map (same_pin c) (enabled_pins kind)) }
{
    let mut after = Seq::make(alloc);
    match kind {
        CellKind::StorageGate(_) => {
            after.push(same_pin(alloc, PinName::D, pins)?)?;
            after.push(same_pin(alloc, PinName::C, pins)?)?;
        }
        _ => {
            after.push(same_pin(alloc, PinName::Clk, pins)?)?;
            after.push(same_pin(alloc, PinName::D, pins)?)?;
        }
    }
    after.push(same_pin(alloc, PinName::Q, pins)?)?;
    Ok(after)
}

/// The pin as it is.
fn same_pin(alloc: Global, name: PinName, pins: &[Pin]) -> Result<Pin, Memory>
    ensures value { IfOk result (λ pin. (c : Cell) → pins.now ≡ c.pins → pin ≡ same_pin c name) }
{
    pin_of(alloc, name, pin_signal(pins, name))
}

/// The kind of a register without its enable.
fn enabled_kind(kind: CellKind) -> CellKind
    ensures value { result ≡ enabled_kind kind }
{
    match kind {
        CellKind::StorageGate(StorageGate::Dffe { clk, en: _ }) => CellKind::StorageGate(
            StorageGate::Dff { clk },
        ),
        _ => CellKind::Storage(StorageKind::Dff),
    }
}

/// The parameters of a register of a width without an enable, with a clock of this level.
fn enabled_params(
    alloc: Global,
    kind: CellKind,
    clk: Level,
    width: usize,
) -> Result<Seq<CellParam>, Memory>
    ensures value { IfOk result (λ params. params ≡ params_for kind clk width) }
{
    let mut params = Seq::make(alloc);
    if let CellKind::Storage(_) = kind {
        params.push(integer_param(alloc, ParamName::Width, width)?)?;
        params.push(integer_param(alloc, ParamName::ClkPolarity, polarity_of(clk))?)?;
    }
    Ok(params)
}

/// The number that sets a polarity.
fn polarity_of(level: Level) -> usize
    ensures value { result ≡ polarity_of level }
{
    match level {
        Level::Low => 0,
        Level::High => 1,
    }
}
