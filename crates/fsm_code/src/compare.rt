//! Cells that compare the state.

ghost use Rattle.std.specs.Prelude.{◌≡◌, IfOk, OnOk, Some, false, map};
ghost use Rattle.rtl_bits.specs.declared.bit.Bit.TheVariants.{S0};
ghost use Rattle.rtl_bits.specs.Numbers.{number_of};
ghost use Rattle.rtl_sig.specs.declared.sig.SigBit.TheVariants.{Fixed};
ghost use Rattle.rtl_ir.specs.Build.{Building};
ghost use Rattle.rtl_ir.specs.Flat.Cell.{cell_kind};
ghost use Rattle.rtl_ir.specs.declared.module.Module.{Module};
ghost use Rattle.rtl_ir.specs.Types.{Ports};
ghost use Rattle.net_index.specs.Drivers.{AreDrivers};
ghost use Rattle.net_model.specs.Fsm.Code.{
  Coding as Codes,
  coded_compare,
  compared,
  inverse_cell,
  is_equal,
  link_all,
  or_zero,
  state_bit,
  with_zeros,
};
ghost use Rattle.fsm_code.specs.Outputs.{coding_of};
ghost use Rattle.net_model.specs.Fsm.Find.{at_pin};
ghost use Rattle.cell_types.specs.declared.pin_name.PinName.TheVariants.{Y};
ghost use Rattle.fsm_code.specs.Links.{behind, linked};
ghost use Rattle.fsm_code.specs.Parts.{inverse_params, inverse_pins};

use crate::coding::Coding;
use crate::numbers::state_bit;
use cell_types::{CellKind, EqualKind, ParamName, PinName, WordKind};
use fsm_parts::{at_pin, followed};
use net_index::Drivers;
use rtl_bits::{Bit, Bits, Memory, Seq, Text};
use rtl_ir::{
    Cell, CellParam, Link, Pin, cell_kind, constants_of, integer_param, pin_of, same_signal,
};
use rtl_sig::{SigBit, SigSpec};
use std::alloc::Global;

/// The constant that a compare has beside the state.
fn compared(alloc: Global, index: &Drivers, coding: &Coding, cell: &Cell) -> Result<Bits, Memory>
    ensures value { IfOk result (λ bits. (ports : Ports) (m : Module) → AreDrivers index.now ports m →
        number_of bits ≡ compared m (coding_of coding.now) cell.now) }
{
    let a = followed(alloc, index, at_pin(cell, PinName::A))?;
    if same_signal(a.as_slice(), coding.state.as_slice()) {
        let b = followed(alloc, index, at_pin(cell, PinName::B))?;
        let bits = constants_of(alloc, b.as_slice())?;
        return Ok(bits);
    }
    let bits = constants_of(alloc, a.as_slice())?;
    Ok(bits)
}

/// Whether it is an `$eq`.
fn is_equal(kind: Option<CellKind>) -> bool
    ensures value { result ≡ is_equal kind }
{
    matches!(kind, Some(CellKind::Word(WordKind::Equal(EqualKind::Eq))))
}

/// As many 0 as the signal has bits.
#[tactic(auto, using(crate::proofs::Linking::zeros_are))]
fn zeros(alloc: Global, signal: &[SigBit]) -> Result<SigSpec, Memory>
    ensures value { IfOk result (λ zeros. zeros ≡ map (λ s. Fixed S0) signal.now) }
{
    let bits = vec![in alloc; SigBit::Fixed(Bit::S0); signal.len()]?;
    SigSpec::from_vec(bits)
}

/// A connection of these goes last.
fn push_link(
    alloc: Global,
    left: &[SigBit],
    right: SigSpec,
    links: &mut Seq<Link>,
) -> Result<(), Memory>
    ensures ok { OnOk result ((b : Building) → linked b links.new ≡ link_all left.now right (linked b links.old)) }
{
    if left.is_empty() {
        return Ok(());
    }
    links.push(Link {
        left: SigSpec::from_slice(alloc, left)?,
        right,
    })?;
    Ok(())
}

/// The bit with 0 above it, as wide as the signal.
fn with_zeros(alloc: Global, bit: SigBit, signal: &[SigBit]) -> Result<SigSpec, Memory>
    ensures value { IfOk result (λ right. right ≡ with_zeros bit signal.now) }
{
    match signal.split_first() {
        Some((_lowest, rest)) => {
            let mut right = Vec::new(alloc);
            right.push(bit)?;
            right.extend_from_slice(zeros(alloc, rest)?.as_slice())?;
            SigSpec::from_vec(right)
        }
        None => Ok(SigSpec::make(alloc)),
    }
}

/// The bit, with 0 above it, goes to the signal.
fn give_bit(
    alloc: Global,
    bit: SigBit,
    signal: &[SigBit],
    links: &mut Seq<Link>,
) -> Result<(), Memory>
    ensures ok { OnOk result ((b : Building) →
        linked b links.new ≡ link_all signal.now (with_zeros bit signal.now) (linked b links.old)) }
{
    let right = with_zeros(alloc, bit, signal)?;
    push_link(alloc, signal, right, links)
}

/// The parameters of a one-bit `$not`.
fn inverse_params(alloc: Global) -> Result<Vec<CellParam>, Memory>
    ensures value { IfOk result (λ params. params.items ≡ inverse_params) }
{
    let mut params = Vec::new(alloc);
    params.push(integer_param(alloc, ParamName::ASigned, 0)?)?;
    params.push(integer_param(alloc, ParamName::AWidth, 1)?)?;
    params.push(integer_param(alloc, ParamName::YWidth, 1)?)?;
    Ok(params)
}

/// Its pins.
fn inverse_pins(alloc: Global, bit: SigBit, y: SigBit) -> Result<Vec<Pin>, Memory>
    ensures value { IfOk result (λ pins. pins.items ≡ inverse_pins bit y) }
{
    let mut pins = Vec::new(alloc);
    pins.push(pin_of(alloc, PinName::A, &[bit])?)?;
    pins.push(pin_of(alloc, PinName::Y, &[y])?)?;
    Ok(pins)
}

/// A one-bit `$not` in the place of a cell.
fn inverse_cell(alloc: Global, cell: Cell, bit: SigBit, y: SigBit) -> Result<Cell, Memory>
    ensures value { IfOk result (λ made. made ≡ inverse_cell cell bit y) }
{
    let params = inverse_params(alloc)?;
    let pins = inverse_pins(alloc, bit, y)?;
    Ok(Cell {
        kind_name: Text::from_slice(alloc, b"$not")?,
        params: Seq::from_vec(params),
        pins: Seq::from_vec(pins),
        ..cell
    })
}

/// A `$ne` with the bit of a state: its inverse drives the lowest bit of the output, and 0 the others.
fn push_inverse(
    alloc: Global,
    cell: Cell,
    bit: SigBit,
    cells: &mut Vec<Cell>,
    links: &mut Seq<Link>,
) -> Result<(), Memory>
    ensures ok { OnOk result ((m : Module) (c : Codes) (b : Building) →
        (cells.new.items, linked b links.new) ≡
        behind cells.old.items (coded_compare m c cell false (Some bit) (at_pin cell Y) (linked b links.old))) }
{
    let ys = SigSpec::from_slice(alloc, at_pin(&cell, PinName::Y))?;
    match ys.as_slice().split_first() {
        Some((y, rest)) => {
            push_link(alloc, rest, zeros(alloc, rest)?, links)?;
            cells.push(inverse_cell(alloc, cell, bit, *y)?)?;
            Ok(())
        }
        None => Ok(()),
    }
}

/// The bit, 0 where there is none.
fn or_zero(bit: Option<SigBit>) -> SigBit
    ensures value { result ≡ or_zero bit }
{
    match bit {
        Some(bit) => bit,
        None => SigBit::Fixed(Bit::S0),
    }
}

/// A compare with the bit of a state, where there is one: what stands in its place goes last, and what is connected.
fn place_compare(
    alloc: Global,
    equal: bool,
    bit: Option<SigBit>,
    cell: Cell,
    cells: &mut Vec<Cell>,
    links: &mut Seq<Link>,
) -> Result<(), Memory>
    ensures ok { OnOk result ((m : Module) (c : Codes) (b : Building) →
        (cells.new.items, linked b links.new) ≡
        behind cells.old.items (coded_compare m c cell equal bit (at_pin cell Y) (linked b links.old))) }
{
    if equal {
        give_bit(alloc, or_zero(bit), at_pin(&cell, PinName::Y), links)?;
        return Ok(());
    }
    match bit {
        Some(bit) => {
            push_inverse(alloc, cell, bit, cells, links)?;
            Ok(())
        }
        None => {
            give_bit(
                alloc,
                SigBit::Fixed(Bit::S1),
                at_pin(&cell, PinName::Y),
                links,
            )?;
            Ok(())
        }
    }
}

/// A cell that compares the state: what stands in its place goes last, and what is connected.
pub(crate) fn push_compare(
    alloc: Global,
    index: &Drivers,
    coding: &Coding,
    cell: Cell,
    cells: &mut Vec<Cell>,
    links: &mut Seq<Link>,
) -> Result<(), Memory>
    ensures ok { OnOk result ((ports : Ports) (m : Module) (b : Building) → AreDrivers index.now ports m →
        (cells.new.items, linked b links.new) ≡
        behind cells.old.items
        (coded_compare m (coding_of coding.now) cell (is_equal (cell_kind cell))
        (state_bit (coding_of coding.now).states (coding_of coding.now).code
        (compared m (coding_of coding.now) cell)) (at_pin cell Y) (linked b links.old))) }
{
    let bits = compared(alloc, index, coding, &cell)?;
    let bit = state_bit(coding.states, coding.code.as_slice(), bits.as_slice());
    let equal = is_equal(cell_kind(&cell));
    place_compare(alloc, equal, bit, cell, cells, links)?;
    Ok(())
}
