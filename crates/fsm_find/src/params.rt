//! What the parameters of cells and the attributes of wires say.

ghost use Rattle.std.specs.Prelude.{◌≡◌, IfOk, map, slice_index_or};
ghost use Rattle.std.specs.List.{range_with_len};
ghost use Rattle.rtl_bits.specs.declared.bit.Bit.TheVariants.{X};
ghost use Rattle.rtl_bits.specs.Tables.{seen_of};
ghost use Rattle.rtl_ir.specs.Flat.Cell.{cell_shape};
ghost use Rattle.rtl_ir.specs.Attributes.{attribute_bits};
ghost use Rattle.net_model.specs.Fsm.Find.{reset_value};
ghost use Rattle.fsm_find.specs.Attributes.{init_bits};
ghost use Rattle.fsm_find.specs.Params.{are_signed};

use cell_types::{CellKind, ParamName, StorageKind};
use rtl_bits::{Bit, Bits, Memory};
use rtl_ir::{Cell, Wire, attribute_bits, cell_kind, fitting_shape, value_in};
use std::alloc::Global;

/// Whether both operands of a cell of this kind are signed.
#[tactic(auto, unfolding(rtl_ir::specs::Flat::Cell::cell_shape))]
pub(crate) fn are_signed(alloc: Global, kind: CellKind, cell: &Cell) -> Result<bool, Memory>
    ensures value { IfOk result (λ both. both ≡ are_signed cell.now.params) }
{
    let shape = fitting_shape(alloc, kind, cell)?;
    Ok(shape.signs.a && shape.signs.b)
}

/// The reset value of a flip-flop that has a reset.
pub(crate) fn reset_value(alloc: Global, cell: &Cell) -> Result<Option<Bits>, Memory>
    ensures value { IfOk result (λ value. value ≡ reset_value cell.now) }
{
    match cell_kind(cell) {
        Some(CellKind::Storage(StorageKind::Adff)) => {
            let params = cell.params.as_slice();
            let value = value_in(alloc, params, ParamName::ArstValue)?;
            Ok(Some(value))
        }
        _ => Ok(None),
    }
}

/// The start values of the bits of a wire, where no process gives one.
pub(crate) fn start_bits(alloc: Global, wire: &Wire) -> Result<Bits, Memory>
    ensures value { IfOk result (λ bits. bits ≡ init_bits «wire».now) }
{
    let init = attribute_bits(alloc, wire.attributes.as_slice(), b"\\init")?;
    seen_bits(alloc, init.as_slice(), wire.width)
}

/// So many bits as they are seen, past the end x.
fn seen_bits(alloc: Global, init: &[Bit], width: u32) -> Result<Bits, Memory>
    ensures value { IfOk result (λ bits. bits ≡
        map (λ at. seen_of (slice_index_or init.now at X)) (range_with_len 0 width)) }
{
    let mut bits = Bits::make(alloc);
    for at in 0..width {
        bits.push(bit_at(init, at).seen())?;
    }
    Ok(bits)
}

/// The bit at a place, past the end x.
fn bit_at(bits: &[Bit], at: u32) -> Bit
    ensures value { result ≡ slice_index_or bits.now at X }
{
    match bits.get(at as usize) {
        Some(bit) => *bit,
        None => Bit::X,
    }
}
