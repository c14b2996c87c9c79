//! Rules for cells whose value is a constant.

ghost use Rattle.std.specs.Prelude.{◌≡◌, IfOk, slice_index_or};
ghost use Rattle.rtl_bits.specs.declared.bit.Bit.TheVariants.{X};
ghost use Rattle.expr_rules.specs.Laws.{IsComputed};
ghost use Rattle.expr_rules.specs.Rules.Constants.{constant_inputs, constant_value, known_value};

use crate::change::Change;
use crate::operands::Operands;
use cell_gate::gate_value;
use cell_types::{CellKind, Shape};
use cell_word::word_value;
use rtl_bits::{Bit, Bits, Memory, all_known};
use rtl_ir::{constants_of, is_all_constant};
use rtl_sig::fixed;
use std::alloc::Global;

/// All inputs are constants: gives the value.
pub(crate) fn constant_inputs(
    alloc: Global,
    shape: &Shape,
    o: &Operands,
) -> Result<Option<Change>, Memory>
    requires computed { IsComputed shape.now.kind shape.now o.now }
    ensures value { IfOk result (λ change. change ≡ constant_inputs shape.now o.now) }
{
    if is_all_constant(o.a.as_slice())
        && is_all_constant(o.b.as_slice())
        && is_all_constant(o.s.as_slice())
    {
        let value = constant_value(alloc, shape, o)?;
        Ok(Some(Change::Gives(fixed(alloc, value.as_slice())?)))
    } else {
        Ok(None)
    }
}

/// The value is wholly known, whatever the bits of wires have: gives it.
pub(crate) fn known_value(
    alloc: Global,
    shape: &Shape,
    o: &Operands,
) -> Result<Option<Change>, Memory>
    requires computed { IsComputed shape.now.kind shape.now o.now }
    ensures value { IfOk result (λ change. change ≡ known_value shape.now o.now) }
{
    let value = constant_value(alloc, shape, o)?;
    if all_known(value.as_slice()) {
        Ok(Some(Change::Gives(fixed(alloc, value.as_slice())?)))
    } else {
        Ok(None)
    }
}

/// The value of the cell with all bits that are not constant as x.
fn constant_value(alloc: Global, shape: &Shape, o: &Operands) -> Result<Bits, Memory>
    requires computed { IsComputed shape.now.kind shape.now o.now }
    ensures value { IfOk result (λ bits. bits ≡ constant_value shape.now o.now) }
{
    let a = constants_of(alloc, o.a.as_slice())?;
    let b = constants_of(alloc, o.b.as_slice())?;
    let s = constants_of(alloc, o.s.as_slice())?;
    match shape.kind {
        CellKind::Gate(_) => {
            let (a, b, s) = (lowest(&a), lowest(&b), lowest(&s));
            Bits::filled(alloc, gate_value(shape.kind, a, b, s), 1)
        }
        _ => word_value(alloc, shape, &[a, b, s]),
    }
}

/// The lowest bit of a word, x where it has none.
fn lowest(bits: &Bits) -> Bit
    ensures value { result ≡ slice_index_or bits.now 0 X }
{
    match bits.as_slice() {
        [bit, ..] => *bit,
        [] => Bit::X,
    }
}
