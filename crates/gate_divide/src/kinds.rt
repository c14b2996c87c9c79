//! Quotients and remainders by their kind.

ghost use Rattle.std.specs.Prelude.{◌≡◌, Err, IfOk, OnOk};
ghost use Rattle.net_index.specs.Builder.{IsInLimits, PassesLimit};
ghost use Rattle.gate_divide.specs.Kinds.{divide_of, part_of, rounded_of, signed_of, unsigned_of};

use crate::division::{Division, divided};
use crate::rounding::{floor_quotient, floor_remainder, remainder, truncated};
use crate::signs::magnitude;
use cell_types::DivisionKind;
use net_index::{Builder, PassFault};
use rtl_sig::{SigBit, SigSpec};
use std::alloc::Global;

/// The part of a division of plain numbers that the kind asks for. They are rounded down in any case.
fn part_of(kind: DivisionKind, division: Division) -> SigSpec
    ensures value { result ≡ part_of kind division }
{
    match kind {
        DivisionKind::Div | DivisionKind::DivFloor => division.quotient,
        DivisionKind::Mod | DivisionKind::ModFloor => division.rest,
    }
}

/// The division of plain numbers.
#[tactic(auto, unfolding(gate_nets::specs::Gate::after))]
fn unsigned(
    alloc: Global,
    kind: DivisionKind,
    a: &[SigBit],
    b: &[SigBit],
    builder: &mut Builder,
) -> Result<SigSpec, PassFault>
    ensures exact { IfOk result (λ word. (word, builder.new) ≡ unsigned_of kind a.now b.now builder.old) }
    ensures over { result ≡ Err PassFault.Over → PassesLimit (unsigned_of kind a.now b.now builder.old).1 }
    ensures within { IsInLimits builder.old → OnOk result (IsInLimits builder.new) }
{
    let division = divided(alloc, a, b, builder)?;
    Ok(part_of(kind, division))
}

/// What the kind asks for, of two integers whose magnitudes are divided.
fn rounded(
    alloc: Global,
    kind: DivisionKind,
    a: &[SigBit],
    b: &[SigBit],
    division: &Division,
    builder: &mut Builder,
) -> Result<SigSpec, PassFault>
    ensures exact { IfOk result (λ word. (word, builder.new) ≡ rounded_of kind a.now b.now division.now builder.old) }
    ensures over { result ≡ Err PassFault.Over → PassesLimit (rounded_of kind a.now b.now division.now builder.old).1 }
    ensures within { IsInLimits builder.old → OnOk result (IsInLimits builder.new) }
{
    let quotient = division.quotient.as_slice();
    let rest = division.rest.as_slice();
    match kind {
        DivisionKind::Div => truncated(alloc, a, b, quotient, builder),
        DivisionKind::Mod => remainder(alloc, a, rest, builder),
        DivisionKind::DivFloor => floor_quotient(alloc, a, b, quotient, rest, builder),
        DivisionKind::ModFloor => floor_remainder(alloc, a, b, rest, builder),
    }
}

/// The division of integers in two's complement.
#[tactic(auto, using(crate::proofs::Limits::negated_limits, crate::proofs::Limits::divided_limits, crate::proofs::Limits::kind_limits), unfolding(gate_nets::specs::Gate::after))]
fn signed(
    alloc: Global,
    kind: DivisionKind,
    a: &[SigBit],
    b: &[SigBit],
    builder: &mut Builder,
) -> Result<SigSpec, PassFault>
    ensures exact { IfOk result (λ word. (word, builder.new) ≡ signed_of kind a.now b.now builder.old) }
    ensures over { result ≡ Err PassFault.Over → PassesLimit (signed_of kind a.now b.now builder.old).1 }
    ensures within { IsInLimits builder.old → OnOk result (IsInLimits builder.new) }
{
    let dividend = magnitude(alloc, a, builder)?;
    let divisor = magnitude(alloc, b, builder)?;
    let division = divided(alloc, dividend.as_slice(), divisor.as_slice(), builder)?;
    rounded(alloc, kind, a, b, &division, builder)
}

/// The quotient or the remainder of two words of one width. By the divisor 0 it is whatever the gates give.
pub fn divide(
    alloc: Global,
    kind: DivisionKind,
    signed: bool,
    a: &[SigBit],
    b: &[SigBit],
    builder: &mut Builder,
) -> Result<SigSpec, PassFault>
    ensures exact { IfOk result (λ word. (word, builder.new) ≡ divide_of kind signed a.now b.now builder.old) }
    ensures over { result ≡ Err PassFault.Over → PassesLimit (divide_of kind signed a.now b.now builder.old).1 }
    ensures within { IsInLimits builder.old → OnOk result (IsInLimits builder.new) }
{
    if signed {
        crate::kinds::signed(alloc, kind, a, b, builder)
    } else {
        unsigned(alloc, kind, a, b, builder)
    }
}
