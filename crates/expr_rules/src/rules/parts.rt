//! Rules for the cells that choose a part of a word by its number, or that put a word at a part.

ghost use Rattle.std.specs.Prelude.{◌≡◌, ◌*◌, ◌<◌, ◌≤◌, IfOk, IfSome, Some, length};
ghost use Rattle.std.specs.Option.{option_map};
ghost use Rattle.expr_rules.specs.Laws.{IsComputed};
ghost use Rattle.expr_rules.specs.Operands.{counted_as};
ghost use Rattle.expr_rules.specs.Signals.{filled, part_of};
ghost use Rattle.expr_rules.specs.declared.change.Change.TheVariants.{Gives};
ghost use Rattle.expr_rules.specs.Rules.Parts.{known_part, known_place, number_in};

use crate::change::Change;
use crate::operands::Operands;
use crate::signals::{filled, joined, part};
use cell_types::{Shape, WordKind};
use rtl_bits::{Bit, Memory};
use rtl_ir::constants_of;
use rtl_sig::{SigBit, SigSpec};
use std::alloc::Global;

/// The number that the constants say, where all are known.
#[tactic(auto, using(crate::proofs::PartNumbers::number_there, crate::proofs::PartNumbers::number_missing, crate::proofs::PartNumbers::number_small))]
fn number_in(alloc: Global, s: &[SigBit]) -> Result<Option<usize>, Memory>
    requires few { length s.now ≤ 12 }
    ensures value { IfOk result (λ number. number ≡ number_in s.now) }
    ensures small { IfOk result (λ number. IfSome number (λ n. n < 4096)) }
{
    match constants_of(alloc, s)?.unsigned() {
        Some(number) => Ok(Some(number as usize)),
        None => Ok(None),
    }
}

/// `$bmux`, S known: gives the part.
#[tactic(auto, using(crate::proofs::PartNumbers::part_selects))]
pub(crate) fn known_part(
    alloc: Global,
    kind: WordKind,
    shape: &Shape,
    o: &Operands,
) -> Result<Option<Change>, Memory>
    requires counted { counted_as shape.now.kind ≡ Some kind }
    requires computed { IsComputed shape.now.kind shape.now o.now }
    ensures value { IfOk result (λ change. change ≡ known_part kind shape.now o.now) }
{
    match kind {
        WordKind::Bmux => part_at(alloc, o, shape.widths.y),
        _ => Ok(None),
    }
}

/// `$demux`, S known: gives A at the part, and 0 elsewhere.
#[tactic(auto, using(crate::proofs::PartNumbers::place_selects))]
pub(crate) fn known_place(
    alloc: Global,
    kind: WordKind,
    shape: &Shape,
    o: &Operands,
) -> Result<Option<Change>, Memory>
    requires counted { counted_as shape.now.kind ≡ Some kind }
    requires computed { IsComputed shape.now.kind shape.now o.now }
    ensures value { IfOk result (λ change. change ≡ known_place kind o.now) }
{
    match kind {
        WordKind::Demux => placed(alloc, o),
        _ => Ok(None),
    }
}

/// The part of A whose number S is, where it is known.
fn part_at(alloc: Global, o: &Operands, width: u32) -> Result<Option<Change>, Memory>
    requires few { length o.now.s ≤ 12 }
    ensures value { IfOk result (λ change. change ≡
        option_map (λ part. Gives (part_of o.now.a (part * width) width)) (number_in o.now.s)) }
{
    match number_in(alloc, o.s.as_slice())? {
        Some(number) => {
            let bits = part(alloc, o.a.as_slice(), number * width as usize, width)?;
            Ok(Some(Change::Gives(bits)))
        }
        None => Ok(None),
    }
}

/// So many words of zeros of a width, one after another.
#[tactic(auto, using(crate::proofs::PartNumbers::zeros_next, crate::proofs::PartNumbers::zeros_none))]
fn zeros(alloc: Global, count: usize, width: usize) -> Result<SigSpec, Memory>
    ensures value { IfOk result (λ zeros. zeros ≡ filled (count * width) Bit.S0) }
{
    let word = filled(alloc, width, Bit::S0)?;
    let mut zeros = Vec::new(alloc);
    for _ in 0..count {
        zeros.extend_from_slice(word.as_slice())?;
    }
    SigSpec::from_vec(zeros)
}

/// A on top of as many zeros as there are in the parts below the one whose number S is, where it is known.
fn placed(alloc: Global, o: &Operands) -> Result<Option<Change>, Memory>
    requires few { length o.now.s ≤ 12 }
    ensures value { IfOk result (λ change. change ≡ known_place WordKind.Demux o.now) }
{
    match number_in(alloc, o.s.as_slice())? {
        Some(number) => {
            let below = zeros(alloc, number, o.a.as_slice().len())?;
            Ok(Some(Change::Gives(joined(&below, &o.a)?)))
        }
        None => Ok(None),
    }
}
