//! Folds that read what other folds read.

ghost use Rattle.std.specs.Prelude.{◌≡◌, List, IfOk, OnOk, map};
ghost use Rattle.std.specs.List.{fold};
ghost use Rattle.rtl_ir.specs.Flat.Cell.{cell_kind};
ghost use Rattle.rtl_ir.specs.Follow.{follow};
ghost use Rattle.rtl_ir.specs.Types as rtl;
ghost use Rattle.rtl_ir.specs.declared.cell.Cell.{Cell};
ghost use Rattle.rtl_ir.specs.declared.module.Link.{Link};
ghost use Rattle.net_index.specs.Types.{AreTypes};
ghost use Rattle.net_alias.specs.Aliases.{IsAliases};
ghost use Rattle.opt_expr.specs.Places.{ArePlaces, begins_with};
ghost use Rattle.opt_more.specs.Gather.{AreAlike, AreSeen};
ghost use Rattle.opt_more.specs.Reduce.{
  fold_of,
  folds_to,
  gathered,
  neutral_of,
  reduced,
  reduced_fold,
  reduced_to,
  standing_for,
  with_bit,
};

use crate::changed::with_inputs;
use crate::gather::{Gathered, MOST};
use crate::others::{Others, other_of};
use cell_types::{CellKind, FoldKind, PinName, WordKind, kind_of};
use net_alias::Aliases;
use net_index::Types;
use opt_expr::followed_cell;
use rtl_bits::{Bit, Memory};
use rtl_ir::{Cell, is_kept, same_value, signal_at};
use rtl_sig::{SigBit, SigSpec, WireBit};
use std::alloc::Global;

/// What comes of a cell among the others: a fold without a nonzero `\keep` reads what other such folds read, any other
/// cell stays.
pub(crate) fn reduced(
    alloc: Global,
    types: &Types,
    others: &Others<'_>,
    aliases: &mut Aliases,
    cell: Cell,
) -> Result<Cell, Memory>
    ensures value { IfOk result (λ after. (ports : rtl.Ports) (cells : List Cell) (links : List Link) →
        AreTypes types.now ports → ArePlaces others.now.places.now cells → IsAliases aliases.old links →
        after ≡ reduced (fold_of cell) ports cells others.now.done.now others.now.rest.now.items links cell) }
    ensures keeps { (links : List Link) → IsAliases aliases.old links → IsAliases aliases.new links }
{
    let Some(neutral) = fold_of(alloc, &cell)? else {
        return Ok(cell);
    };
    let followed = followed_cell(alloc, types, aliases, cell)?;
    let after = reduced_fold(alloc, others, aliases, neutral, followed.cell)?;
    Ok(after)
}

/// A fold whose inputs are followed.
fn reduced_fold(
    alloc: Global,
    others: &Others<'_>,
    aliases: &mut Aliases,
    neutral: Bit,
    cell: Cell,
) -> Result<Cell, Memory>
    ensures value { IfOk result (λ after. (cells : List Cell) (links : List Link) →
        ArePlaces others.now.places.now cells →
        IsAliases aliases.old links →
        after ≡ reduced_fold neutral cells others.now.done.now others.now.rest.now.items links cell) }
    ensures keeps { (links : List Link) → IsAliases aliases.old links → IsAliases aliases.new links }
{
    let inputs = signal_at(cell.pins.as_slice(), PinName::A.text());
    let bits = gathered(alloc, others, aliases, neutral, inputs)?;
    let after = reduced_to(alloc, bits, cell)?;
    Ok(after)
}

/// The cell reads these bits, unless they are more than 4,096.
fn reduced_to(alloc: Global, bits: SigSpec, cell: Cell) -> Result<Cell, Memory>
    ensures value { IfOk result (λ after. after ≡ reduced_to bits cell) }
{
    if bits.as_slice().len() <= MOST {
        with_inputs(alloc, bits, cell)
    } else {
        Ok(cell)
    }
}

/// What a fold of these bits reads, or some of it that is more than a fold may read.
fn gathered(
    alloc: Global,
    others: &Others<'_>,
    aliases: &mut Aliases,
    neutral: Bit,
    inputs: &[SigBit],
) -> Result<SigSpec, Memory>
    ensures value { IfOk result (λ bits. (cells : List Cell) (links : List Link) →
        ArePlaces others.now.places.now cells →
        IsAliases aliases.old links → AreAlike bits
        (gathered neutral cells others.now.done.now others.now.rest.now.items links inputs.now)) }
    ensures keeps { (links : List Link) → IsAliases aliases.old links → IsAliases aliases.new links }
{
    let mut bits = Gathered::make(alloc);
    for bit in inputs {
        add_standing(alloc, others, aliases, neutral, *bit, &mut bits)?;
    }
    let all = bits.or_neutral(neutral)?;
    Ok(all)
}

/// Adds what stands for the bit, until there are more bits than a fold may read.
fn add_standing(
    alloc: Global,
    others: &Others<'_>,
    aliases: &mut Aliases,
    neutral: Bit,
    bit: SigBit,
    bits: &mut Gathered,
) -> Result<(), Memory>
    requires seen { AreSeen bits.old }
    ensures bits { OnOk result ((cells : List Cell) (links : List Link) →
        ArePlaces others.now.places.now cells →
        IsAliases aliases.old links →
        AreAlike bits.new.bits
        (fold (with_bit neutral) bits.old.bits
        (standing_for neutral cells others.now.done.now others.now.rest.now.items links bit))) }
    ensures seen { OnOk result (AreSeen bits.new) }
    ensures keeps { (links : List Link) → IsAliases aliases.old links → IsAliases aliases.new links }
{
    if bits.is_over() {
        return Ok(());
    }
    let SigBit::Wire(wire) = bit else {
        return bits.add(neutral, bit);
    };
    match other_of(others.places, others.done, others.rest, wire) {
        Some(other) if folds_to(alloc, neutral, wire, other)? => {
            let inputs = signal_at(other.pins.as_slice(), PinName::A.text());
            add_followed(aliases, neutral, inputs, bits)
        }
        _ => bits.add(neutral, bit),
    }
}

/// Adds what the bits follow to, until there are more bits than a fold may read.
fn add_followed(
    aliases: &mut Aliases,
    neutral: Bit,
    inputs: &[SigBit],
    bits: &mut Gathered,
) -> Result<(), Memory>
    requires seen { AreSeen bits.old }
    ensures bits { OnOk result ((links : List Link) → IsAliases aliases.old links →
        AreAlike bits.new.bits (fold (with_bit neutral) bits.old.bits (map (follow links) inputs.now))) }
    ensures seen { OnOk result (AreSeen bits.new) }
    ensures keeps { (links : List Link) → IsAliases aliases.old links → IsAliases aliases.new links }
{
    for bit in inputs {
        if bits.is_over() {
            return Ok(());
        }
        bits.add(neutral, aliases.follow(*bit))?;
    }
    Ok(())
}

/// Whether the cell is a fold with this constant, without a nonzero `\keep`, and its output begins with the bit.
fn folds_to(alloc: Global, neutral: Bit, bit: WireBit, cell: &Cell) -> Result<bool, Memory>
    ensures value { IfOk result (λ folds. folds ≡ folds_to neutral bit cell.now) }
{
    let Some(own) = fold_of(alloc, cell)? else {
        return Ok(false);
    };
    let output = signal_at(cell.pins.as_slice(), PinName::Y.text());
    Ok(same_value(neutral, own) && begins_with(bit, output))
}

/// Whether the signal begins with the bit.
fn begins_with(bit: WireBit, signal: &[SigBit]) -> bool
    ensures value { result ≡ begins_with bit signal.now }
{
    match signal.first() {
        Some(SigBit::Wire(first)) => *first == bit,
        _ => false,
    }
}

/// The constant that does not count in a fold without a nonzero `\keep`.
fn fold_of(alloc: Global, cell: &Cell) -> Result<Option<Bit>, Memory>
    ensures value { IfOk result (λ neutral. neutral ≡ fold_of cell.now) }
{
    if is_kept(alloc, cell.attributes.as_slice())? {
        return Ok(None);
    }
    Ok(neutral_of(cell))
}

/// The constant that does not count in a fold.
#[tactic(auto, unfolding(rtl_ir::specs::Flat::Cell::cell_kind))]
fn neutral_of(cell: &Cell) -> Option<Bit>
    ensures value { result ≡ neutral_of (cell_kind cell.now) }
{
    match kind_of(cell.kind_name.as_slice()) {
        Some(CellKind::Word(WordKind::Fold(FoldKind::And))) => Some(Bit::S1),
        Some(CellKind::Word(WordKind::Fold(FoldKind::Or | FoldKind::Bool))) => Some(Bit::S0),
        _ => None,
    }
}
