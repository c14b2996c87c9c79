//! Multiplexers below multiplexers that choose by the same bit.

ghost use Rattle.std.specs.Prelude.{◌≡◌, List, IfOk, OnOk};
ghost use Rattle.rtl_ir.specs.Flat.Cell.{cell_kind};
ghost use Rattle.rtl_ir.specs.Types as rtl;
ghost use Rattle.rtl_ir.specs.declared.cell.Cell.{Cell};
ghost use Rattle.rtl_ir.specs.declared.module.Link.{Link};
ghost use Rattle.net_index.specs.Types.{AreTypes};
ghost use Rattle.net_alias.specs.Aliases.{IsAliases};
ghost use Rattle.opt_expr.specs.Places.{ArePlaces};
ghost use Rattle.opt_more.specs.Ends.{AreArms, AreEnds};
ghost use Rattle.opt_more.specs.Muxtree.{arm_end, gives_as, is_mux, is_mux_kind, muxed, with_arm};
ghost use Rattle.opt_more.specs.Turns.{slots_with};
ghost use Rattle.opt_more.specs.Ways.{IsWay, IsWithin};

use crate::changed::with_signal;
use crate::ends::{Arm, Arms, End};
use crate::others::{Others, Turn, now_at};
use cell_types::{CellKind, GateKind, PinName, WordKind, kind_of};
use net_alias::Aliases;
use net_index::Types;
use opt_expr::{followed_cell, followed_signal, place_of};
use rtl_bits::{Copied, Memory};
use rtl_ir::{Cell, is_kept, pin_signal, same_signal};
use rtl_sig::{SigBit, SigSpec};
use std::alloc::Global;

/// The way on from a word.
#[derive(Drop)]
enum Way {
    /// None leads on, or the word leads to itself.
    Ends,
    /// It passes the cell at the place, to a word.
    On(usize, SigSpec),
    /// It passes a cell from which the way on is known.
    Known(End),
}

/// What comes of a cell among the others: the arms of a multiplexer without a nonzero `\keep` pass those that choose by
/// the same bit, any other cell stays.
pub(crate) fn muxed(
    alloc: Global,
    types: &Types,
    others: &Others<'_>,
    arms: &mut Arms,
    aliases: &mut Aliases,
    cell: Cell,
) -> Result<Cell, Memory>
    ensures value { IfOk result (λ after. (ports : rtl.Ports) (cells : List Cell) (links : List Link) →
        AreTypes types.now ports → ArePlaces others.now.places.now cells → IsAliases aliases.old links →
        AreArms arms.old cells (slots_with others.now cell) links →
        after ≡ muxed ports cells others.now.done.now others.now.rest.now.items links cell) }
    ensures arms { IfOk result (λ after. (ports : rtl.Ports) (cells : List Cell) (links : List Link) →
        AreTypes types.now ports → ArePlaces others.now.places.now cells → IsAliases aliases.old links →
        AreArms arms.old cells (slots_with others.now cell) links →
        AreArms arms.new cells (slots_with others.now after) links) }
    ensures keeps { (links : List Link) → IsAliases aliases.old links → IsAliases aliases.new links }
{
    let mux = is_mux(alloc, &cell)?;
    if !mux {
        return Ok(cell);
    }
    let followed = followed_cell(alloc, types, aliases, cell)?;
    let first = with_arm(alloc, &mut arms.a, others, aliases, followed.cell)?;
    let after = with_arm(alloc, &mut arms.b, others, aliases, first)?;
    Ok(after)
}

/// The cell with what its arm leads to.
fn with_arm(
    alloc: Global,
    arm: &mut Arm,
    others: &Others<'_>,
    aliases: &mut Aliases,
    cell: Cell,
) -> Result<Cell, Memory>
    ensures value { IfOk result (λ after. (cells : List Cell) (links : List Link) →
        ArePlaces others.now.places.now cells →
        IsAliases aliases.old links → AreEnds arm.old cells (slots_with others.now cell) links →
        after ≡ with_arm arm.old.name cells others.now.done.now others.now.rest.now.items links cell) }
    ensures name { arm.new.name ≡ arm.old.name }
    ensures ends { OnOk result ((cells : List Cell) (links : List Link) →
        ArePlaces others.now.places.now cells →
        IsAliases aliases.old links → AreEnds arm.old cells (slots_with others.now cell) links →
        AreEnds arm.new cells (slots_with others.now cell) links) }
    ensures keeps { (links : List Link) → IsAliases aliases.old links → IsAliases aliases.new links }
{
    let turn = Turn {
        others,
        cell: &cell,
    };
    let word = arm_end(alloc, arm, &turn, aliases)?;
    let pins = with_signal(alloc, arm.name, word.as_slice(), cell.pins.as_slice())?;
    Ok(Cell { pins, ..cell })
}

/// What the arm of the cell leads to, at most as often as the module has cells.
fn arm_end(
    alloc: Global,
    arm: &mut Arm,
    turn: &Turn<'_>,
    aliases: &mut Aliases,
) -> Result<SigSpec, Memory>
    ensures value { IfOk result (λ word. (cells : List Cell) (links : List Link) →
        ArePlaces turn.now.others.now.places.now cells → IsAliases aliases.old links →
        AreEnds arm.old cells (slots_with turn.now.others.now turn.now.cell.now) links →
        word ≡
        arm_end arm.old.name cells (slots_with turn.now.others.now turn.now.cell.now) links turn.now.cell.now) }
    ensures name { arm.new.name ≡ arm.old.name }
    ensures ends { OnOk result ((cells : List Cell) (links : List Link) →
        ArePlaces turn.now.others.now.places.now cells → IsAliases aliases.old links →
        AreEnds arm.old cells (slots_with turn.now.others.now turn.now.cell.now) links →
        AreEnds arm.new cells (slots_with turn.now.others.now turn.now.cell.now) links) }
    ensures keeps { (links : List Link) → IsAliases aliases.old links → IsAliases aliases.new links }
{
    let mut word = SigSpec::from_slice(alloc, pin_signal(turn.cell.pins.as_slice(), arm.name))?;
    let mut passed = Vec::new(alloc);
    let most = turn.others.done.len() + 1 + turn.others.rest.len();
    for step in 0..most {
        let way = way_on(alloc, arm, turn, aliases, word.as_slice(), most - step)?;
        match way {
            Way::On(place, next) => {
                passed.push(place)?;
                word = next;
            }
            Way::Known(end) => {
                arm.learn(passed.as_slice(), &end.word, end.steps + 1)?;
                return end.word.copy();
            }
            Way::Ends => {
                arm.learn_word(alloc, passed.as_slice(), word.as_slice())?;
                return Ok(word);
            }
        }
    }
    Ok(word)
}

/// The way on from a word, of which so many steps may be gone.
fn way_on(
    alloc: Global,
    arm: &Arm,
    turn: &Turn<'_>,
    aliases: &mut Aliases,
    word: &[SigBit],
    left: usize,
) -> Result<Way, Memory>
    ensures way { IfOk result (λ way. (cells : List Cell) (links : List Link) →
        ArePlaces turn.now.others.now.places.now cells → IsAliases aliases.old links →
        AreEnds arm.now cells (slots_with turn.now.others.now turn.now.cell.now) links →
        IsWay arm.now.name cells (slots_with turn.now.others.now turn.now.cell.now) links turn.now.cell.now
        word.now way) }
    ensures within { IfOk result (IsWithin left) }
    ensures keeps { (links : List Link) → IsAliases aliases.old links → IsAliases aliases.new links }
{
    let others = turn.others;
    let Some(place) = place_of(others.places, word) else {
        return Ok(Way::Ends);
    };
    let Some(other) = now_at(place, others.done, turn.cell, others.rest) else {
        return Ok(Way::Ends);
    };
    if !gives_as(alloc, aliases, turn.cell, word, other)? {
        return Ok(Way::Ends);
    }
    if let Some(end) = arm.known(place, left) {
        return Ok(Way::Known(end.share()?));
    }
    let next = followed_signal(alloc, aliases, pin_signal(other.pins.as_slice(), arm.name))?;
    if same_signal(next.as_slice(), word) {
        return Ok(Way::Ends);
    }
    Ok(Way::On(place, next))
}

/// Whether another cell has the type of the cell, its followed select is that of the cell, and its whole output is the
/// word.
fn gives_as(
    alloc: Global,
    aliases: &mut Aliases,
    cell: &Cell,
    word: &[SigBit],
    other: &Cell,
) -> Result<bool, Memory>
    ensures value { IfOk result (λ gives. (links : List Link) → IsAliases aliases.old links →
        gives ≡ gives_as links cell.now word.now other.now) }
    ensures keeps { (links : List Link) → IsAliases aliases.old links → IsAliases aliases.new links }
{
    let select = followed_signal(
        alloc,
        aliases,
        pin_signal(other.pins.as_slice(), PinName::S),
    )?;
    let own = pin_signal(cell.pins.as_slice(), PinName::S);
    let output = pin_signal(other.pins.as_slice(), PinName::Y);
    Ok(
        other.kind_name.as_slice() == cell.kind_name.as_slice()
            && same_signal(select.as_slice(), own)
            && same_signal(output, word),
    )
}

/// Whether the cell is a multiplexer of two words or two bits without a nonzero `\keep`.
fn is_mux(alloc: Global, cell: &Cell) -> Result<bool, Memory>
    ensures value { IfOk result (λ mux. mux ≡ is_mux cell.now) }
{
    if is_kept(alloc, cell.attributes.as_slice())? {
        return Ok(false);
    }
    Ok(is_mux_kind(cell))
}

/// Whether the cell is a multiplexer of two words, or of two bits.
#[tactic(auto, unfolding(rtl_ir::specs::Flat::Cell::cell_kind))]
fn is_mux_kind(cell: &Cell) -> bool
    ensures value { result ≡ is_mux_kind (cell_kind cell.now) }
{
    match kind_of(cell.kind_name.as_slice()) {
        Some(CellKind::Word(WordKind::Mux)) => true,
        Some(CellKind::Gate(GateKind::Mux)) => true,
        _ => false,
    }
}
