//! The visit of a cell, as the module stands when its turn comes.

ghost use Rattle.std.specs.Prelude.{◌≡◌, ◌++◌, ◌∷◌, [], true, List, Some, None, IfOk, OnOk};
ghost use Rattle.cell_types.specs.PinName.{pin_text};
ghost use Rattle.cell_types.specs.declared.pin_name.PinName.TheVariants.{A, B, S};
ghost use Rattle.rtl_ir.specs.Parameters.{signal_at};
ghost use Rattle.rtl_ir.specs.Types as rtl;
ghost use Rattle.rtl_ir.specs.declared.cell.Cell.{Cell};
ghost use Rattle.rtl_ir.specs.declared.module.Link.{Link};
ghost use Rattle.net_index.specs.Types.{AreTypes};
ghost use Rattle.rtl_ir.specs.Attributes.{is_kept};
ghost use Rattle.net_alias.specs.Aliases.{IsAliases};
ghost use Rattle.opt_expr.specs.Places.{ArePlaces};
ghost use Rattle.opt_expr.specs.Sweep.{change_by, changed, operands_in, ruled_kind, visit_of};

use crate::formed::formed;
use crate::inputs::{Followed, followed_cell};
use crate::inverters::{inverted, inverted_bit};
use crate::places::{Places, combinational_kind};
use cell_types::{CellKind, PinName, Shape};
use expr_rules::{Change, Inverters, Operands, first_fit};
use net_alias::Aliases;
use net_index::Types;
use rtl_bits::{Copied, Memory, Seq};
use rtl_ir::{Cell, Link, Pin, Same, fitting_shape, is_kept, signal_at};
use rtl_sig::SigSpec;
use std::alloc::Global;
use std::collections::VecDeque;

/// What stands in the place of a visited cell, unless it went, and whether that is the cell itself.
#[derive(Drop)]
pub(crate) struct Visited {
    pub(crate) slot: Option<Cell>,
    pub(crate) is_same: bool,
}

/// The cells of the module when one is visited: those that are done, each in its place unless it went, those that are
/// not, and the places of all by their outputs.
#[derive(Clone, Copy)]
pub(crate) struct Around<'a> {
    pub(crate) places: &'a Places,
    pub(crate) done: &'a [Option<Cell>],
    pub(crate) rest: &'a VecDeque<Cell>,
}

/// Visits a cell between those that are done and the rest. Connections that come of it go last. After an error its
/// visit is not whole.
pub(crate) fn visit(
    alloc: Global,
    types: &Types,
    aliases: &mut Aliases,
    around: &Around<'_>,
    cell: Cell,
    links: &mut Seq<Link>,
) -> Result<Visited, Memory>
    ensures cell { IfOk result (λ visited. (ports : rtl.Ports) (cells : List Cell) → AreTypes types.now ports →
        ArePlaces around.now.places.now cells → IsAliases aliases.old links.old →
        visited.slot ≡
        (visit_of ports cells around.now.done.now around.now.rest.now.items links.old cell).cell) }
    ensures links { OnOk result ((ports : rtl.Ports) (cells : List Cell) → AreTypes types.now ports →
        ArePlaces around.now.places.now cells → IsAliases aliases.old links.old →
        links.new ≡ links.old ++
        (visit_of ports cells around.now.done.now around.now.rest.now.items links.old cell).links) }
    ensures aliases { OnOk result (IsAliases aliases.old links.old → IsAliases aliases.new links.new) }
    ensures same { IfOk result (λ visited. visited.is_same ≡ true →
        (visited.slot ≡ Some cell) × (links.new ≡ links.old)) }
{
    let followed = followed_cell(alloc, types, aliases, cell)?;
    let change = change(
        alloc,
        around.places,
        around.done,
        around.rest,
        &followed.cell,
    )?;
    let visited = changed(alloc, change, followed, aliases, links)?;
    Ok(visited)
}

/// What a change makes of a cell whose inputs are followed. Connections go last.
fn changed(
    alloc: Global,
    change: Option<Change>,
    followed: Followed,
    aliases: &mut Aliases,
    links: &mut Seq<Link>,
) -> Result<Visited, Memory>
    ensures cell { IfOk result (λ visited. visited.slot ≡ (changed change followed.cell).cell) }
    ensures links { OnOk result (links.new ≡ links.old ++ (changed change followed.cell).links) }
    ensures aliases { OnOk result (IsAliases aliases.old links.old → IsAliases aliases.new links.new) }
    ensures same { IfOk result (λ visited. visited.is_same ≡ true →
        (followed.is_same ≡ true) × (visited.slot ≡ Some followed.cell) × (links.new ≡ links.old)) }
{
    let Followed { cell, is_same } = followed;
    match change {
        None => Ok(Visited {
            slot: Some(cell),
            is_same,
        }),
        Some(Change::Becomes(new)) => {
            let before = cell.copy()?;
            let after = formed(alloc, new, cell)?;
            let is_same = is_same && after.same(&before);
            Ok(Visited {
                slot: Some(after),
                is_same,
            })
        }
        Some(Change::Gives(word)) => {
            let y = signal_at(cell.pins.as_slice(), PinName::Y.text());
            let left = SigSpec::from_slice(alloc, y)?;
            connect(Link { left, right: word }, aliases, links)?;
            Ok(Visited {
                slot: None,
                is_same: false,
            })
        }
    }
}

/// A connection goes last.
fn connect(link: Link, aliases: &mut Aliases, links: &mut Seq<Link>) -> Result<(), Memory>
    ensures links { OnOk result (links.new ≡ links.old ++ link ∷ []) }
    ensures aliases { OnOk result (IsAliases aliases.old links.old → IsAliases aliases.new links.new) }
{
    aliases.connect(link.left.as_slice(), link.right.as_slice())?;
    links.push(link)
}

/// The change of a cell whose inputs are followed, where the rules may change it and one of them fits.
fn change(
    alloc: Global,
    places: &Places,
    done: &[Option<Cell>],
    rest: &VecDeque<Cell>,
    cell: &Cell,
) -> Result<Option<Change>, Memory>
    ensures value { IfOk result (λ change. (cells : List Cell) → ArePlaces places.now cells →
        change ≡ change_by cells done.now rest.now.items (ruled_kind cell.now) cell.now) }
{
    let Some(kind) = ruled_kind(alloc, cell)? else {
        return Ok(None);
    };
    let shape = fitting_shape(alloc, kind, cell)?;
    let operands = operands(alloc, places, done, rest, &shape, cell.pins.as_slice())?;
    let change = first_fit(alloc, &shape, &operands)?;
    Ok(change)
}

/// The kind of a cell that the rules may change: a combinational one without a nonzero `\keep`.
fn ruled_kind(alloc: Global, cell: &Cell) -> Result<Option<CellKind>, Memory>
    ensures value { IfOk result (λ kind. kind ≡ ruled_kind cell.now) }
{
    if is_kept(alloc, cell.attributes.as_slice())? {
        return Ok(None);
    }
    Ok(combinational_kind(cell))
}

/// The operands of a cell of a shape with these pins.
fn operands(
    alloc: Global,
    places: &Places,
    done: &[Option<Cell>],
    rest: &VecDeque<Cell>,
    shape: &Shape,
    pins: &[Pin],
) -> Result<Operands, Memory>
    ensures value { IfOk result (λ operands. (cells : List Cell) → ArePlaces places.now cells →
        operands ≡ operands_in cells done.now rest.now.items shape.now pins.now) }
    ensures a { IfOk result (λ operands. operands.a ≡ signal_at pins.now (pin_text A)) }
    ensures b { IfOk result (λ operands. operands.b ≡ signal_at pins.now (pin_text B)) }
    ensures s { IfOk result (λ operands. operands.s ≡ signal_at pins.now (pin_text S)) }
{
    let a = signal_at(pins, PinName::A.text());
    let b = signal_at(pins, PinName::B.text());
    let s = signal_at(pins, PinName::S.text());
    let inverters = Inverters {
        inverted: inverted_bit(alloc, places, done, rest, s)?,
        inner: inverted(alloc, places, done, rest, a)?,
    };
    Operands::of(
        alloc,
        shape,
        SigSpec::from_slice(alloc, a)?,
        SigSpec::from_slice(alloc, b)?,
        SigSpec::from_slice(alloc, s)?,
        inverters,
    )
}
