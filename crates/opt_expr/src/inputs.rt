//! Cells with their inputs followed through the connections.

ghost use Rattle.std.specs.Prelude.{◌≡◌, true, List, IfOk, map};
ghost use Rattle.rtl_sig.specs.declared.sig.SigBit.{SigBit};
ghost use Rattle.rtl_ir.specs.Follow.{follow};
ghost use Rattle.rtl_ir.specs.Types as rtl;
ghost use Rattle.rtl_ir.specs.declared.module.Link.{Link};
ghost use Rattle.net_index.specs.Types.{AreTypes, IsType};
ghost use Rattle.net_alias.specs.Aliases.{IsAliases};
ghost use Rattle.follow_laws.specs.Inputs.{followed_cell, followed_pin};

use net_alias::Aliases;
use net_index::{CellType, Types, drives_pin};
use rtl_bits::{Copied, Memory, Seq};
use rtl_ir::{Cell, Pin, Same};
use rtl_sig::{SigBit, SigSpec};
use std::alloc::Global;

/// A cell whose input bits are followed, and whether that is the cell itself.
#[derive(Drop)]
pub struct Followed {
    pub cell: Cell,
    pub is_same: bool,
}

/// The cell with its input bits followed. All but its pins moves.
pub fn followed_cell(
    alloc: Global,
    types: &Types,
    aliases: &mut Aliases,
    cell: Cell,
) -> Result<Followed, Memory>
    ensures value { IfOk result (λ after. (ports : rtl.Ports) (links : List Link) → AreTypes types.now ports →
        IsAliases aliases.old links → after.cell ≡ followed_cell ports links cell) }
    ensures same { IfOk result (λ after. after.is_same ≡ true → after.cell ≡ cell) }
    ensures keeps { (links : List Link) → IsAliases aliases.old links → IsAliases aliases.new links }
{
    let cell_type = types.find(cell.kind_name.as_slice());
    let pins = followed_pins(alloc, &cell_type, aliases, cell.pins.as_slice())?;
    let is_same = pins.same(&cell.pins);
    Ok(Followed {
        cell: Cell { pins, ..cell },
        is_same,
    })
}

/// The pins of a cell of this type, each followed unless the cell drives it.
fn followed_pins(
    alloc: Global,
    cell_type: &CellType,
    aliases: &mut Aliases,
    pins: &[Pin],
) -> Result<Seq<Pin>, Memory>
    ensures value { IfOk result (λ after. (type : rtl.CellType) (links : List Link) → IsType cell_type.now type →
        IsAliases aliases.old links → after ≡ map (followed_pin type links) pins.now) }
    ensures keeps { (links : List Link) → IsAliases aliases.old links → IsAliases aliases.new links }
{
    let mut after = Vec::with_capacity(alloc, pins.len())?;
    for pin in pins {
        after.push(followed_pin(alloc, cell_type, aliases, pin)?)?;
    }
    Ok(Seq::from_vec(after))
}

fn followed_pin(
    alloc: Global,
    cell_type: &CellType,
    aliases: &mut Aliases,
    pin: &Pin,
) -> Result<Pin, Memory>
    ensures value { IfOk result (λ after. (type : rtl.CellType) (links : List Link) → IsType cell_type.now type →
        IsAliases aliases.old links → after ≡ followed_pin type links pin.now) }
    ensures keeps { (links : List Link) → IsAliases aliases.old links → IsAliases aliases.new links }
{
    let name = pin.name.as_slice();
    let sig = if drives_pin(cell_type, name) {
        pin.sig.copy()?
    } else {
        followed_signal(alloc, aliases, pin.sig.as_slice())?
    };
    Ok(Pin {
        name: pin.name.copy()?,
        sig,
    })
}

/// The signal with each of its bits followed.
pub fn followed_signal(
    alloc: Global,
    aliases: &mut Aliases,
    signal: &[SigBit],
) -> Result<SigSpec, Memory>
    ensures value { IfOk result (λ after. (links : List Link) → IsAliases aliases.old links →
        after ≡ map (follow links) signal.now) }
    ensures keeps { (links : List Link) → IsAliases aliases.old links → IsAliases aliases.new links }
{
    let mut after = SigSpec::with_capacity(alloc, signal.len())?;
    for bit in signal {
        after.push(aliases.follow(*bit))?;
    }
    Ok(after)
}
