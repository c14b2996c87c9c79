//! The places that modules take among others.

ghost use Rattle.std.specs.Prelude.{◌≡◌, ◌≤◌, ℕ, List, Err, IfOk, OnOk, length};
ghost use Rattle.rtl_ir.specs.declared.module.Module.{Module};
ghost use Rattle.design_edit.specs.Modules.{PassesAt, place_for, places_for, with_module, with_modules};
ghost use Rattle.design_edit.specs.Table.{ArePlaces};

use crate::table::{Places, places_of};
use rtl_bits::Memory;
use rtl_ir::Module;
use rtl_ir::limits::MAX_MODULES;
use std::alloc::{AllocError, AllocFailed, Global};
use thiserror::Error;

/// Why modules do not take the places of those of their names.
#[derive(Clone, Copy, Debug, PartialEq, Eq, Error)]
pub enum PlaceFault {
    /// The place of the first module that makes them more than a design may have.
    #[error("module {0} passes the limit")]
    Past(usize),
    #[error("out of memory")]
    Memory,
}

impl From<Memory> for PlaceFault {
    ghost use Rattle.std.specs.Prelude.{◌≡◌};
    ghost use Rattle.design_edit.specs.declared.placement.PlaceFault.TheVariants as faults;

    ghost from_gives = { λ _ fault. fault ≡ faults.Memory };

    fn from(_memory: Memory) -> PlaceFault {
        PlaceFault::Memory
    }
}

impl From<AllocError> for PlaceFault {
    ghost use Rattle.std.specs.Prelude.{◌≡◌};
    ghost use Rattle.design_edit.specs.declared.placement.PlaceFault.TheVariants as faults;

    ghost from_gives = { λ _ fault. fault ≡ faults.Memory };

    fn from(_error: AllocError) -> PlaceFault {
        PlaceFault::Memory
    }
}

impl<T: Drop> From<AllocFailed<T>> for PlaceFault {
    ghost use Rattle.std.specs.Prelude.{◌≡◌};
    ghost use Rattle.design_edit.specs.declared.placement.PlaceFault.TheVariants as faults;

    ghost from_gives = { λ _ fault. fault ≡ faults.Memory };

    fn from(_error: AllocFailed<T>) -> PlaceFault {
        PlaceFault::Memory
    }
}

/// The places that modules take among others, one after another, and how many modules there are then.
#[derive(Drop)]
pub(crate) struct Placing {
    pub(crate) places: Vec<usize>,
    pub(crate) count: usize,
}

/// The place of a module of this name among so many, which the table places. A new name takes the place behind them.
fn take_place<'a>(table: &mut Places<'a>, name: &'a [u8], count: usize) -> Result<usize, Memory>
    ensures place { IfOk result (λ place. (modules : List Module) → ArePlaces table.old modules →
        count ≡ length modules → place ≡ place_for modules name.now) }
    ensures table { OnOk result ((modules : List Module) (new : Module) → ArePlaces table.old modules →
        count ≡ length modules → new.id ≡ name.now → ArePlaces table.new (with_module modules new)) }
{
    if let Some(place) = table.get(name) {
        return Ok(*place);
    }
    table.insert(name, count)?;
    Ok(count)
}

/// How many modules there are with these in the places of those of their names.
pub fn edited_count(alloc: Global, modules: &[Module], edits: &[Module]) -> Result<usize, Memory>
    ensures value { IfOk result (λ count. count ≡ length (with_modules modules.now edits.now)) }
{
    let mut table = places_of(alloc, modules)?;
    let mut count = modules.len();
    for edit in edits {
        if take_place(&mut table, edit.id.as_slice(), count)? == count {
            count += 1;
        }
    }
    Ok(count)
}

/// The places that these modules take, if that makes no more than a design may have.
pub(crate) fn places_for(
    alloc: Global,
    modules: &[Module],
    edits: &[Module],
) -> Result<Placing, PlaceFault>
    requires few { length modules.now ≤ MAX_MODULES }
    ensures places { IfOk result (λ placing. placing.places.items ≡ places_for modules.now edits.now) }
    ensures count { IfOk result (λ placing. placing.count ≡ length (with_modules modules.now edits.now)) }
    ensures within { IfOk result (λ placing. placing.count ≤ MAX_MODULES) }
    ensures past { (at : ℕ) → result ≡ Err (PlaceFault.Past at) → PassesAt modules.now edits.now at }
{
    let mut table = places_of(alloc, modules)?;
    let mut places = Vec::with_capacity(alloc, edits.len())?;
    let mut count = modules.len();
    for (at, edit) in edits.iter().enumerate() {
        let place = take_place(&mut table, edit.id.as_slice(), count)?;
        if place == count {
            if count == MAX_MODULES {
                return Err(PlaceFault::Past(at));
            }
            count += 1;
        }
        places.push(place)?;
    }
    Ok(Placing { places, count })
}
