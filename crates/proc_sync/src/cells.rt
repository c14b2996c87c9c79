//! The cells that runs become.

ghost use Rattle.std.specs.Prelude.{◌≡◌, Err, OnOk};
ghost use Rattle.net_index.specs.Builder.{IsInLimits, PassesLimit};
ghost use Rattle.rtl_ir.specs.Triggers.{trigger_of};
ghost use Rattle.proc_sync.specs.Forms.{adff_cell, aldff_cell, dff_cell, dlatch_cell, ff_cell};

use crate::joins::{left_side, right_side};
use crate::parts::{
    clocked_params, clocked_pins, data_pins, enabled_params, enabled_pins, load_params, load_pins,
    reset_params, reset_pins,
};
use cell_types::{CellKind, ParamName, StorageKind};
use net_index::{Builder, PassFault, length_param};
use rtl_ir::{Join, Trigger};
use rtl_sig::SigBit;
use std::alloc::Global;

/// A `$ff` of the places.
pub(crate) fn ff_cell(
    alloc: Global,
    places: &[Join],
    builder: &mut Builder,
) -> Result<(), PassFault>
    ensures exact { OnOk result (builder.new ≡ ff_cell places.now builder.old) }
    ensures over { result ≡ Err PassFault.Over → PassesLimit (ff_cell places.now builder.old) }
    ensures within { OnOk result (IsInLimits builder.new) }
{
    let params = [length_param(alloc, ParamName::Width, places.len())?];
    let d = right_side(alloc, places)?;
    let q = left_side(alloc, places)?;
    let pins = data_pins(alloc, d.as_slice(), q.as_slice())?;
    builder.add_cell(CellKind::Storage(StorageKind::Ff), &params, pins.as_slice())?;
    Ok(())
}

/// A `$dlatch` of the places, open at the level.
pub(crate) fn dlatch_cell(
    alloc: Global,
    level: &Trigger<'_>,
    places: &[Join],
    builder: &mut Builder,
) -> Result<(), PassFault>
    ensures exact { OnOk result (builder.new ≡ dlatch_cell (trigger_of level.now) places.now builder.old) }
    ensures over { result ≡ Err PassFault.Over →
        PassesLimit (dlatch_cell (trigger_of level.now) places.now builder.old) }
    ensures within { OnOk result (IsInLimits builder.new) }
{
    let params = enabled_params(alloc, places.len(), level.level)?;
    let d = right_side(alloc, places)?;
    let q = left_side(alloc, places)?;
    let pins = enabled_pins(alloc, level.signal, d.as_slice(), q.as_slice())?;
    let kind = CellKind::Storage(StorageKind::Dlatch);
    builder.add_cell(kind, params.as_slice(), pins.as_slice())?;
    Ok(())
}

/// A `$dff` of the places.
pub(crate) fn dff_cell(
    alloc: Global,
    edge: &Trigger<'_>,
    places: &[Join],
    builder: &mut Builder,
) -> Result<(), PassFault>
    ensures exact { OnOk result (builder.new ≡ dff_cell (trigger_of edge.now) places.now builder.old) }
    ensures over { result ≡ Err PassFault.Over → PassesLimit (dff_cell (trigger_of edge.now) places.now builder.old) }
    ensures within { OnOk result (IsInLimits builder.new) }
{
    let params = clocked_params(alloc, places.len(), edge.level)?;
    let d = right_side(alloc, places)?;
    let q = left_side(alloc, places)?;
    let pins = clocked_pins(alloc, edge.signal, d.as_slice(), q.as_slice())?;
    let kind = CellKind::Storage(StorageKind::Dff);
    builder.add_cell(kind, params.as_slice(), pins.as_slice())?;
    Ok(())
}

/// An `$adff` of the places, which gives these constants while the level is there.
pub(crate) fn adff_cell(
    alloc: Global,
    edge: &Trigger<'_>,
    level: &Trigger<'_>,
    given: &[SigBit],
    places: &[Join],
    builder: &mut Builder,
) -> Result<(), PassFault>
    ensures exact { OnOk result (builder.new ≡
        adff_cell (trigger_of edge.now) (trigger_of level.now) given.now places.now builder.old) }
    ensures over { result ≡ Err PassFault.Over →
        PassesLimit (adff_cell (trigger_of edge.now) (trigger_of level.now) given.now places.now builder.old) }
    ensures within { OnOk result (IsInLimits builder.new) }
{
    let params = reset_params(alloc, places.len(), edge.level, level.level, given)?;
    let d = right_side(alloc, places)?;
    let q = left_side(alloc, places)?;
    let pins = reset_pins(alloc, edge.signal, level.signal, d.as_slice(), q.as_slice())?;
    let kind = CellKind::Storage(StorageKind::Adff);
    builder.add_cell(kind, params.as_slice(), pins.as_slice())?;
    Ok(())
}

/// An `$aldff` of the places, which loads this while the level is there.
pub(crate) fn aldff_cell(
    alloc: Global,
    edge: &Trigger<'_>,
    level: &Trigger<'_>,
    given: &[SigBit],
    places: &[Join],
    builder: &mut Builder,
) -> Result<(), PassFault>
    ensures exact { OnOk result (builder.new ≡
        aldff_cell (trigger_of edge.now) (trigger_of level.now) given.now places.now builder.old) }
    ensures over { result ≡ Err PassFault.Over →
        PassesLimit (aldff_cell (trigger_of edge.now) (trigger_of level.now) given.now places.now builder.old) }
    ensures within { OnOk result (IsInLimits builder.new) }
{
    let params = load_params(alloc, places.len(), edge.level, level.level)?;
    let d = right_side(alloc, places)?;
    let q = left_side(alloc, places)?;
    let pins = load_pins(
        alloc,
        edge.signal,
        level.signal,
        given,
        d.as_slice(),
        q.as_slice(),
    )?;
    let kind = CellKind::Storage(StorageKind::Aldff);
    builder.add_cell(kind, params.as_slice(), pins.as_slice())?;
    Ok(())
}
