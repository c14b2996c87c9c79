//! The faults of ports.

ghost use Rattle.std.specs.Prelude.{◌≡◌, ℤ, false, List, [], IfOk};
ghost use Rattle.rtl_ir.specs.Fault.{spot};
ghost use Rattle.rtl_ir.specs.Faults.Wires.{is_bad_port, with_number, wire_faults};
ghost use Rattle.rtl_check.specs.Finds.{Finds};
ghost use Rattle.rtl_check.specs.Numbers.{Holds};
ghost use Rattle.rtl_check.specs.Words.{spot_of};

use crate::fault::{CheckFault, Item, Spot};
use rtl_bits::{Copied, Memory, Text};
use rtl_ir::{Role, Wire, is_port};
use std::alloc::Global;
use std::collections::HashSet;

/// The first fault of the wires of a module of this name: a port of both directions, or with a number below 1
/// or of an earlier port.
pub(crate) fn check_wires(alloc: Global, id: &Text, wires: &[Wire]) -> Result<(), CheckFault>
    ensures first { Finds result (wire_faults id.now [] wires.now) }
{
    let mut numbers = HashSet::new(alloc);
    for wire in wires {
        if is_bad_port(&mut numbers, wire)? {
            return Err(CheckFault::BadPort(spot(id, &wire.name)?));
        }
    }
    Ok(())
}

/// Whether the wire is no good port behind ports of these numbers. If it is none, its number is put beside them.
fn is_bad_port(numbers: &mut HashSet<i32>, wire: &Wire) -> Result<bool, Memory>
    ensures bad { IfOk result (λ bad. (seen : List ℤ) → Holds numbers.old seen → bad ≡ is_bad_port seen wire.now) }
    ensures numbers { IfOk result (λ bad. (seen : List ℤ) → Holds numbers.old seen → bad ≡ false →
        Holds numbers.new (with_number seen wire.now)) }
{
    if !is_port(wire.role) {
        return Ok(false);
    }
    if wire.role == Role::Inout || wire.number < 1 {
        return Ok(true);
    }
    Ok(!numbers.insert(wire.number)?)
}

/// The item of this name.
pub(crate) fn spot(id: &Text, name: &Text) -> Result<Spot, Memory>
    ensures value { IfOk result (λ found. found ≡ spot_of (spot id.now name.now)) }
{
    Ok(Spot {
        id: id.copy()?,
        item: Item::Named(name.copy()?),
    })
}
