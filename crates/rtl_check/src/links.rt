//! The faults of connections.

ghost use Rattle.std.specs.Prelude.{◌≡◌, ◌+◌, ◌^◌, ◌<◌, IfOk};
ghost use Rattle.rtl_ir.specs.Fault.{link_spot};
ghost use Rattle.rtl_ir.specs.Faults.Links.{link_faults};
ghost use Rattle.rtl_check.specs.Finds.{Finds};
ghost use Rattle.rtl_check.specs.Words.{spot_of};

use crate::fault::{CheckFault, Item, Spot};
use process_check::{has_constant, is_uneven};
use rtl_bits::{Copied, Memory, Text};
use rtl_ir::Link;

/// The first fault of the connections of a module of this name: of each one, a constant on its left, then unequal
/// widths.
pub(crate) fn check_links(id: &Text, links: &[Link]) -> Result<(), CheckFault>
    ensures first { Finds result (link_faults id.now 1 links.now) }
{
    for (at, link) in links.iter().enumerate() {
        if has_constant(link.left.as_slice()) {
            return Err(CheckFault::BadPort(spot(id, at)?));
        }
        if is_uneven(link) {
            return Err(CheckFault::Width(spot(id, at)?));
        }
    }
    Ok(())
}

/// The connection at this place of the list.
fn spot(id: &Text, at: usize) -> Result<Spot, Memory>
    requires in_range { at + 1 < 2 ^ 64 }
    ensures value { IfOk result (λ spot. spot ≡ spot_of (link_spot id.now (at + 1))) }
{
    Ok(Spot {
        id: id.copy()?,
        item: Item::Connect(at as u64 + 1),
    })
}
