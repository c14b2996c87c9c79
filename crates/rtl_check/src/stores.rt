//! The faults of memories.

ghost use Rattle.std.specs.Prelude.{flat_map};
ghost use Rattle.rtl_ir.specs.Faults.Stores.{store_faults};
ghost use Rattle.rtl_ir.specs.Scope.{everything};
ghost use Rattle.rtl_check.specs.Finds.{Finds};

use crate::fault::CheckFault;
use crate::wires::spot;
use memory_check::is_bad_store;
use rtl_bits::Text;
use rtl_ir::Store;

/// The first fault of the memories of a module of this name: one without words, with an address below 0 or with too
/// many bits.
pub(crate) fn check_stores(id: &Text, stores: &[Store]) -> Result<(), CheckFault>
    ensures first { Finds result (flat_map (store_faults everything id.now) stores.now) }
{
    for store in stores {
        if is_bad_store(store) {
            return Err(CheckFault::BadMemory(spot(id, &store.name)?));
        }
    }
    Ok(())
}
