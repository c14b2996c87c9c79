//! The sizes of memories.

ghost use Rattle.std.specs.Prelude.{◌≡◌};
ghost use Rattle.rtl_ir.specs.Faults.Stores.{is_bad_store};

use rtl_ir::Store;
use rtl_ir::limits::MAX_STORE;

/// Whether the memory has no word, an address below 0, or too many bits.
pub fn is_bad_store(store: &Store) -> bool
    ensures value { result ≡ is_bad_store store.now }
{
    if store.size < 1 || store.offset < 0 {
        return true;
    }
    u64::from(store.width) * u64::from(store.size.unsigned_abs()) > MAX_STORE
}
