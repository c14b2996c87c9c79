//! Words refine the memory that they stand for. The law is the contract of a function that does
//! nothing.

ghost use Rattle.std.specs.Prelude.{◌≡◌, ℕ, Some, length, slice_get};
ghost use Rattle.rtl_ir.specs.Types.{table_ports};
ghost use Rattle.memory_laws.specs.Named.{AreShort};
ghost use Rattle.pass_laws.specs.OwnNames.{HaveOwnNames};
ghost use Rattle.net_model.specs.Mem.Expand.{expanded_memory, memory_of};
ghost use Rattle.net_model.specs.Mem.Gather.{gathered};
ghost use Rattle.net_model.specs.Refine.{RefinesIn};
ghost use Rattle.pass_laws.specs.Ready.{IsReady};

use rtl_ir::{Module, PortTable, Store};

/// Where a module may be given to a pass and no two of its memories have one name, a module in which a memory
/// becomes words, write chains and read trees loses no known output bit.
pub fn words_refine()
    ensures refines { (table : PortTable) (m : Module) (s : Store) (at : ℕ) →
        IsReady (table_ports table.modules) m → HaveOwnNames m →
        slice_get m.memories at ≡ Some s → RefinesIn m (expanded_memory m (gathered m at s) s) table }
{}

/// Where besides the fresh names are numbers of up to nine digits, a module all of whose memories become
/// words, one after another, loses no known output bit.
pub fn memories_refine()
    ensures refines { (table : PortTable) (m : Module) →
        IsReady (table_ports table.modules) m → HaveOwnNames m →
        AreShort (length m.memories) m → RefinesIn m (memory_of m) table }
{}
