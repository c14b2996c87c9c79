//! Write ports stand for the lines that they are made of. The law is the contract of a function that does nothing.

ghost use Rattle.std.specs.Prelude.{◌≡◌, ℕ, List};
ghost use Rattle.rtl_ir.specs.Flat.Access.{accesses_of};
ghost use Rattle.rtl_ir.specs.Flat.Memory.{memories_rows};
ghost use Rattle.rtl_ir.specs.Flat.Place.{Path};
ghost use Rattle.rtl_ir.specs.Scope.{with_processes};
ghost use Rattle.rtl_ir.specs.Types.{Ports};
ghost use Rattle.net_model.specs.Proc.Sync.{proc_sync_of};
ghost use Rattle.proc_laws.specs.Ready.{IsReady};
ghost use Rattle.proc_laws.specs.Kinds.{HaveNoAlways, HaveNoTwoEdges};

use rtl_ir::{Module, Wire};

/// Each memory has the same write ports after the step, in the same order: their numbers, clocks, addresses, words and
/// enables, and what they may follow. So the flat netlist has the same rows of its words and its reads.
pub fn ports_stay()
    ensures same_accesses { (ports : Ports) (m : Module) → IsReady with_processes ports m →
        HaveNoAlways m → HaveNoTwoEdges m → (name : List ℕ) →
        accesses_of name m.cells m.processes ≡ accesses_of name (proc_sync_of m).cells (proc_sync_of m).processes }
    ensures same_words { (ports : Ports) (m : Module) → IsReady with_processes ports m →
        HaveNoAlways m → HaveNoTwoEdges m → (p : Path) (wires : List Wire) →
        memories_rows p wires m.cells m.processes m.memories
        ≡ memories_rows p wires (proc_sync_of m).cells (proc_sync_of m).processes m.memories }
{}
