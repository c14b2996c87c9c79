//! Laws of passes over modules that a text can give. Each is the contract of a function that does nothing.

ghost use Rattle.std.specs.Prelude.{◌≡◌, ◌≤◌, [], length};
ghost use Rattle.rtl_ir.specs.Build.{building_of};
ghost use Rattle.rtl_ir.specs.Scope.{with_processes};
ghost use Rattle.rtl_ir.specs.Types.{Ports, table_ports};
ghost use Rattle.net_model.specs.Fsm.Code.{fsm_of};
ghost use Rattle.net_model.specs.Mem.Expand.{memory_of};
ghost use Rattle.net_model.specs.Proc.Latch.{latches_step, proc_latch_of};
ghost use Rattle.net_model.specs.Proc.Mux.{proc_mux_of, processes_step};
ghost use Rattle.net_model.specs.Proc.Reset.{proc_reset_of};
ghost use Rattle.net_model.specs.Proc.Start.{proc_tree_of};
ghost use Rattle.net_model.specs.Proc.Sync.{proc_sync_of, sync_step};
ghost use Rattle.pass_laws.specs.OwnNames.{HaveOwnNames};
ghost use Rattle.pass_laws.specs.Ready.{IsReady, IsReadyWithin};
ghost use Rattle.rtl_readable.specs.Readable.{IsReadableModule};
ghost use Rattle.readable_laws.specs.Extends.{HasReadableItems};
ghost use Rattle.fsm_laws.specs.Short as codes;
ghost use Rattle.memory_laws.specs.Named as words;
ghost use Rattle.opt_clean.specs.Clean.{clean_of};
ghost use Rattle.opt_expr.specs.Sweep.{expr_of};
ghost use Rattle.opt_merge.specs.Merge.{merge_of};
ghost use Rattle.opt_more.specs.Dff.{dff_of};
ghost use Rattle.opt_more.specs.Muxtree.{muxtree_of};
ghost use Rattle.opt_more.specs.Reduce.{reduce_of};
ghost use Rattle.opt_rounds.specs.Rounds.{opt_of};
ghost use Rattle.readable_passes.specs.Named.{NamesMemories};

use rtl_ir::{Module, PortTable};

/// A module that a text can give stays one under `opt_expr`, `opt_merge`, `opt_clean` and `opt`, and under
/// `opt_muxtree`, `opt_reduce` and `opt_dff`.
pub fn optimized_modules_are_readable()
    ensures folded { (table : PortTable) (m : Module) → IsReady (table_ports table.modules) m → IsReadableModule m →
        IsReadableModule (expr_of (table_ports table.modules) m) }
    ensures merged { (m : Module) → IsReadableModule m → IsReadableModule (merge_of m) }
    ensures cleaned { (ports : Ports) (m : Module) → m.processes ≡ [] → IsReadableModule m →
        IsReadableModule (clean_of ports m) }
    ensures rounds { (table : PortTable) (m : Module) → IsReady (table_ports table.modules) m → IsReadableModule m →
        IsReadableModule (opt_of (table_ports table.modules) m) }
    ensures chosen { (ports : Ports) (m : Module) → IsReadableModule m → IsReadableModule (muxtree_of ports m) }
    ensures gathered { (ports : Ports) (m : Module) → IsReadableModule m → IsReadableModule (reduce_of ports m) }
    ensures settled { (ports : Ports) (m : Module) → IsReadableModule m → IsReadableModule (dff_of ports m) }
{}

/// A module that a text can give stays one under the first three steps of `proc`, and its items are such as a text can
/// give after the steps that make latches and multiplexers, where their fresh names have at most nine digits.
pub fn steps_of_proc_are_readable()
    ensures ruled { (m : Module) → IsReadableModule m → IsReadableModule (proc_tree_of m) }
    ensures levels { (ports : Ports) (m : Module) → IsReadableModule m → IsReadableModule (proc_reset_of ports m) }
    ensures latched { (ports : Ports) (m : Module) → IsReadyWithin with_processes ports m → HasReadableItems m →
        (latches_step m.processes (building_of m)).next ≤ 1000000000 → HasReadableItems (proc_latch_of m) }
    ensures chosen { (ports : Ports) (m : Module) → IsReadyWithin with_processes ports m → HasReadableItems m →
        (processes_step (building_of m) m.processes).next ≤ 1000000000 → HasReadableItems (proc_mux_of m) }
{}

/// The items of a module are such as a text can give after its rules became flip-flops, latches and write ports, where
/// they were, its lines write memories whose names a constant may hold, and the fresh names have at most nine digits.
pub fn modules_without_rules_are_readable()
    ensures stored { (ports : Ports) (m : Module) → IsReadyWithin with_processes ports m → NamesMemories m →
        HasReadableItems m → (sync_step m (building_of m)).next ≤ 1000000000 → HasReadableItems (proc_sync_of m) }
{}

/// The items of a module are such as a text can give after its machines got the code with one bit for each state, where
/// they were, and the fresh names that are taken have at most nine digits.
pub fn modules_with_codes_are_readable()
    ensures coded { (ports : Ports) (m : Module) → IsReady ports m → codes.AreShort ports 0 (length m.wires) m →
        HasReadableItems m → HasReadableItems (fsm_of ports m) }
{}

/// The items of a module are such as a text can give after its memories became words, where they were, and the fresh
/// names that are taken have at most nine digits.
pub fn modules_without_memories_are_readable()
    ensures words { (ports : Ports) (m : Module) → IsReady ports m → HaveOwnNames m →
        words.AreShort (length m.memories) m → HasReadableItems m → HasReadableItems (memory_of m) }
{}
