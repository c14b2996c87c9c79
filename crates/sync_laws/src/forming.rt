//! The module that the step gives is well formed. Each law is the contract of a function that does nothing.

ghost use Rattle.std.specs.Prelude.{◌≡◌};
ghost use Rattle.rtl_ir.specs.Flat.Cell as flat;
ghost use Rattle.rtl_ir.specs.Flat.Cell.{instances};
ghost use Rattle.rtl_ir.specs.Ports.{ports_of};
ghost use Rattle.rtl_ir.specs.Scope.{with_processes};
ghost use Rattle.rtl_ir.specs.Types.{Ports, table_ports};
ghost use Rattle.net_model.specs.Proc.Sync.{proc_sync_of};
ghost use Rattle.net_model.specs.Refine.{IsWellDriven};
ghost use Rattle.proc_laws.specs.Ready.{AreRuled, HaveNoLines, HaveNoStarts, IsReady};
ghost use Rattle.proc_laws.specs.Step.{IsStep, StaysReady};
ghost use Rattle.proc_laws.specs.Kinds.{HaveNoAlways, HaveNoTwoEdges, HaveNoWrites};
ghost use Rattle.sync_laws.specs.Lines.{WritesHaveBits};

use rtl_ir::{Module, PortTable};

/// Where no rule acts always or writes a memory, and no process has two rules at edges, the module with
/// flip-flops and latches in the place of rules has the same name, ports and instances, no bit gets a second
/// driver, in whatever design it stands, and it may be given on.
pub fn flops_fit()
    ensures same_id { (ports : Ports) (m : Module) →
        IsReady with_processes ports m → HaveNoAlways m → HaveNoTwoEdges m → HaveNoWrites m →
        m.id ≡ (proc_sync_of m).id }
    ensures same_ports { (ports : Ports) (m : Module) →
        IsReady with_processes ports m → HaveNoAlways m → HaveNoTwoEdges m → HaveNoWrites m →
        ports_of m.wires ≡ ports_of (proc_sync_of m).wires }
    ensures same_instances { (ports : Ports) (m : Module) →
        IsReady with_processes ports m → HaveNoAlways m → HaveNoTwoEdges m → HaveNoWrites m →
        instances m.cells ≡ instances (proc_sync_of m).cells }
    ensures driven { (ports : Ports) (over : flat.Ports) (m : Module) →
        IsReady with_processes ports m → HaveNoAlways m → HaveNoTwoEdges m → HaveNoWrites m →
        IsWellDriven over m → IsWellDriven over (proc_sync_of m) }
    ensures ready { (table : PortTable) (m : Module) → HaveNoAlways m → HaveNoTwoEdges m → HaveNoWrites m →
        StaysReady table m (proc_sync_of m) }
{}

/// Its processes have no rule, and their trees stay.
pub fn flops_leave_trees()
    ensures no_lines { (m : Module) → HaveNoLines (proc_sync_of m) }
    ensures ruled { (m : Module) → AreRuled m → AreRuled (proc_sync_of m) }
{}

/// Where besides no rule gives start values, it is a step of `proc`.
pub fn flops_are_a_step()
    ensures step { (table : PortTable) (m : Module) →
        IsReady with_processes (table_ports table.modules) m → HaveNoAlways m → HaveNoTwoEdges m →
        HaveNoWrites m → HaveNoStarts m → IsStep table m (proc_sync_of m) }
{}

/// Where no rule acts always, and no process has two rules at edges, the module with flip-flops, latches and write
/// ports in the place of rules has the same name, ports and instances, and no bit gets a second driver, in whatever
/// design it stands.
pub fn storage_fits()
    ensures same_id { (m : Module) → m.id ≡ (proc_sync_of m).id }
    ensures same_ports { (m : Module) → ports_of m.wires ≡ ports_of (proc_sync_of m).wires }
    ensures same_instances { (table : PortTable) (m : Module) →
        IsReady with_processes (table_ports table.modules) m → HaveNoAlways m → HaveNoTwoEdges m →
        instances m.cells ≡ instances (proc_sync_of m).cells }
    ensures driven { (table : PortTable) (over : flat.Ports) (m : Module) →
        IsReady with_processes (table_ports table.modules) m → HaveNoAlways m → HaveNoTwoEdges m →
        IsWellDriven over m → IsWellDriven over (proc_sync_of m) }
{}

/// Where besides the address and the word of each line that writes have a bit, as those of a port must, it may be given
/// on.
pub fn storage_stays_ready()
    ensures ready { (table : PortTable) (m : Module) → HaveNoAlways m → HaveNoTwoEdges m → WritesHaveBits m →
        StaysReady table m (proc_sync_of m) }
{}

/// Its processes have no rule, and their trees stay.
pub fn storage_leaves_trees()
    ensures no_lines { (m : Module) → HaveNoLines (proc_sync_of m) }
    ensures ruled { (m : Module) → AreRuled m → AreRuled (proc_sync_of m) }
{}

/// Where no rule acts always or gives start values, and no process has two rules at edges, it is a step of `proc`.
pub fn storage_is_a_step()
    ensures step { (table : PortTable) (m : Module) →
        IsReady with_processes (table_ports table.modules) m → HaveNoAlways m → HaveNoTwoEdges m →
        HaveNoStarts m → IsStep table m (proc_sync_of m) }
{}
