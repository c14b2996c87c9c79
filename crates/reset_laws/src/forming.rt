//! The module with its resets as levels is well formed. Each law is the contract of a function that does
//! nothing.

ghost use Rattle.rtl_ir.specs.Scope.{with_processes};
ghost use Rattle.rtl_ir.specs.Types.{Ports, table_ports};
ghost use Rattle.net_model.specs.Proc.Reset.{proc_reset_of};
ghost use Rattle.net_model.specs.Proc.Start.{proc_tree_of};
ghost use Rattle.proc_laws.specs.Ready.{AreRuled, HasItsBits, HaveNoStarts, IsReady};
ghost use Rattle.proc_laws.specs.Step.{StaysReady};
ghost use Rattle.proc_laws.specs.Kinds.{HaveNoTwoEdges};
ghost use Rattle.reset_laws.specs.Trees.{TreesHaveBits};

use rtl_ir::{Module, PortTable};

/// Where a module may be given to a step of `proc`, its switches are read by the rules already, no rule
/// gives start values, and its storage and tree bits lie within the widths of their wires, all this is so
/// of the module with levels in the place of the resets' edges.
pub fn resets_stay_ready()
    ensures stays { (table : PortTable) (m : Module) → AreRuled m → HaveNoStarts m → HasItsBits m →
        TreesHaveBits m → StaysReady table m (proc_reset_of (table_ports table.modules) m) }
    ensures ruled { (ports : Ports) (m : Module) →
        IsReady with_processes ports m → AreRuled m → HaveNoStarts m → HasItsBits m →
        TreesHaveBits m → AreRuled (proc_reset_of ports m) }
    ensures no_starts { (ports : Ports) (m : Module) →
        IsReady with_processes ports m → AreRuled m → HaveNoStarts m → HasItsBits m →
        TreesHaveBits m → HaveNoStarts (proc_reset_of ports m) }
    ensures placed { (ports : Ports) (m : Module) →
        IsReady with_processes ports m → AreRuled m → HaveNoStarts m → HasItsBits m →
        TreesHaveBits m → HasItsBits (proc_reset_of ports m) }
    ensures trees { (ports : Ports) (m : Module) →
        IsReady with_processes ports m → AreRuled m → HaveNoStarts m → HasItsBits m →
        TreesHaveBits m → TreesHaveBits (proc_reset_of ports m) }
{}

/// And no process has two edges any more.
pub fn resets_leave_one_edge()
    ensures no_two_edges { (ports : Ports) (m : Module) →
        IsReady with_processes ports m → AreRuled m → HaveNoStarts m → HasItsBits m →
        TreesHaveBits m → HaveNoTwoEdges (proc_reset_of ports m) }
{}

/// Where tree bits lie within the widths of their wires, they do once the switches are read by the rules
/// and the start values stand in the attributes of wires, which are the steps before.
pub fn read_trees_have_bits()
    ensures trees { (m : Module) → TreesHaveBits m → TreesHaveBits (proc_tree_of m) }
{}
