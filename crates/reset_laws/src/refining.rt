//! A reset that is a level refines one that is an edge. Each law is the contract of a function that does
//! nothing.

ghost use Rattle.rtl_ir.specs.Flat.Cell as flat;
ghost use Rattle.rtl_ir.specs.Scope.{with_processes};
ghost use Rattle.rtl_ir.specs.Types.{Ports, table_ports};
ghost use Rattle.net_model.specs.Proc.Reset.{proc_reset_of};
ghost use Rattle.net_model.specs.Refine.{IsWellDriven, RefinesIn};
ghost use Rattle.proc_laws.specs.Step.{IsStep};
ghost use Rattle.proc_laws.specs.Ready.{AreRuled, HasItsBits, HaveNoStarts, IsReady};
ghost use Rattle.reset_laws.specs.Trees.{TreesHaveBits};

use rtl_ir::{Module, PortTable};

/// Where a module may be given to a step of `proc`, its switches are read by the rules already, no rule
/// gives start values, and its storage and tree bits lie within the widths of their wires, the module
/// with levels in the place of the resets' edges loses no known output bit.
pub fn resets_refine()
    ensures refines { (table : PortTable) (m : Module) →
        IsReady with_processes (table_ports table.modules) m → AreRuled m → HaveNoStarts m →
        HasItsBits m → TreesHaveBits m → RefinesIn m (proc_reset_of (table_ports table.modules) m) table }
{}

/// No bit gets a second driver, in whatever design the module stands.
pub fn resets_drive_once()
    ensures driven { (ports : Ports) (over : flat.Ports) (m : Module) →
        IsReady with_processes ports m → AreRuled m → HaveNoStarts m → HasItsBits m →
        TreesHaveBits m → IsWellDriven over m → IsWellDriven over (proc_reset_of ports m) }
{}

/// So it is a step of `proc`.
pub fn resets_are_a_step()
    ensures step { (table : PortTable) (m : Module) →
        IsReady with_processes (table_ports table.modules) m → AreRuled m → HaveNoStarts m →
        HasItsBits m → TreesHaveBits m → IsStep table m (proc_reset_of (table_ports table.modules) m) }
{}
