//! Latches refine the bits that they stand for. The law is the contract of a function that does
//! nothing.

ghost use Rattle.rtl_ir.specs.Scope.{with_processes};
ghost use Rattle.rtl_ir.specs.Types.{table_ports};
ghost use Rattle.net_model.specs.Proc.Latch.{proc_latch_of};
ghost use Rattle.net_model.specs.Refine.{RefinesIn};
ghost use Rattle.proc_laws.specs.Ready.{AreRuled, IsReady};
ghost use Rattle.proc_laws.specs.Kinds.{HaveNoTwoEdges};

use rtl_ir::{Module, PortTable};

/// Where no process has two rules at edges and the switches are read by the rules already, a module
/// with latches in the place of its bits that are always updated loses no known output bit.
pub fn latches_refine()
    ensures refines { (table : PortTable) (m : Module) →
        IsReady with_processes (table_ports table.modules) m → AreRuled m → HaveNoTwoEdges m →
        RefinesIn m (proc_latch_of m) table }
{}
