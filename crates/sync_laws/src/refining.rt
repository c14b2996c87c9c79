//! Flip-flops and latches refine the rules that they stand for. The law is the contract of a function that
//! does nothing.

ghost use Rattle.rtl_ir.specs.Scope.{with_processes};
ghost use Rattle.rtl_ir.specs.Types.{table_ports};
ghost use Rattle.net_model.specs.Proc.Sync.{proc_sync_of};
ghost use Rattle.net_model.specs.Refine.{RefinesIn};
ghost use Rattle.proc_laws.specs.Ready.{HaveNoStarts, IsReady};
ghost use Rattle.proc_laws.specs.Kinds.{HaveNoAlways, HaveNoTwoEdges, HaveNoWrites};

use rtl_ir::{Module, PortTable};

/// Where no rule acts always, writes a memory or gives start values, and no process has two rules at edges, a
/// module with flip-flops and latches in the place of rules loses no known output bit.
pub fn flops_refine()
    ensures refines { (table : PortTable) (m : Module) →
        IsReady with_processes (table_ports table.modules) m → HaveNoAlways m → HaveNoTwoEdges m →
        HaveNoWrites m → HaveNoStarts m → RefinesIn m (proc_sync_of m) table }
{}

/// Where no rule acts always or gives start values, and no process has two rules at edges, a module with flip-flops,
/// latches and write ports in the place of rules loses no known output bit.
pub fn storage_refines()
    ensures refines { (table : PortTable) (m : Module) →
        IsReady with_processes (table_ports table.modules) m → HaveNoAlways m → HaveNoTwoEdges m →
        HaveNoStarts m → RefinesIn m (proc_sync_of m) table }
{}
