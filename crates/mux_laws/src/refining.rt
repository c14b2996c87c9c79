//! Multiplexers refine the trees that they stand for. The law is the contract of a function that does
//! nothing.

ghost use Rattle.rtl_ir.specs.Scope.{with_processes};
ghost use Rattle.rtl_ir.specs.Types.{table_ports};
ghost use Rattle.net_model.specs.Proc.Mux.{proc_mux_of};
ghost use Rattle.net_model.specs.Refine.{RefinesIn};
ghost use Rattle.proc_laws.specs.Ready.{AreRuled, HaveNoLines, IsReady};

use rtl_ir::{Module, PortTable};

/// Where no rule of a process has a line and the switches are read by the rules already, a module
/// with multiplexers in the place of its processes loses no known output bit.
pub fn multiplexers_refine()
    ensures refines { (table : PortTable) (m : Module) →
        IsReady with_processes (table_ports table.modules) m → AreRuled m → HaveNoLines m →
        RefinesIn m (proc_mux_of m) table }
{}
