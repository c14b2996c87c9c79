//! The module that the step gives is well formed. Each law is the contract of a function that does
//! nothing.

ghost use Rattle.std.specs.Prelude.{◌≡◌, ◌≤◌};
ghost use Rattle.rtl_ir.specs.Build.{building_of};
ghost use Rattle.rtl_ir.specs.Flat.Cell as flat;
ghost use Rattle.rtl_ir.specs.Flat.Cell.{instances};
ghost use Rattle.rtl_ir.specs.Ports.{ports_of};
ghost use Rattle.rtl_ir.specs.Scope.{with_processes, without_processes};
ghost use Rattle.rtl_ir.specs.Types.{Ports, table_ports};
ghost use Rattle.net_model.specs.Proc.Mux.{proc_mux_of, processes_step};
ghost use Rattle.net_model.specs.Refine.{IsWellDriven};
ghost use Rattle.proc_laws.specs.Ready.{AreRuled, HaveNoLines, IsReady};
ghost use Rattle.proc_laws.specs.Step.{IsStep};

use rtl_ir::{Module, PortTable};

/// Where a module may be given to a step of `proc`, and its fresh names are numbers of up to nine digits,
/// the module with multiplexers in the place of trees has the same name, ports and instances, and no bit
/// gets a second driver, in whatever design it stands. It may be given to a pass.
pub fn multiplexers_fit()
    ensures same_id { (ports : Ports) (m : Module) → IsReady with_processes ports m →
        m.id ≡ (proc_mux_of m).id }
    ensures same_ports { (ports : Ports) (m : Module) → IsReady with_processes ports m →
        (processes_step (building_of m) m.processes).next ≤ 1000000000 →
        ports_of m.wires ≡ ports_of (proc_mux_of m).wires }
    ensures same_instances { (ports : Ports) (m : Module) → IsReady with_processes ports m →
        (processes_step (building_of m) m.processes).next ≤ 1000000000 →
        instances m.cells ≡ instances (proc_mux_of m).cells }
    ensures driven { (ports : Ports) (over : flat.Ports) (m : Module) → IsReady with_processes ports m →
        (processes_step (building_of m) m.processes).next ≤ 1000000000 →
        IsWellDriven over m → IsWellDriven over (proc_mux_of m) }
    ensures ready { (ports : Ports) (m : Module) → IsReady with_processes ports m →
        (processes_step (building_of m) m.processes).next ≤ 1000000000 →
        IsReady without_processes ports (proc_mux_of m) }
{}

/// Where besides no rule of a process has a line and the switches are read by the rules already, it is a
/// step of `proc`.
pub fn multiplexers_are_a_step()
    ensures step { (table : PortTable) (m : Module) →
        IsReady with_processes (table_ports table.modules) m → AreRuled m → HaveNoLines m →
        (processes_step (building_of m) m.processes).next ≤ 1000000000 → IsStep table m (proc_mux_of m) }
{}
