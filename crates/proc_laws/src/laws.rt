//! Laws of the steps of `proc`. Each is the contract of a function that does nothing.

ghost use Rattle.std.specs.Prelude.{◌≡◌, List, [], ◌++◌};
ghost use Rattle.rtl_ir.specs.Flat.Cell as flat;
ghost use Rattle.rtl_ir.specs.Flat.Cell.{instances};
ghost use Rattle.rtl_ir.specs.Faults.{module_faults};
ghost use Rattle.rtl_ir.specs.Ports.{ports_of};
ghost use Rattle.rtl_ir.specs.Scope.{everything, with_processes, without_processes};
ghost use Rattle.rtl_ir.specs.Types.{Ports};
ghost use Rattle.net_model.specs.Refine.{IsWellDriven};
ghost use Rattle.net_model.specs.Within.{IsWithin};
ghost use Rattle.proc_laws.specs.Ready.{IsReady};
ghost use Rattle.build_laws.specs.Rebuilds.{Rebuilds, rebuilt};
ghost use Rattle.proc_laws.specs.Step.{IsStep};

use rtl_ir::{Cell, Link, Module, PortTable, Process, Wire};

/// A step that changes nothing is one, and so are two in turn.
pub fn steps_in_turn()
    ensures none { (table : PortTable) (m : Module) → IsStep table m m }
    ensures both { (table : PortTable) (a b c : Module) → IsStep table a b → IsStep table b c →
        IsStep table a c }
{}

/// Fresh wires, cells and connections may go last, and the processes may become others, where the new
/// items have no faults and drive no more than bits of fresh wires and what processes drove: the module
/// may still be given to a step, or to a pass where no process is left, it has the same ports and
/// instances, and no bit gets a second driver.
pub fn steps_may_build()
    ensures ready { (ports : Ports) (m : Module) (fresh : List Wire) (new : List Cell) (more : List Link)
        (changed : List Process) → IsReady with_processes ports m → Rebuilds ports m fresh new more changed →
        IsReady with_processes ports (rebuilt fresh new more changed m) }
    ensures last { (ports : Ports) (m : Module) (fresh : List Wire) (new : List Cell) (more : List Link) →
        IsReady with_processes ports m → Rebuilds ports m fresh new more [] →
        IsReady without_processes ports (rebuilt fresh new more [] m) }
    ensures driven { (ports : Ports) (over : flat.Ports) (m : Module) (fresh : List Wire) (new : List Cell)
        (more : List Link) (changed : List Process) → IsWithin m → Rebuilds ports m fresh new more changed →
        IsWellDriven over m → IsWellDriven over (rebuilt fresh new more changed m) }
    ensures same_ports { (ports : Ports) (m : Module) (fresh : List Wire) (new : List Cell) (more : List Link)
        (changed : List Process) → Rebuilds ports m fresh new more changed →
        ports_of m.wires ≡ ports_of (m.wires ++ fresh) }
    ensures same_instances { (ports : Ports) (m : Module) (fresh : List Wire) (new : List Cell)
        (more : List Link) (changed : List Process) → Rebuilds ports m fresh new more changed →
        instances m.cells ≡ instances (m.cells ++ new) }
{}

/// What the check accepts has no fault where the clocks of write ports are not compared, and so it may be given
/// to a step.
pub fn accepted_modules_are_faultless()
    ensures faultless { (ports : Ports) (m : Module) → module_faults everything ports m ≡ [] →
        module_faults with_processes ports m ≡ [] }
{}

/// What has no process may be given to a pass.
pub fn modules_without_processes_may_be_given()
    ensures ready { (ports : Ports) (m : Module) → m.processes ≡ [] → IsReady with_processes ports m →
        IsReady without_processes ports m }
{}
