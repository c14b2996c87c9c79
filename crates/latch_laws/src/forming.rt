//! The module that the step gives is well formed. Each law is the contract of a function that does nothing.

ghost use Rattle.std.specs.Prelude.{◌≡◌, ◌≤◌};
ghost use Rattle.rtl_ir.specs.Build.{building_of};
ghost use Rattle.rtl_ir.specs.Flat.Cell as flat;
ghost use Rattle.rtl_ir.specs.Flat.Cell.{instances};
ghost use Rattle.rtl_ir.specs.Ports.{ports_of};
ghost use Rattle.rtl_ir.specs.Scope.{with_processes};
ghost use Rattle.rtl_ir.specs.Types.{Ports};
ghost use Rattle.net_model.specs.Proc.Latch.{latches_step, proc_latch_of};
ghost use Rattle.net_model.specs.Refine.{IsWellDriven};
ghost use Rattle.proc_laws.specs.Ready.{AreRuled, HaveNoStarts, IsReady};
ghost use Rattle.proc_laws.specs.Kinds.{HaveNoAlways, HaveNoTwoEdges, HaveNoWrites};

use rtl_ir::Module;

/// The module with latches and connections in the place of rules that always act has the same name, ports
/// and instances. Where no process has two rules at edges, and the fresh names are numbers of up to nine
/// digits, no bit gets a second driver, in whatever design it stands, and it may be given on.
pub fn latches_fit()
    ensures same_id { (ports : Ports) (m : Module) → IsReady with_processes ports m →
        m.id ≡ (proc_latch_of m).id }
    ensures same_ports { (ports : Ports) (m : Module) → IsReady with_processes ports m →
        ports_of m.wires ≡ ports_of (proc_latch_of m).wires }
    ensures same_instances { (ports : Ports) (m : Module) → IsReady with_processes ports m →
        instances m.cells ≡ instances (proc_latch_of m).cells }
    ensures driven { (ports : Ports) (over : flat.Ports) (m : Module) → IsReady with_processes ports m →
        (latches_step m.processes (building_of m)).next ≤ 1000000000 → HaveNoTwoEdges m →
        IsWellDriven over m → IsWellDriven over (proc_latch_of m) }
    ensures ready { (ports : Ports) (m : Module) → IsReady with_processes ports m →
        (latches_step m.processes (building_of m)).next ≤ 1000000000 → HaveNoTwoEdges m →
        IsReady with_processes ports (proc_latch_of m) }
{}

/// In the processes that are left no rule always acts, and what was known of the other rules is known of them.
pub fn latches_leave_rules()
    ensures no_always { (m : Module) → HaveNoAlways (proc_latch_of m) }
    ensures ruled { (m : Module) → AreRuled m → AreRuled (proc_latch_of m) }
    ensures no_starts { (m : Module) → HaveNoStarts m → HaveNoStarts (proc_latch_of m) }
    ensures no_two_edges { (m : Module) → HaveNoTwoEdges m → HaveNoTwoEdges (proc_latch_of m) }
    ensures no_writes { (m : Module) → HaveNoWrites m → HaveNoWrites (proc_latch_of m) }
{}
