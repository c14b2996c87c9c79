//! Laws of netlists of gates. Each is the contract of a function that does nothing.

ghost use Rattle.std.specs.Prelude.{◌≡◌, true, []};
ghost use Rattle.rtl_ir.specs.Faults.{faults_within};
ghost use Rattle.rtl_ir.specs.Scope.{Scope};
ghost use Rattle.rtl_ir.specs.Types.{Ports};
ghost use Rattle.rtl_ir.specs.declared.module.Design.{Design};
ghost use Rattle.rtl_ir.specs.declared.module.Module.{Module};
ghost use Rattle.net_model.specs.Gates.{is_gate_netlist};
ghost use Rattle.net_model.specs.Within.{Each};
ghost use Rattle.opt_clean.specs.Clean.{clean_of};
ghost use Rattle.opt_expr.specs.Sweep.{expr_of};
ghost use Rattle.opt_merge.specs.Merge.{merge_of};
ghost use Rattle.opt_rounds.specs.Rounds.{opt_of};
ghost use Rattle.tech_map.specs.Gates.{HasGatesAlone};
ghost use Rattle.gate_laws.specs.Instances.{HaveSameInstances};

/// A module of gates and instances alone stays one: `opt_expr` makes gates of gates, and the other passes make no
/// cells.
pub fn gates_stay_gates()
    ensures expr { (ports : Ports) (m : Module) → HasGatesAlone m → HasGatesAlone (expr_of ports m) }
    ensures merge { (m : Module) → HasGatesAlone m → HasGatesAlone (merge_of m) }
    ensures clean { (ports : Ports) (m : Module) → HasGatesAlone m → HasGatesAlone (clean_of ports m) }
    ensures opt { (ports : Ports) (m : Module) → HasGatesAlone m → HasGatesAlone (opt_of ports m) }
{}

/// Where the modules of a second design have in turn the names and instances of a design without faults, and
/// gates and instances alone, it is a netlist of gates: each instance is one of a module of the design.
pub fn gates_make_a_netlist()
    ensures netlist { (scope : Scope) (d n : Design) → faults_within scope d.modules ≡ [] →
        HaveSameInstances d.modules n.modules →
        Each HasGatesAlone n.modules → is_gate_netlist n ≡ true }
{}
