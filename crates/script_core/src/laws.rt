//! Laws of tables of ports, of builds and of cold runs. Each is the contract of a function that does nothing.

ghost use Rattle.std.specs.Prelude.{◌≡◌, ℕ, List, [], Some, false, slice_get, true};
ghost use Rattle.rtl_ir.specs.declared.module.Design.{Design};
ghost use Rattle.rtl_ir.specs.declared.module.Module.{Module};
ghost use Rattle.rtl_ir.specs.declared.ports.PortTable.{PortTable};
ghost use Rattle.rtl_ir.specs.Faults.{check_faults};
ghost use Rattle.rtl_ir.specs.Flat.Cell.{instances};
ghost use Rattle.rtl_ir.specs.Flat.Tree.{design_ports, table_ports};
ghost use Rattle.rtl_readable.specs.Readable.{IsReadable};
ghost use Rattle.net_model.specs.Gates.{is_gate_netlist};
ghost use Rattle.net_model.specs.Lists.{In};
ghost use Rattle.net_model.specs.Refine.{AgreeOn, ModuleBelow, Refines, RefinesIn};
ghost use Rattle.script_core.specs.declared.outcome.Outcome.{Outcome};
ghost use Rattle.script_core.specs.declared.outcome.Outcome.TheVariants.{Done};
ghost use Rattle.script_core.specs.declared.word.Word.{Word};
ghost use Rattle.script_core.specs.Built.{IsValueOf, unnamed};
ghost use Rattle.script_core.specs.Cold.{IsNetlist, cold, named, outcome_of};
ghost use Rattle.script_core.specs.Reached.{table_of};
ghost use Rattle.script_core.specs.Words.{flattens};
ghost use Rattle.script_core.specs.Fold.{StartsWithProc, MayStart, fold_script};
ghost use Rattle.script_core.specs.Keys.{key_of};
ghost use Rattle.script_core.specs.Mapping.{maps_all};

/// The table of a module has the ports that the design has for each of its instances; so a module of an
/// accepted design may be given to a script over its table, whatever its name is.
pub fn tables_have_the_ports()
    ensures ports { (d : Design) (m : Module) →
        AgreeOn (table_ports (table_of d.modules m)) (design_ports d) (instances m.cells) }
    ensures given { (d : Design) → IsReadable d → check_faults d.modules ≡ [] → (m : Module) → In m d.modules →
        MayStart (table_of d.modules m) (unnamed m) }
{}

/// No pass looks at the name of a module: what a script makes of it under a name is what it makes of it
/// otherwise, under that name.
pub fn folds_keep_names()
    ensures { (script : List Word) (table : PortTable) (below : List Module) (m : Module) (id : List ℕ) →
        fold_script script table below (record m { id = id }) ≡ named id (fold_script script table below m) }
{}

/// The value of the key of a module is the module's outcome in the cold run, once it has its own name.
pub fn values_are_outcomes()
    ensures { (d : Design) (at : ℕ) (m : Module) (script : List Word) (outcome : Outcome) →
        IsReadable d → slice_get d.modules at ≡ Some m → IsValueOf (key_of d.modules at script) outcome →
        named m.id outcome ≡ outcome_of script d.modules m }
{}

/// Where the value of the key of a module of an accepted design is a module, this refines it, under every
/// name that both have, over the ports of the modules that it instantiates. Where the script flattens, no known output
/// bit of the module in its design is lost in whatever design the value stands, under the module's own name.
pub fn build_refines()
    ensures ports { (d : Design) (at : ℕ) (before after : Module) (script : List Word) →
        IsReadable d → check_faults d.modules ≡ [] → slice_get d.modules at ≡ Some before → StartsWithProc script →
        flattens script ≡ false → IsValueOf (key_of d.modules at script) (Done after) → (name : List ℕ) →
        RefinesIn (record before { id = name }) (record after { id = name }) (table_of d.modules before) }
    ensures below { (d netlist : Design) (at : ℕ) (before after : Module) (script : List Word) →
        IsReadable d → check_faults d.modules ≡ [] → slice_get d.modules at ≡ Some before →
        flattens script ≡ true → IsValueOf (key_of d.modules at script) (Done after) →
        In (record after { id = before.id }) netlist.modules →
        ModuleBelow d netlist before (record after { id = before.id }) }
{}

/// Where the cold run of an accepted design is a netlist, this refines the design.
pub fn cold_runs_refine()
    ensures { (d netlist : Design) (script : List Word) →
        IsReadable d → check_faults d.modules ≡ [] → StartsWithProc script →
        IsNetlist (cold script d) netlist → Refines d netlist }
{}

/// Where the cold run of an accepted design is a netlist, and in the script a word `memory` stands before the last
/// `techmap`, and only `opt`, `opt_expr`, `opt_merge` and `opt_clean` behind that, each cell of the netlist is a gate
/// or an instance of one of its modules.
pub fn cold_runs_are_gates()
    ensures { (d netlist : Design) (script : List Word) →
        IsReadable d → check_faults d.modules ≡ [] → StartsWithProc script → maps_all script ≡ true →
        IsNetlist (cold script d) netlist → is_gate_netlist netlist ≡ true }
{}
