//! Laws of edits of accepted designs. Each is the contract of a function that does nothing.

ghost use Rattle.std.specs.Prelude.{◌≡◌, ℕ, List, [], true, false};
ghost use Rattle.rtl_sig.specs.Names.{has_name};
ghost use Rattle.rtl_ir.specs.declared.cell.Cell.{Cell};
ghost use Rattle.rtl_ir.specs.declared.module.Module.{Module};
ghost use Rattle.rtl_ir.specs.Faults.{check_faults, module_faults};
ghost use Rattle.rtl_ir.specs.Scope.{Scope};
ghost use Rattle.rtl_ir.specs.Types.{Ports, design_ports};
ghost use Rattle.net_model.specs.Lists.{In};
ghost use Rattle.net_model.specs.Within.{Each};
ghost use Rattle.design_edit.specs.Modules.{with_modules, without_module};
ghost use Rattle.rtl_check.specs.declared.due.Due.{Due};
ghost use Rattle.rtl_check.specs.Due.{IsEdited, IsNoted, due_faults};

/// A module has the same faults over the same ports: of the ports only those of the types of its cells tell.
pub fn same_ports_give_same_faults()
    ensures { (scope : Scope) (ports others : Ports) (m : Module) →
        ((c : Cell) → In c m.cells → ports c.kind_name ≡ others c.kind_name) →
        module_faults scope ports m ≡ module_faults scope others m }
{}

/// Of a design that comes from an accepted one the faults are those of the modules that were edited or see ports that
/// moved, and then those of recursion.
pub fn edits_check_alike()
    ensures faults { (before after : List Module) (due : Due) → check_faults before ≡ [] → IsEdited before after due →
        check_faults after ≡ due_faults due after }
    ensures edits { (modules edits : List Module) (due : Due) → Each (IsNoted (design_ports modules) due) edits →
        IsEdited modules (with_modules modules edits) due }
    ensures removal { (modules : List Module) (name : List ℕ) (due : Due) → has_name due.moved name ≡ true →
        IsEdited modules (without_module modules name) due }
{}
