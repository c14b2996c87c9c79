//! Laws of passes. Each is the contract of a function that does nothing.

ghost use Rattle.std.specs.Prelude.{◌≡◌, List, ◌∷◌, ◌++◌, map};
ghost use Rattle.rtl_ir.specs.Types.{table_ports};
ghost use Rattle.net_model.specs.Lists.{Distinct};
ghost use Rattle.net_model.specs.Within.{AreInner, with_wires};
ghost use Rattle.pass_laws.specs.Pass.{IsPass};
ghost use Rattle.pass_laws.specs.Ready.{IsReady};
ghost use Rattle.pass_laws.specs.Replaces.{Replaces, replacing};

use rtl_ir::{Cell, Link, Module, PortTable, Wire};

/// A pass that changes nothing is one, and so are two in turn.
pub fn passes_in_turn()
    ensures none { (table : PortTable) (m : Module) → IsPass table m m }
    ensures both { (table : PortTable) (a b c : Module) → IsPass table a b → IsPass table b c →
        IsPass table a c }
{}

/// Cells may come in the place of one cell that is none of a memory, and connections behind all
/// others, where they drive the bits that the cell drives, have no faults, and each solution of the new
/// rows meets those of the cell.
pub fn cells_may_be_replaced()
    ensures pass { (table : PortTable) (m : Module) (pre : List Cell) (c : Cell) (post here : List Cell)
        (more : List Link) → IsReady (table_ports table.modules) m → m.cells ≡ pre ++ c ∷ post →
        Replaces table m pre c post here more → IsPass table m (replacing pre here post more m) }
{}

/// Fresh wires behind the others, which are no ports and have new names, are a pass.
pub fn fresh_wires_may_be_added()
    ensures pass { (table : PortTable) (m : Module) (fresh : List Wire) → AreInner fresh →
        Distinct (map (λ (w : Wire). w.name) (m.wires ++ fresh)) → IsReady (table_ports table.modules) m →
        IsPass table m (with_wires fresh m) }
{}
