//! Laws of following. Each is the contract of a function that does nothing.

ghost use Rattle.std.specs.Prelude.{◌≡◌, List, ◌∷◌, ◌++◌};
ghost use Rattle.rtl_sig.specs.declared.sig.SigBit.{SigBit};
ghost use Rattle.rtl_ir.specs.Flat.Link.{link_rows};
ghost use Rattle.rtl_ir.specs.Flat.Place.{Path, Place};
ghost use Rattle.rtl_ir.specs.Flat.Point.{point};
ghost use Rattle.rtl_ir.specs.Follow.{follow};
ghost use Rattle.rtl_ir.specs.Types.{table_ports};
ghost use Rattle.net_model.specs.Refine.{Solved, SolvedBefore};
ghost use Rattle.net_model.specs.Run.{Time};
ghost use Rattle.net_model.specs.Swap.{with_cells};
ghost use Rattle.net_model.specs.Valuation.{Valuation};
ghost use Rattle.follow_laws.specs.Alike.{ReadAlike};
ghost use Rattle.follow_laws.specs.Inputs.{MayFollow, followed, followed_cell};
ghost use Rattle.pass_laws.specs.Pass.{IsPass};
ghost use Rattle.pass_laws.specs.Ready.{IsReady};

use rtl_ir::{Cell, Link, Module, PortTable, Wire};

/// Where the rows of connections are solved, and in the step before were, a bit and what it follows to
/// are read alike.
pub fn followed_bits_are_alike()
    ensures alike { (p : Path) (wires : List Wire) (links : List Link) (t : Time Place) (w : Valuation) →
        Solved (link_rows p wires links) t w → SolvedBefore (link_rows p wires links) t →
        (s : SigBit) → ReadAlike t w (point p wires s) (point p wires (follow links s)) }
{}

/// The inputs of one cell of a module may be followed, or those of all its cells, or of any of them.
pub fn inputs_may_be_followed()
    ensures one { (table : PortTable) (m : Module) → IsReady (table_ports table.modules) m →
        (before : List Cell) (c : Cell) (behind : List Cell) → m.cells ≡ before ++ c ∷ behind →
        IsPass table m (with_cells (before ++ followed_cell (table_ports table.modules) m.links c ∷ behind) m) }
    ensures all { (table : PortTable) (m : Module) → IsReady (table_ports table.modules) m →
        IsPass table m (followed (table_ports table.modules) m) }
    ensures some { (table : PortTable) (m : Module) → IsReady (table_ports table.modules) m →
        (cells : List Cell) → MayFollow (table_ports table.modules) m.links m.cells cells →
        IsPass table m (with_cells cells m) }
{}
