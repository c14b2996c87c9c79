//! Laws of cones. Each is the contract of a function that does nothing.

ghost use Rattle.std.specs.Prelude.{◌≡◌, List, [], ◌∷◌, ◌++◌, length};
ghost use Rattle.rtl_bits.specs.Knowledge.{Below};
ghost use Rattle.rtl_sig.specs.declared.sig.SigBit.{SigBit};
ghost use Rattle.rtl_ir.specs.Types.{table_ports};
ghost use Rattle.net_model.specs.Swap.{with_cells};
ghost use Rattle.pass_laws.specs.Pass.{IsPass};
ghost use Rattle.pass_laws.specs.Ready.{IsReady};
ghost use Rattle.pass_laws.specs.Replaces.{replacing};
ghost use Rattle.gate_cones.specs.Adds.{AddsGates, with_gates};
ghost use Rattle.gate_cones.specs.Below.{IsBelow};
ghost use Rattle.gate_cones.specs.Cone.{cone_value};
ghost use Rattle.gate_cones.specs.Exchange.{Connects, Exchanges};
ghost use Rattle.gate_cones.specs.Netlist.{Leaves, output_to};
ghost use Rattle.gate_cones.specs.Row.{RowBelow, seen_row};

use crate::cone::Cone;
use crate::row::Row;
use rtl_ir::{Cell, Link, Module, PortTable, Wire};

/// A cone says no less where its leaves say no less.
#[tactic(auto, using(crate::proofs::Keeping::value_below))]
pub fn cones_are_monotone()
    ensures below { (cone : Cone) (low high : Row) → RowBelow low high →
        Below (cone_value cone low) (cone_value cone high) }
{}

/// A cone that says no less than another one in each row of 0, 1 and x says no less for any bits at the
/// leaves, also where its own leaves say more.
#[tactic(auto, using(crate::proofs::Keeping::below_anywhere))]
pub fn cones_below_stay_below()
    ensures below { (first second : Cone) → IsBelow first second → (low high : Row) → RowBelow low high →
        Below (cone_value first low) (cone_value second high) }
{}

/// A cone says of z at its leaves just what it says of x.
#[tactic(auto, using(crate::proofs::Keeping::seen_less, crate::proofs::Keeping::seen_more))]
pub fn leaves_are_seen()
    ensures less { (cone : Cone) (row : Row) → Below (cone_value cone (seen_row row)) (cone_value cone row) }
    ensures more { (cone : Cone) (row : Row) → Below (cone_value cone row) (cone_value cone (seen_row row)) }
{}

/// The order of cones is one: each is below itself, and what is below in two steps is below.
#[tactic(auto, using(crate::proofs::Keeping::IsBelow_refl, crate::proofs::Keeping::IsBelow_trans))]
pub fn cones_below_are_a_preorder()
    ensures same { (cone : Cone) → IsBelow cone cone }
    ensures through { (a b c : Cone) → IsBelow a b → IsBelow b c → IsBelow a c }
{}

/// Fresh wires behind the others, and gates that drive them, are a pass.
pub fn gates_may_be_added()
    ensures pass { (table : PortTable) (m : Module) (fresh : List Wire) (new : List Cell) →
        IsReady (table_ports table.modules) m → AddsGates (table_ports table.modules) m fresh new →
        IsPass table m (with_gates fresh new m) }
{}

/// The gate at the root of a cone may give way to another cone that says no less: to the gate at its root, over
/// other cells of the module or over gates that come with fresh wires, or to a bit at which it is given. Loops
/// are allowed, also through the root. The gates of the first cone stay, for whatever else reads them.
pub fn cones_may_be_exchanged()
    ensures gate { (table : PortTable) (m : Module) (pre : List Cell) (c : Cell) (post : List Cell) (leaves : Leaves)
        (first second : Cone) (d : Cell) → IsReady (table_ports table.modules) m → m.cells ≡ pre ++ c ∷ post →
        Exchanges (table_ports table.modules) (length m.wires) (pre ++ post) (pre ++ post) c d leaves first second →
        IsPass table m (with_cells (pre ++ d ∷ post) m) }
    ensures fresh { (table : PortTable) (m : Module) (pre : List Cell) (c : Cell) (post : List Cell) (fresh : List Wire)
        (new : List Cell) (leaves : Leaves) (first second : Cone) (d : Cell) → IsReady (table_ports table.modules) m →
        m.cells ≡ pre ++ c ∷ post → AddsGates (table_ports table.modules) m fresh new →
        Exchanges (table_ports table.modules) (length (m.wires ++ fresh)) (pre ++ post) (pre ++ (post ++ new)) c d
        leaves first second → IsPass table m (with_cells (pre ++ d ∷ (post ++ new)) (with_gates fresh new m)) }
    ensures bit { (table : PortTable) (m : Module) (pre : List Cell) (c : Cell) (post : List Cell) (leaves : Leaves)
        (first second : Cone) (y : SigBit) → IsReady (table_ports table.modules) m → m.cells ≡ pre ++ c ∷ post →
        Connects (length m.wires) (pre ++ post) c leaves first second y →
        IsPass table m (replacing pre [] post (output_to c y ∷ []) m) }
{}
