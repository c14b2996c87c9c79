//! Laws of settling, of runs and of refinement. Each is the contract of a function that does nothing.

ghost use Rattle.std.specs.Prelude.{◌≡◌, List, map};
ghost use Rattle.rtl_bits.specs.Knowledge.{Below, FlatBelow};
ghost use Rattle.rtl_ir.specs.Ports.{ports_of};
ghost use Rattle.rtl_ir.specs.Flat.Cell.{Ports, instances};
ghost use Rattle.rtl_ir.specs.Flat.Driver.{Driver, Driven};
ghost use Rattle.rtl_ir.specs.Flat.Place.{Place, place_same};
ghost use Rattle.rtl_ir.specs.Flat.Tree.{design_ports, driven_rows, flat, table_ports};
ghost use Rattle.net_model.specs.Lists.{In, Distinct};
ghost use Rattle.net_model.specs.Settle.{Pointwise, applied};
ghost use Rattle.net_model.specs.Run.{Time, TimeBelow, rows_at, settle};
ghost use Rattle.net_model.specs.Valuation.{Valuation};
ghost use Rattle.net_model.specs.Value.{value_of, meanings};
ghost use Rattle.net_model.specs.Refine.{Refines, RefinesIn, RowsRefine, EachRefines, IsWellDriven, AreWellDriven};
ghost use Rattle.net_model.specs.Refine.{HasOneDriver};
ghost use Rattle.net_model.specs.Within.{IsWithin, AreInner, with_wires};

use rtl_ir::{Design, Module, PortTable, Wire};

/// Every driver keeps both orders of knowledge, in the step before and now together.
pub fn drivers_are_monotone()
    ensures below { (d : Driver) (t u : Time Place) → TimeBelow Below t u → (v w : Valuation) →
        Pointwise Below v w → Below (value_of d t v) (value_of d u w) }
    ensures flat { (d : Driver) (t u : Time Place) → TimeBelow FlatBelow t u → (v w : Valuation) →
        Pointwise FlatBelow v w → FlatBelow (value_of d t v) (value_of d u w) }
{}

/// After as many rounds as there are bits a further round changes nothing, z included.
pub fn settling_is_stable()
    ensures stable { (rows : List Driven) (t : Time Place) (q : Place) →
        applied place_same (rows_at t (meanings rows)) (settle place_same (meanings rows) t) q
        ≡ settle place_same (meanings rows) t q }
{}

/// What a module settles to is a solution: where no bit has two drivers, each has exactly what its
/// driver gives.
pub fn settling_is_a_solution()
    ensures solution { (d : Design) → HasOneDriver d → (m : Module) → In m d.modules →
        (t : Time Place) (row : Driven) → In row (driven_rows d m) →
        value_of row.driver t (settle place_same (meanings (flat d m)) t)
        ≡ settle place_same (meanings (flat d m)) t row.place }
{}

/// And it is the least one: a valuation above what the drivers give from it is above what they
/// settle to, in either order.
pub fn settling_is_least()
    ensures below { (rows : List Driven) (t : Time Place) (w : Valuation) →
        ((row : Driven) → In row rows → Below (value_of row.driver t w) (w row.place)) →
        Pointwise Below (settle place_same (meanings rows) t) w }
    ensures flat { (rows : List Driven) (t : Time Place) (w : Valuation) →
        ((row : Driven) → In row rows → FlatBelow (value_of row.driver t w) (w row.place)) →
        Pointwise FlatBelow (settle place_same (meanings rows) t) w }
{}

/// What an evaluator may do in any order: from x at every bit, applying drivers one by one never leads
/// beyond what is settled, and where no driver gives anything new, it is what is settled, exactly.
pub fn drivers_may_go_in_any_order()
    ensures below { (d : Design) → HasOneDriver d → (m : Module) → In m d.modules →
        (t : Time Place) (v : Valuation) → Pointwise FlatBelow v (settle place_same (meanings (flat d m)) t) →
        (row : Driven) → In row (driven_rows d m) →
        FlatBelow (value_of row.driver t v) (settle place_same (meanings (flat d m)) t row.place) }
    ensures reached { (rows : List Driven) (t : Time Place) (v : Valuation) →
        Pointwise FlatBelow v (settle place_same (meanings rows) t) →
        ((row : Driven) → In row rows → FlatBelow (value_of row.driver t v) (v row.place)) →
        (q : Place) → v q ≡ settle place_same (meanings rows) t q }
{}

/// Refinement is transitive.
pub fn refinement_is_transitive()
    ensures transitive { (d e f : Design) → Refines d e → Refines e f → Refines d f }
{}

/// A design is refined where its modules are, one after another.
pub fn modules_in_turn()
    ensures refines { (bs cs : List Module) → Distinct (map (λ m. m.id) bs) →
        EachRefines (design_ports (record { modules = bs })) bs cs →
        Refines (record { modules = bs }) (record { modules = cs }) }
{}

/// One pass after another, where the first keeps the module's name, its ports, its instances, and that
/// no bit has two drivers.
pub fn passes_in_turn()
    ensures refines { (b c d : Module) (table : PortTable) → b.id ≡ c.id → ports_of b.wires ≡ ports_of c.wires →
        instances b.cells ≡ instances c.cells →
        ((ports : Ports) → IsWellDriven ports b → IsWellDriven ports c) →
        RefinesIn b c table → RefinesIn c d table → RefinesIn b d table }
{}

/// What a pass shows of the rows of one module leads to any two designs that differ in it alone, to
/// any depth of instances and any stimulus.
pub fn rows_are_enough()
    ensures refines { (b c : Module) (table : PortTable) →
        RowsRefine b c (table_ports table) → RefinesIn b c table }
{}

/// Where no bit of any module has two drivers, none has in a module with all its instances.
pub fn modules_are_enough()
    ensures one_driver { (d : Design) → AreWellDriven d → HasOneDriver d }
{}

/// A module with fresh wires behind its own refines the one without, where its signals name its own
/// wires.
pub fn fresh_wires_change_nothing()
    ensures refines { (m : Module) (fresh : List Wire) (table : PortTable) → IsWithin m → AreInner fresh →
        RefinesIn m (with_wires fresh m) table }
{}
