//! A module in which memories became words keeps its name, ports and instances, and no bit gets a second
//! driver. Each law is the contract of a function that does nothing.

ghost use Rattle.std.specs.Prelude.{◌≡◌, ◌≤◌, ◌⊎◌, ℕ, [], Some, false, length, slice_get};
ghost use Rattle.rtl_ir.specs.Build.{building_of};
ghost use Rattle.rtl_ir.specs.Flat.Cell as flat;
ghost use Rattle.rtl_ir.specs.Flat.Cell.{cell_kind, instances};
ghost use Rattle.rtl_ir.specs.Ports.{ports_of};
ghost use Rattle.rtl_ir.specs.Types.{Ports};
ghost use Rattle.memory_laws.specs.Named.{AreShort};
ghost use Rattle.pass_laws.specs.OwnNames.{HaveOwnNames};
ghost use Rattle.net_model.specs.Mem.Expand.{expanded_memory, is_memory_kind, memory_of, memory_step};
ghost use Rattle.net_model.specs.Mem.Gather.{gathered};
ghost use Rattle.net_model.specs.Lists.{In};
ghost use Rattle.net_model.specs.Refine.{IsWellDriven};
ghost use Rattle.net_model.specs.Within.{Each};
ghost use Rattle.pass_laws.specs.Ready.{IsReady};
ghost use Rattle.pass_laws.specs.Replaces.{IsEven, IsFaultless};

use rtl_ir::{Cell, Link, Module, Store};

/// Where a module may be given to a pass and no two of its memories have one name, and its fresh names are
/// numbers of up to nine digits, the module in which a memory became words has the same name, ports and
/// instances, no bit gets a second driver, in whatever design it stands, and it may be given to the next pass,
/// and to this one again. Its cells and connections are the module's own, or have no fault wherever they stand.
pub fn words_fit()
    ensures same_id { (ports : Ports) (m : Module) (s : Store) (at : ℕ) →
        IsReady ports m → HaveOwnNames m → slice_get m.memories at ≡ Some s →
        (memory_step (gathered m at s) s (building_of m)).next ≤ 1000000000 →
        m.id ≡ (expanded_memory m (gathered m at s) s).id }
    ensures same_ports { (ports : Ports) (m : Module) (s : Store) (at : ℕ) →
        IsReady ports m → HaveOwnNames m → slice_get m.memories at ≡ Some s →
        (memory_step (gathered m at s) s (building_of m)).next ≤ 1000000000 →
        ports_of m.wires ≡ ports_of (expanded_memory m (gathered m at s) s).wires }
    ensures same_instances { (ports : Ports) (m : Module) (s : Store) (at : ℕ) →
        IsReady ports m → HaveOwnNames m → slice_get m.memories at ≡ Some s →
        (memory_step (gathered m at s) s (building_of m)).next ≤ 1000000000 →
        instances m.cells ≡ instances (expanded_memory m (gathered m at s) s).cells }
    ensures driven { (ports : Ports) (over : flat.Ports) (m : Module) (s : Store) (at : ℕ) →
        IsReady ports m → HaveOwnNames m → slice_get m.memories at ≡ Some s →
        (memory_step (gathered m at s) s (building_of m)).next ≤ 1000000000 →
        IsWellDriven over m → IsWellDriven over (expanded_memory m (gathered m at s) s) }
    ensures ready { (ports : Ports) (m : Module) (s : Store) (at : ℕ) →
        IsReady ports m → HaveOwnNames m → slice_get m.memories at ≡ Some s →
        (memory_step (gathered m at s) s (building_of m)).next ≤ 1000000000 →
        IsReady ports (expanded_memory m (gathered m at s) s) }
    ensures named { (ports : Ports) (m : Module) (s : Store) (at : ℕ) →
        IsReady ports m → HaveOwnNames m → slice_get m.memories at ≡ Some s →
        (memory_step (gathered m at s) s (building_of m)).next ≤ 1000000000 →
        HaveOwnNames (expanded_memory m (gathered m at s) s) }
    ensures faultless { (ports : Ports) (m : Module) (s : Store) (at : ℕ) →
        IsReady ports m → HaveOwnNames m → slice_get m.memories at ≡ Some s →
        (c : Cell) → In c (expanded_memory m (gathered m at s) s).cells → In c m.cells ⊎ IsFaultless ports c }
    ensures even { (ports : Ports) (m : Module) (s : Store) (at : ℕ) →
        IsReady ports m → HaveOwnNames m → slice_get m.memories at ≡ Some s →
        (l : Link) → In l (expanded_memory m (gathered m at s) s).links → In l m.links ⊎ IsEven l }
{}

/// A module stays in form where all its memories become words, one after another. No memory is left, and no cell of
/// one.
pub fn memories_fit()
    ensures same_id { (ports : Ports) (m : Module) →
        IsReady ports m → HaveOwnNames m → AreShort (length m.memories) m →
        m.id ≡ (memory_of m).id }
    ensures same_ports { (ports : Ports) (m : Module) →
        IsReady ports m → HaveOwnNames m → AreShort (length m.memories) m →
        ports_of m.wires ≡ ports_of (memory_of m).wires }
    ensures same_instances { (ports : Ports) (m : Module) →
        IsReady ports m → HaveOwnNames m → AreShort (length m.memories) m →
        instances m.cells ≡ instances (memory_of m).cells }
    ensures driven { (ports : Ports) (over : flat.Ports) (m : Module) →
        IsReady ports m → HaveOwnNames m → AreShort (length m.memories) m →
        IsWellDriven over m → IsWellDriven over (memory_of m) }
    ensures ready { (ports : Ports) (m : Module) →
        IsReady ports m → HaveOwnNames m → AreShort (length m.memories) m →
        IsReady ports (memory_of m) }
    ensures gone { (ports : Ports) (m : Module) →
        IsReady ports m → HaveOwnNames m → AreShort (length m.memories) m →
        (memory_of m).memories ≡ [] }
    ensures process_free { (ports : Ports) (m : Module) →
        IsReady ports m → HaveOwnNames m → AreShort (length m.memories) m →
        (memory_of m).processes ≡ [] }
    ensures cells_gone { (ports : Ports) (m : Module) →
        IsReady ports m → HaveOwnNames m → AreShort (length m.memories) m →
        Each (λ (c : Cell). is_memory_kind (cell_kind c) ≡ false) (memory_of m).cells }
{}
