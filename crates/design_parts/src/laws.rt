//! Laws of the parts of a design. Each is the contract of a function that does nothing.

ghost use Rattle.std.specs.Prelude.{◌≡◌, ℕ, Bool, List, [], Some, map, slice_get, true};
ghost use Rattle.rtl_ir.specs.declared.module.Design.{Design};
ghost use Rattle.rtl_ir.specs.declared.module.Module.{Module};
ghost use Rattle.rtl_ir.specs.Faults.{check_faults};
ghost use Rattle.rtl_ir.specs.Faults.Recursion.{recursion_faults};
ghost use Rattle.net_model.specs.Lists.{Distinct, In};
ghost use Rattle.script_core.specs.declared.word.Word.{Word};
ghost use Rattle.script_core.specs.Cold.{cold, outcome_of};
ghost use Rattle.script_core.specs.Keys.{key_of};
ghost use Rattle.design_parts.specs.Parts.{gathered, owned, part};

/// A module of a design stands in each part that has it as its own, what a script makes of it in the cold
/// run of the part is what it makes of it in that of the design, and its key is the same. Where the
/// script flattens, too.
pub fn parts_give_the_outcomes()
    ensures stands { (script : List Word) (d : Design) (own : List ℕ → Bool) (m : Module) →
        In m d.modules → own m.id ≡ true → In m (part script own d.modules) }
    ensures outcome { (script : List Word) (d : Design) (own : List ℕ → Bool) (m : Module) →
        In m d.modules → own m.id ≡ true →
        outcome_of script (part script own d.modules) m ≡ outcome_of script d.modules m }
    ensures key { (script : List Word) (d : Design) (own : List ℕ → Bool) (m : Module) (at there : ℕ) →
        slice_get d.modules at ≡ Some m → own m.id ≡ true → slice_get (part script own d.modules) there ≡ Some m →
        key_of (part script own d.modules) there script ≡ key_of d.modules at script }
{}

/// A part has its own modules in the order of the design, with their outcomes; and where each module has
/// a part as whose own it stands, the outcomes of all modules in their parts, in the order of the
/// design, are the cold run of the design.
pub fn parts_make_the_netlist()
    ensures own { (script : List Word) (d : Design) (own : List ℕ → Bool) →
        map (outcome_of script (part script own d.modules)) (owned own (part script own d.modules))
        ≡ map (outcome_of script d.modules) (owned own d.modules) }
    ensures whole { (script : List Word) (d : Design) (part_of : List ℕ → List ℕ → Bool) →
        ((m : Module) → In m d.modules → part_of m.id m.id ≡ true) → gathered script part_of d ≡ cold script d }
{}

/// Where no name stands twice, each part of an accepted design is accepted. And where no module reaches
/// itself, a design is accepted if each module has a part as whose own it stands and that is accepted.
pub fn parts_are_accepted()
    ensures parts { (script : List Word) (d : Design) (own : List ℕ → Bool) →
        Distinct (map (λ (m : Module). m.id) d.modules) → check_faults d.modules ≡ [] →
        check_faults (part script own d.modules) ≡ [] }
    ensures whole { (script : List Word) (d : Design) (part_of : List ℕ → List ℕ → Bool) →
        recursion_faults d.modules ≡ [] →
        ((m : Module) → In m d.modules → part_of m.id m.id ≡ true) →
        ((m : Module) → In m d.modules → check_faults (part script (part_of m.id) d.modules) ≡ []) →
        check_faults d.modules ≡ [] }
{}
