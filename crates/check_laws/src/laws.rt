//! An accepted design has one driver a bit.

ghost use Rattle.std.specs.Prelude.{◌≡◌, ℕ, List, []};
ghost use Rattle.rtl_ir.specs.declared.module.Design.{Design};
ghost use Rattle.rtl_ir.specs.Faults.{check_faults, faults_within};
ghost use Rattle.rtl_ir.specs.Scope.{Scope};
ghost use Rattle.rtl_read.specs.Reads.{Reads};
ghost use Rattle.rtl_readable.specs.Readable.{IsReadable};
ghost use Rattle.net_model.specs.Refine.{AreWellDriven, HasOneDriver};
ghost use Rattle.check_laws.specs.Sound.{IsSound};

/// In a sound design without faults no bit of a module has two drivers, whatever part of designs is
/// taken: cells and instances alone, or processes and memories too.
pub fn accepted_designs_are_well_driven()
    ensures within { (scope : Scope) (d : Design) → IsSound d → faults_within scope d.modules ≡ [] → AreWellDriven d }
    ensures all { (d : Design) → IsSound d → check_faults d.modules ≡ [] → AreWellDriven d }
{}

/// What a text can give is sound.
pub fn readable_designs_are_sound()
    ensures sound { (d : Design) → IsReadable d → IsSound d }
{}

/// So in a design that is read of a text and accepted, no bit of the flat netlist of a module has two
/// drivers, at any depth of instances.
pub fn accepted_texts_have_one_driver()
    ensures one_driver { (text : List ℕ) (d : Design) (scope : Scope) → Reads text d →
        faults_within scope d.modules ≡ [] → HasOneDriver d }
{}
