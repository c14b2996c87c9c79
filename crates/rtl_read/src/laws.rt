//! Laws of the definitions.

ghost use Rattle.std.specs.Prelude.{◌≡◌, List, ℕ, ◌⊎◌};
ghost use Rattle.rtl_ir.specs.declared.module.Design.{Design};
ghost use Rattle.rtl_read.specs.declared.read_fault.ReadFault.{ReadFault};
ghost use Rattle.rtl_read.specs.Reads.{Reads, IsFirstFault};

/// Each text has one design or one first fault, and not both.
pub fn one_answer()
    ensures some { (text : List ℕ) →
        ((design : Design) × Reads text design) ⊎ ((fault : ReadFault) × IsFirstFault text fault) }
    ensures one_design { (text : List ℕ) (design other : Design) → Reads text design → Reads text other →
        design ≡ other }
    ensures one_fault { (text : List ℕ) (fault other : ReadFault) → IsFirstFault text fault → IsFirstFault text other →
        fault ≡ other }
    ensures not_both { (text : List ℕ) (design : Design) (fault : ReadFault) → Reads text design →
        IsFirstFault text fault → ⊥ }
{}
