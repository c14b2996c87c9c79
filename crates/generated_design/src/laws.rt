//! Laws of generated designs. Each is the contract of a function that does nothing.

ghost use Rattle.std.specs.Prelude.{◌≡◌, ◌≤◌, ◌%◌, List, ℕ, []};
ghost use Rattle.rtl_ir.specs.Faults.{check_faults};
ghost use Rattle.rtl_readable.specs.Readable.{IsReadable};
ghost use Rattle.generated_design.specs.Generate.{generated, generated_module};

/// A generated design has no fault, and with at most as many modules as a text may have it is one that a text can give.
pub fn generated_designs_are_accepted()
    ensures faultless { (count : ℕ) → check_faults (generated count).modules ≡ [] }
    ensures readable { (count : ℕ) → count ≤ 4096 → IsReadable (generated count) }
{}

/// Modules whose numbers differ by a multiple of 8 are equal but for their names.
pub fn generated_bodies_repeat()
    ensures equal { (one other : ℕ) → one % 8 ≡ other % 8 → (id : List ℕ) →
        record (generated_module one) { id = id } ≡ record (generated_module other) { id = id } }
{}
