//! Laws of modules that a text can give. Each is the contract of a function that does nothing.

ghost use Rattle.std.specs.Prelude.{◌≤◌};
ghost use Rattle.rtl_ir.specs.Build.{Building, building_of};
ghost use Rattle.readable_laws.specs.Extends.{Extends, HasReadableItems};

use rtl_ir::Module;

/// A module whose items a text can give still is one where a step adds items that a text can give, under fresh names of
/// up to nine digits.
pub fn steps_may_add()
    ensures items { (m : Module) (b : Building) → HasReadableItems m → Extends (building_of m) b →
        b.next ≤ 1000000000 → HasReadableItems b.body }
{}
