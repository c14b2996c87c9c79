//! Laws of the maps over modules that a text can give. Each is the contract of a function that does nothing.

ghost use Rattle.std.specs.Prelude.{◌≤◌, length};
ghost use Rattle.readable_laws.specs.Extends.{HasReadableItems};
ghost use Rattle.tech_map.specs.Techmap.{beside, techmap_of};

use rtl_ir::Module;

/// The items of a module are such as a text can give after `techmap`, where they were, and the fresh names that are
/// taken have at most nine digits; the gates alone are no more cells than with the cells that they replace beside them.
pub fn gates_are_readable()
    ensures mapped { (m : Module) → HasReadableItems m → (beside m).next ≤ 1000000000 →
        HasReadableItems (techmap_of m) }
    ensures fewer { (m : Module) → HasReadableItems m →
        length (techmap_of m).cells ≤ length (beside m).body.cells }
{}
