//! Laws of `flatten` over modules that a text can give. Each is the contract of a function that does nothing.

ghost use Rattle.std.specs.Prelude.{◌≡◌, List, Some};
ghost use Rattle.net_index.specs.Builder.{IsInLimits, building_from};
ghost use Rattle.net_model.specs.Within.{Each};
ghost use Rattle.readable_laws.specs.Extends.{HasReadableItems};
ghost use Rattle.flat_pass.specs.Flat.{flat_of};

use rtl_ir::Module;

/// The items of a module are such as a text can give after `flatten`, where they were, and those of the modules below
/// it were. It is within the limits on cells and bits, where it was, and its processes stay.
pub fn flattened_modules_are_readable()
    ensures items { (below : List Module) (m n : Module) → HasReadableItems m → Each HasReadableItems below →
        flat_of below m ≡ Some n → HasReadableItems n }
    ensures limits { (below : List Module) (m n : Module) → IsInLimits (building_from 0 m) →
        flat_of below m ≡ Some n → IsInLimits (building_from 0 n) }
    ensures processes { (below : List Module) (m n : Module) → flat_of below m ≡ Some n →
        n.processes ≡ m.processes }
{}
