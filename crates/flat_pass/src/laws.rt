//! Laws of refinement. Each is the contract of a function that does nothing.

ghost use Rattle.std.specs.Prelude.{◌≡◌, true, List, Some};
ghost use Rattle.rtl_ir.specs.Build.{building_of};
ghost use Rattle.net_model.specs.Below.{RefinesBelow};
ghost use Rattle.flat_pass.specs.Flat.{after_one, first_instance, flat_of, is_within};
ghost use Rattle.flat_pass.specs.Flattened.{IsFlattened, StandsOn};

use rtl_ir::{Cell, Module};

/// No known output bit is lost where the first instance of a module is replaced by copies of the items of its own
/// module.
pub fn one_replacement_refines()
    ensures refines { (below : List Module) (m : Module) (r : Cell × List Cell) → StandsOn m below →
        first_instance m.cells ≡ Some r → is_within (after_one below (building_of m) r) ≡ true →
        RefinesBelow m (after_one below (building_of m) r).body below }
{}

/// No known output bit is lost where all instances are replaced, one after another; and the module after that has the
/// name and the ports of the module before it, no instance, and no bit with two drivers where none had two.
pub fn flattening_refines()
    ensures pass { (below : List Module) (m after : Module) → StandsOn m below → flat_of below m ≡ Some after →
        IsFlattened below m after }
{}
