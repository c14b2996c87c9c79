//! Laws of modules that a text can give. Each is the contract of a function that does nothing.

ghost use Rattle.std.specs.Prelude.{List};
ghost use Rattle.rtl_readable.specs.Readable.{IsReadableModule};
ghost use Rattle.rtl_readable.specs.Changing.{MayStand, recelled};

use rtl_ir::{Cell, Link, Module};

/// A module that a text can give stays one where its cells and connections become others of the kind, under no further
/// names.
pub fn readable_modules_may_change()
    ensures readable { (m : Module) (cells : List Cell) (links : List Link) → IsReadableModule m →
        MayStand m cells links → IsReadableModule (recelled cells links m) }
{}
