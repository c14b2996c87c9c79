//! The modules of a design, by their names.

ghost use Rattle.std.specs.Prelude.{◌≡◌};
ghost use Rattle.rtl_ir.specs.Faults.Recursion.{place_named};

use rtl_ir::Module;

/// The place of the module of this name, where one has it.
pub fn place_named(modules: &[Module], name: &[u8]) -> Option<usize>
    ensures value { result ≡ place_named modules.now name.now }
{
    modules
        .iter()
        .position(|module| module.id.as_slice() == name)
}
