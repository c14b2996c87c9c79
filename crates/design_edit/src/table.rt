//! Tables of the places of modules.

ghost use Rattle.std.specs.Prelude.{IfOk};
ghost use Rattle.design_edit.specs.Table.{ArePlaces};

use rtl_bits::Memory;
use rtl_ir::Module;
use std::alloc::Global;
use std::collections::HashMap;

/// The places of modules by their names.
pub type Places<'a> = HashMap<&'a [u8], usize>;

/// The modules by their names. Of two of one name the first counts.
pub fn places_of<'a>(alloc: Global, modules: &'a [Module]) -> Result<Places<'a>, Memory>
    ensures places { IfOk result (λ places. ArePlaces places modules.now) }
{
    let mut places = HashMap::new(alloc);
    for at in (0..modules.len()).rev() {
        let module = &modules[at];
        places.insert(module.id.as_slice(), at)?;
    }
    Ok(places)
}
