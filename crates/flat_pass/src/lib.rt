//! The pass `flatten`: the instances of a module are replaced by the bodies of their modules.
#![tactic(auto)]

mod by_name;
mod child;
mod children;
mod copies;
mod counts;
mod grown;
mod items;
mod laws;
mod namer;
mod names;
mod ports;
mod renames;
mod turns;

ghost use Rattle.std.specs.Prelude.{◌≡◌, Err, IfOk, None, Some};
ghost use Rattle.flat_pass.specs.Flat.{flat_of};
ghost use Rattle.flat_pass.specs.Flattened.{IsFlattened, StandsOn};

use crate::children::Children;
use crate::grown::Grown;
use crate::turns::replace_all;
use net_index::PassFault;
use rtl_ir::Module;
use std::alloc::Global;

/// The module without instances: as long as it has one, the first in the order of cells is replaced by copies of the
/// items of its module, and its pins are connected to the copies of that module's ports. `below` has each module that
/// the module reaches. `Over` comes where the module after a replacement would pass a limit on cells, on bits of wires
/// or on fresh names, or where one after 1,048,576 replacements would be due. In the Yosys manual, the command
/// `flatten`.
pub fn flatten(alloc: Global, module: &Module, below: &[Module]) -> Result<Module, PassFault>
    ensures exact { IfOk result (λ after. flat_of below.now «module».now ≡ Some after) }
    ensures over { result ≡ Err PassFault.Over → flat_of below.now «module».now ≡ None }
    ensures pass { IfOk result (λ after.
        StandsOn «module».now below.now → IsFlattened below.now «module».now after) }
{
    let children = Children::of(alloc, below)?;
    let mut grown = Grown::of(alloc, module)?;
    replace_all(&mut grown, &children)?;
    Ok(grown.finish()?)
}
