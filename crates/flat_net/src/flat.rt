//! The flat netlist of a module of a design.

ghost use Rattle.std.specs.Prelude.{◌≡◌, ◌<◌, List, [], IfOk, length, slice_get, Some};
ghost use Rattle.rtl_ir.specs.declared.module.Module.{Module};
ghost use Rattle.rtl_ir.specs.Faults.{faults_within};
ghost use Rattle.rtl_ir.specs.Flat.Place.{Place};
ghost use Rattle.rtl_ir.specs.Scope.{everything};
ghost use Rattle.flat_net.specs.Net.{IsNetOf};
ghost use Rattle.flat_net.specs.Titled.{HaveNoProcess, titled_design};

use crate::builder::Builder;
use crate::modules::Table;
use crate::net::Net;
use crate::titled::Titled;
use rtl_bits::Memory;
use rtl_ir::Design;
use std::alloc::Global;

/// The flat netlist of the module at a place, with all its instances. Bits behind the first 2^32 are taken for want of
/// memory.
pub fn flatten(alloc: Global, design: &Design, at: u32) -> Result<Net, Memory>
    requires in_range { at < length design.now.modules }
    requires faultless { faults_within everything design.now.modules ≡ [] }
    ensures value { (m : Module) → slice_get design.now.modules at ≡ Some m →
        IfOk result (λ net. (ps : List Place) × IsNetOf net design.now m ps) }
{
    let modules = design.modules.as_slice();
    let table = Table::of(alloc, modules)?;
    let top = &modules[at as usize];
    let mut builder = Builder::make(alloc);
    let outputs = builder.add_all(alloc, &table, top.id.as_slice(), top, modules.len() - 1)?;
    builder.finish(outputs)
}

/// The flat netlist of the module at a place among modules without processes that are lent, each under its name. Bits
/// behind the first 2^32 are taken for want of memory.
pub fn flatten_titled(alloc: Global, modules: &[Titled], at: u32) -> Result<Net, Memory>
    requires in_range { at < length modules.now }
    requires plain { HaveNoProcess modules.now }
    ensures value { (m : Module) → slice_get (titled_design modules.now).modules at ≡ Some m →
        IfOk result (λ net. (ps : List Place) × IsNetOf net (titled_design modules.now) m ps) }
{
    let table = Table::of_titled(alloc, modules)?;
    let top = &modules[at as usize];
    let mut builder = Builder::make(alloc);
    let outputs = builder.add_all(alloc, &table, top.id, top.body, modules.len() - 1)?;
    builder.finish(outputs)
}
