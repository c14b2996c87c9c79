//! A module that is taken away, and the way back.

ghost use Rattle.std.specs.Prelude.{◌≡◌, ◌<◌, ◌≤◌, IfSome, IfNone, map, vec_len};
ghost use Rattle.std.specs.List.{insert};
ghost use Rattle.std.specs.Vec.{vec_capacity};
ghost use Rattle.rtl_ir.specs.declared.module.Module.{Module};
ghost use Rattle.rtl_sig.specs.Names.{AreDistinct};
ghost use Rattle.design_edit.specs.Modules.{without_module};

use crate::modules::place_named;
use rtl_ir::Module;

/// A module that was taken away from a place.
#[derive(Drop)]
pub struct Taken {
    pub at: usize,
    pub module: Module,
}

/// Takes the module of this name away, where one has it. No module is copied.
pub fn take_module(modules: &mut Vec<Module>, name: &[u8]) -> Option<Taken>
    requires distinct { AreDistinct (map (λ (m : Module). m.id) modules.old.items) }
    ensures value { modules.new.items ≡ without_module modules.old.items name.now }
    ensures back { IfSome result (λ taken. insert modules.new.items taken.at taken.«module» ≡ modules.old.items) }
    ensures within { IfSome result (λ taken. taken.at ≤ vec_len modules.new) }
    ensures room { IfSome result (λ _. vec_len modules.new < vec_capacity modules.new) }
    ensures none { IfNone result (modules.new.items ≡ modules.old.items) }
{
    let at = place_named(modules.as_slice(), name)?;
    let module = modules.remove(at);
    Some(Taken { at, module })
}

/// Puts a module back. There is room, so that it takes no memory.
pub fn put_back(modules: &mut Vec<Module>, taken: Taken)
    requires within { taken.at ≤ vec_len modules.old }
    requires room { vec_len modules.old < vec_capacity modules.old }
    ensures value { modules.new.items ≡ insert modules.old.items taken.at taken.«module» }
{
    let Taken { at, module } = taken;
    let _inserted = modules.insert(at, module);
}
