//! Accepted designs from which a module is taken away.

ghost use Rattle.std.specs.Prelude.{◌≡◌, [], IfErr, IfOk, OnErr, OnOk, map};
ghost use Rattle.rtl_sig.specs.Names.{AreDistinct};
ghost use Rattle.rtl_ir.specs.declared.module.Module.{Module};
ghost use Rattle.rtl_ir.specs.Faults.{check_faults};
ghost use Rattle.design_edit.specs.Modules.{without_module};
ghost use Rattle.rtl_check.specs.Finds.{IsFirst};

use crate::checked::Checked;
use crate::design::check_again;
use crate::due::Due;
use crate::fault::CheckFault;
use design_edit::{put_back, take_module};
use rtl_bits::Seq;
use rtl_ir::{Design, Module};
use std::alloc::Global;

/// An accepted design as it was before a module was to be taken away, and the first fault of the design without it.
#[derive(Drop)]
pub struct RefusedRemoval {
    pub checked: Checked,
    pub fault: CheckFault,
}

impl Checked {
    /// The design without the module of this name. It answers as `check` does, but looks again only at modules that
    /// have instances of the module. Modules that stay are not copied, and a refusal hands the design back as it was.
    pub fn remove(self, alloc: Global, name: &[u8]) -> Result<Checked, RefusedRemoval>
        requires distinct { AreDistinct (map (λ (m : Module). m.id) self.design.modules) }
        ensures value { IfOk result (λ checked. checked.design.modules ≡ without_module self.design.modules name.now) }
        ensures handed_back { IfErr result (λ refused. refused.checked.design ≡ self.design) }
        ensures first { IfErr result (λ refused.
            IsFirst refused.fault (check_faults (without_module self.design.modules name.now))) }
    {
        let mut modules = self.into_design().modules.into_vec();
        let removed = remove_module(alloc, &mut modules, name);
        let checked = Checked::make(Design {
            modules: Seq::from_vec(modules),
        });
        match removed {
            Ok(()) => Ok(checked),
            Err(fault) => Err(RefusedRemoval { checked, fault }),
        }
    }
}

/// Takes the module of this name away, if the modules that are due have no fault then. After an error the modules are
/// as before.
fn remove_module(alloc: Global, modules: &mut Vec<Module>, name: &[u8]) -> Result<(), CheckFault>
    requires distinct { AreDistinct (map (λ (m : Module). m.id) modules.old.items) }
    requires faultless { check_faults modules.old.items ≡ [] }
    ensures value { OnOk result (modules.new.items ≡ without_module modules.old.items name.now) }
    ensures err { OnErr result (modules.new.items ≡ modules.old.items) }
    ensures first { IfErr result (λ fault. IsFirst fault (check_faults (without_module modules.old.items name.now))) }
    ensures faultless { check_faults modules.new.items ≡ [] }
{
    let due = Due::of_removal(alloc, name)?;
    let Some(taken) = take_module(modules, name) else {
        return Ok(());
    };
    match check_again(alloc, modules.as_slice(), &due) {
        Ok(()) => Ok(()),
        Err(fault) => {
            put_back(modules, taken);
            Err(fault)
        }
    }
}
