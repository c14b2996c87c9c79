//! Accepted designs in which modules take the places of those of their names.

ghost use Rattle.std.specs.Prelude.{◌≡◌, ◌≤◌, [], IfErr, IfOk, OnErr, OnOk, length};
ghost use Rattle.rtl_ir.specs.Faults.{check_faults};
ghost use Rattle.design_edit.specs.Modules.{with_modules};
ghost use Rattle.rtl_check.specs.Edits.{IsEditFault};

use crate::checked::Checked;
use crate::design::check_again;
use crate::due::Due;
use crate::fault::CheckFault;
use design_edit::{PlaceFault, put_modules, take_back};
use rtl_bits::{Memory, Seq};
use rtl_ir::limits::MAX_MODULES;
use rtl_ir::{Design, Module};
use std::alloc::Global;

/// Why an edit of an accepted design is refused.
#[derive(Drop)]
pub enum EditFault {
    /// The place, among the modules of the edit, of the first that makes them more than a design may have.
    Past(usize),
    /// The first fault of the edited design, or want of memory.
    Check(CheckFault),
}

impl From<Memory> for EditFault {
    ghost use Rattle.std.specs.Prelude.{◌≡◌};
    ghost use Rattle.rtl_check.specs.declared.edit.EditFault.TheVariants as edit;
    ghost use Rattle.rtl_check.specs.declared.fault.CheckFault.TheVariants as check;

    ghost from_gives = { λ _ fault. fault ≡ edit.Check check.Memory };

    fn from(_memory: Memory) -> EditFault {
        EditFault::Check(CheckFault::Memory)
    }
}

/// An accepted design as it was before an edit, and why the edit is refused.
#[derive(Drop)]
pub struct RefusedEdit {
    pub checked: Checked,
    pub fault: EditFault,
}

impl Checked {
    /// The design with each of these modules in the place of the one of its name, or at the end. It answers as `check`
    /// does, but looks again only at modules that changed and at those that see other ports than before. Modules that
    /// stay are not copied, and a refusal hands the design back as it was.
    pub fn edit(self, alloc: Global, edits: Seq<Module>) -> Result<Checked, RefusedEdit>
        requires few { length self.design.modules ≤ MAX_MODULES }
        ensures value { IfOk result (λ checked. checked.design.modules ≡ with_modules self.design.modules edits) }
        ensures count { IfOk result (λ checked. length checked.design.modules ≤ MAX_MODULES) }
        ensures handed_back { IfErr result (λ refused. refused.checked.design ≡ self.design) }
        ensures fault { IfErr result (λ refused. IsEditFault self.design.modules edits refused.fault) }
    {
        let mut modules = self.into_design().modules.into_vec();
        let edited = edit_modules(alloc, &mut modules, edits);
        let checked = Checked::make(Design {
            modules: Seq::from_vec(modules),
        });
        match edited {
            Ok(()) => Ok(checked),
            Err(fault) => Err(RefusedEdit { checked, fault }),
        }
    }
}

/// Puts the edits in their places, if the modules that are due have no fault then. After an error the modules are as
/// before.
fn edit_modules(
    alloc: Global,
    modules: &mut Vec<Module>,
    edits: Seq<Module>,
) -> Result<(), EditFault>
    requires few { length modules.old.items ≤ MAX_MODULES }
    requires faultless { check_faults modules.old.items ≡ [] }
    ensures value { OnOk result (modules.new.items ≡ with_modules modules.old.items edits) }
    ensures count { OnOk result (length modules.new.items ≤ MAX_MODULES) }
    ensures err { OnErr result (modules.new.items ≡ modules.old.items) }
    ensures fault { IfErr result (IsEditFault modules.old.items edits) }
    ensures faultless { check_faults modules.new.items ≡ [] }
{
    let due = Due::of_edits(alloc, modules.as_slice(), edits.as_slice())?;
    let changes = put_modules(alloc, modules, edits)?;
    match check_again(alloc, modules.as_slice(), &due) {
        Ok(()) => Ok(()),
        Err(fault) => {
            take_back(modules, changes);
            Err(EditFault::Check(fault))
        }
    }
}

impl From<PlaceFault> for EditFault {
    ghost use Rattle.std.specs.Prelude.{◌≡◌};
    ghost use Rattle.rtl_check.specs.Edits.{edit_fault_of};

    ghost from_gives = { λ given fault. fault ≡ edit_fault_of given };

    fn from(fault: PlaceFault) -> EditFault {
        match fault {
            PlaceFault::Past(at) => EditFault::Past(at),
            PlaceFault::Memory => EditFault::Check(CheckFault::Memory),
        }
    }
}
