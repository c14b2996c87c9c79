//! Files: an optional `autoidx`, whose number is dropped, then modules.

ghost use Rattle.rtl_lex.specs.Items.{as_seen};
ghost use Rattle.rtl_read.specs.Gives.{Sets};
ghost use Rattle.rtl_read.specs.Act.File.{act_autoidx_number, act_modules};

use crate::constant::integer;
use crate::draft::Draft;
use crate::read_fault::ReadFault;
use rtl_ir::limits::MAX_MODULES;
use rtl_lex::{Item, Sort};

impl Draft {
    /// The number behind `autoidx` is an integer.
    #[tactic(auto, using(crate::proofs::Faults::fails_on, crate::proofs::Faults::goes_on))]
    pub(crate) fn act_autoidx_number(&mut self, item: &Item<'_>) -> Result<(), ReadFault>
        ensures { Sets result self.new (act_autoidx_number (as_seen item.now) self.old) }
    {
        match integer(item) {
            Ok(_) => Ok(()),
            Err(fault) => Err(fault),
        }
    }

    /// The word `module`: there is room for one more.
    pub(crate) fn act_modules(&mut self, item: &Item<'_>) -> Result<(), ReadFault>
        ensures { Sets result self.new (act_modules item.now.sort (as_seen item.now) self.old) }
    {
        if item.sort == Sort::Module && self.modules.as_slice().len() >= MAX_MODULES {
            return Err(ReadFault::Limit(item.place));
        }
        Ok(())
    }
}
