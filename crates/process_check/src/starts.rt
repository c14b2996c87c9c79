//! Start values.

ghost use Rattle.std.specs.Prelude.{◌≡◌, IfOk};
ghost use Rattle.rtl_ir.specs.Faults.Processes as processes;

use crate::values::are_settled;
use process_trees::is_init;
use rtl_bits::Memory;
use rtl_ir::{Case, Process};
use rtl_sig::WireBit;
use std::alloc::Global;

/// Whether each start value of the process is one constant, whatever the decisions, below its root by the rules.
pub(crate) fn starts_stand(
    alloc: Global,
    root: &Case,
    bits: &[WireBit],
    process: &Process,
) -> Result<bool, Memory>
    ensures value { IfOk result (λ stand. stand ≡ processes.starts_stand root.now bits.now process.now) }
{
    for rule in process.syncs.as_slice() {
        if is_init(&rule.event)
            && !are_settled(alloc, root, bits, false, rule.updates.as_slice())?
        {
            return Ok(false);
        }
    }
    Ok(true)
}
