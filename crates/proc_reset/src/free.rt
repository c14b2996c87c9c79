//! Whether tree bits are read outside their process, or by its tests.

ghost use Rattle.std.specs.Prelude.{◌≡◌, ◌++◌, ◌&&◌, ◌||◌, not, List, flat_map, IfOk};
ghost use Rattle.std.specs.List.{list_any};
ghost use Rattle.rtl_sig.specs.declared.sig.WireBit.{WireBit};
ghost use Rattle.rtl_ir.specs.declared.module.Module.{Module};
ghost use Rattle.rtl_ir.specs.Signals.{wire_bits};
ghost use Rattle.rtl_ir.specs.Types.{Ports};
ghost use Rattle.net_model.specs.Proc.Reset.{are_unread, control_reads, outer_reads};
ghost use Rattle.proc_reset.specs.Reads.{AreIn, are_apart, fixed_signals, is_among, process_signals};

use crate::process_signals::{control_signals, process_signals};
use crate::sets::{BitSet, has_one, meets, set_of};
use rtl_bits::Memory;
use rtl_ir::Process;
use rtl_sig::WireBit;
use std::alloc::Global;

/// What stands beside a process: the processes before it as they have become, and those behind it.
#[derive(Clone, Copy)]
pub(crate) struct Others<'a> {
    pub(crate) before: &'a [Process],
    pub(crate) after: &'a [Process],
}

/// Whether none of the bits is read outside the process, nor by its tests and the events of its rules. The set has what
/// connections, cells and output ports read.
pub(crate) fn are_free(
    alloc: Global,
    reads: &BitSet,
    others: &Others,
    process: &Process,
    bits: &[WireBit],
) -> Result<bool, Memory>
    ensures value { (ports : Ports) (m : Module) → AreIn reads.now (wire_bits (fixed_signals ports m)) →
        IfOk result (λ free. free ≡ (are_unread bits.now (outer_reads ports m (others.now.before.now
        ++ others.now.after.now)) && are_unread bits.now (control_reads process.now))) }
{
    if has_one(reads, bits) {
        return Ok(false);
    }
    let set = set_of(alloc, bits)?;
    are_apart(alloc, &set, others, process)
}

/// Whether neither the other processes read a bit of the set, nor the tests of the process and the events of its rules.
fn are_apart(
    alloc: Global,
    set: &BitSet,
    others: &Others,
    process: &Process,
) -> Result<bool, Memory>
    ensures value { (bits : List WireBit) → AreIn set.now bits →
        IfOk result (λ free. free ≡ are_apart bits others.now.before.now others.now.after.now process.now) }
{
    let before = processes_meet(alloc, set, others.before)?;
    let after = processes_meet(alloc, set, others.after)?;
    let control = control_signals(alloc, process)?;
    let tested = meets(set, control.as_slice());
    Ok(neither(before, after, tested))
}

/// None of the three.
fn neither(before: bool, after: bool, tested: bool) -> bool
    ensures value { result ≡ (not (before || after) && not tested) }
{
    !before && !after && !tested
}

/// Whether one of the processes reads a bit of the set.
fn processes_meet(alloc: Global, set: &BitSet, processes: &[Process]) -> Result<bool, Memory>
    ensures value { IfOk result (λ meet. (all : List WireBit) → AreIn set.now all →
        meet ≡ list_any (is_among all) (flat_map process_signals processes.now)) }
{
    for process in processes {
        let signals = process_signals(alloc, process)?;
        if meets(set, signals.as_slice()) {
            return Ok(true);
        }
    }
    Ok(false)
}
