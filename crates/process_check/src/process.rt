//! Whether a process is one that can be taken.

ghost use Rattle.std.specs.Prelude.{◌≡◌, IfOk, OnOk};
ghost use Rattle.rtl_ir.specs.Faults.Processes as processes;
ghost use Rattle.rtl_ir.specs.Types.{Ports};
ghost use Rattle.net_index.specs.Types.{AreTypes};
ghost use Rattle.process_trees.specs.Fitting.{DoCellsFit};
ghost use Rattle.process_check.specs.Values.{WereAsked};

use crate::rules::rules_stand;
use crate::self_reading::reads_itself;
use crate::starts::starts_stand;
use crate::two_edges::{Tree, two_edges_stand};
use net_index::Types;
use process_trees::{EventTests, acting_rules, ruled, tree_bits};
use rtl_bits::Memory;
use rtl_ir::{Module, Process};
use std::alloc::Global;

/// Whether a process of the module is none that is taken: its rules do not stand together, a tree bit depends on
/// itself, a start value is no constant, or neither of two edges is a reset. The tables of tests are made at the first
/// process with two edges. In the Yosys manual, "The RTL Intermediate Language (RTLIL)", the section "RTLIL::Process".
pub fn is_bad_process(
    alloc: Global,
    types: &Types,
    tests: &mut Option<EventTests>,
    module: &Module,
    process: &Process,
) -> Result<bool, Memory>
    ensures asked { OnOk result ((ports : Ports) → AreTypes types.now ports → WereAsked tests.old ports «module».now →
        WereAsked tests.new ports «module».now) }
    ensures value { IfOk result (λ bad. (ports : Ports) → AreTypes types.now ports →
        WereAsked tests.old ports «module».now → DoCellsFit ports «module».now →
        bad ≡ processes.is_bad_process ports «module».now process.now) }
{
    if !rules_stand(process.syncs.as_slice()) {
        return Ok(true);
    }
    let root = ruled(alloc, &process.root)?;
    let bits = tree_bits(alloc, &process.root)?;
    if reads_itself(alloc, &root, bits.as_slice())? {
        return Ok(true);
    }
    if !starts_stand(alloc, &root, bits.as_slice(), process)? {
        return Ok(true);
    }
    let tree = Tree {
        module,
        root: &root,
        bits: bits.as_slice(),
    };
    let acting = acting_rules(process.syncs.as_slice());
    Ok(!two_edges_stand(alloc, types, tests, &tree, acting)?)
}
