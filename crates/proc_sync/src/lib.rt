//! A step of `proc`: rules become flip-flops and latches, and lines that write become write ports.
#![tactic(auto)]

mod cells;
mod counts;
mod joins;
mod masks;
mod parts;
mod process;
mod rules;
mod runs;
mod sources;
mod writer;
mod writes;

ghost use Rattle.std.specs.Prelude.{◌≡◌, [], Err, IfOk, OnOk, map};
ghost use Rattle.rtl_ir.specs.Scope.{with_processes};
ghost use Rattle.rtl_ir.specs.Types.{table_ports};
ghost use Rattle.rtl_ir.specs.declared.process.Process.{Process};
ghost use Rattle.net_index.specs.Builder.{IsInLimits, PassesLimit};
ghost use Rattle.net_model.specs.Proc.Sync.{proc_sync_of};
ghost use Rattle.proc_laws.specs.Ready.{AreRuled, HaveNoLines, HaveNoStarts, IsReady};
ghost use Rattle.proc_laws.specs.Step.{IsStep, StaysReady};
ghost use Rattle.proc_laws.specs.Kinds.{HaveNoAlways, HaveNoTwoEdges};
ghost use Rattle.sync_laws.specs.Lines.{WritesHaveBits};
ghost use Rattle.proc_sync.specs.Limits.{SyncPassesLimit, steps_of, synced};
ghost use Rattle.proc_sync.specs.Writer.{body_of, done_of};

use crate::process::processes_step;
use crate::writer::Writer;
use crate::writes::writes_step;
use net_index::{Builder, PassFault, check_limits};
use rtl_bits::{Copied, Memory, Seq};
use rtl_ir::{Module, PortTable, Process};
use std::alloc::Global;

/// The module in which the rules of all processes are flip-flops and latches, and the lines that write are write
/// ports. Its processes have no rule. `Over` comes where the module would pass a limit on cells, on bits of wires
/// or on fresh names. In the Yosys manual, the commands `proc_dff` and `proc_memwr`. It may be given on where the
/// address and the word of each line that writes have bits, as those of a port must; each line of a text has.
pub fn apply(alloc: Global, module: &Module, ports: &PortTable) -> Result<Module, PassFault>
    requires ready { IsReady with_processes (table_ports ports.now.modules) «module».now }
    requires ruled { AreRuled «module».now }
    requires no_starts { HaveNoStarts «module».now }
    requires no_always { HaveNoAlways «module».now }
    requires no_two_edges { HaveNoTwoEdges «module».now }
    ensures exact { IfOk result (λ after. after ≡ proc_sync_of «module».now) }
    ensures over { result ≡ Err PassFault.Over → SyncPassesLimit «module».now }
    ensures within { OnOk result (IsInLimits (synced «module».now)) }
    ensures step { IfOk result (IsStep ports.now «module».now) }
    ensures ready { WritesHaveBits «module».now → IfOk result (StaysReady ports.now «module».now) }
    ensures ruled { IfOk result AreRuled }
    ensures no_lines { IfOk result HaveNoLines }
{
    synced_module(alloc, module)
}

/// The module after the step.
fn synced_module(alloc: Global, module: &Module) -> Result<Module, PassFault>
    ensures exact { IfOk result (λ after. after ≡ proc_sync_of «module».now) }
    ensures over { result ≡ Err PassFault.Over → SyncPassesLimit «module».now }
    ensures within { OnOk result (IsInLimits (synced «module».now)) }
{
    let processes = without_rules(alloc, module.processes.as_slice())?;
    let builder = built(alloc, module)?;
    Ok(Module {
        processes,
        ..builder.finish()
    })
}

/// The module with all that is added.
fn built(alloc: Global, module: &Module) -> Result<Builder, PassFault>
    ensures exact { IfOk result (λ builder. builder ≡ synced «module».now) }
    ensures over { result ≡ Err PassFault.Over → SyncPassesLimit «module».now }
    ensures within { IfOk result IsInLimits }
{
    check_limits(module)?;
    let writer = Writer::of(alloc, module)?;
    let builder = Builder::of(alloc, module.copy()?)?;
    steps(alloc, module.processes.as_slice(), writer, builder)
}

/// All flip-flops and latches of the processes, and then all write ports. After an error the builder is given up.
fn steps<'a>(
    alloc: Global,
    processes: &'a [Process],
    writer: Writer<'a>,
    builder: Builder,
) -> Result<Builder, PassFault>
    ensures exact { IfOk result (λ after.
        after ≡ steps_of (body_of writer.entry) (done_of writer.entry) processes.now builder) }
    ensures over { result ≡ Err PassFault.Over →
        PassesLimit (steps_of (body_of writer.entry) (done_of writer.entry) processes.now builder) }
    ensures within { IsInLimits builder → IfOk result IsInLimits }
{
    let mut builder = builder;
    processes_step(alloc, processes, &mut builder)?;
    writes_step(alloc, processes, writer, &mut builder)?;
    Ok(builder)
}

/// The processes without their rules.
fn without_rules(alloc: Global, processes: &[Process]) -> Result<Seq<Process>, Memory>
    ensures value { IfOk result (λ after. after ≡ map (λ (p : Process). record p { syncs = [] }) processes.now) }
{
    let mut after = Seq::make(alloc);
    for process in processes {
        after.push(Process {
            name: process.name.copy()?,
            root: process.root.copy()?,
            syncs: Seq::make(alloc),
            attributes: process.attributes.copy()?,
        })?;
    }
    Ok(after)
}
