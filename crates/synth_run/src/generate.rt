//! A design that is made and not read: it is loaded into a desk, and its netlist is summarised.

ghost use Rattle.std.specs.Prelude.{◌≡◌, ◌≤◌, ℕ, Err, IfOk, Ok, OnErr, OnOk, false, take};
ghost use Rattle.std.specs.Io.KnownBytes.{Appends, Keeps};
ghost use Rattle.synth_io.specs.Counts.{HasRisen};
ghost use Rattle.generated_design.specs.Generate.{generated};
ghost use Rattle.build_crew.specs.Rises.{RisesUpTo};
ghost use Rattle.desk_core.specs.Netlist.{built_count};
ghost use Rattle.desk_core.specs.Summary.{summary_answer};
ghost use Rattle.script_core.specs.Words.{IsScript};
ghost use Rattle.synth_run.specs.Generated.{IsSummary, generated_said, generated_state};

use crate::session::Stop;
use crate::synth::tell;
use crate::words::Plan;
use desk_core::{Crew, Desk};
use generated_design::generated;
use reply_lines::Reply;
use rtl_bits::{Memory, Steps};
use std::alloc::Global;
use std::marker::{Send, Sync};
use std::sync::Wait;
use std::thread::Threads;
use synth_io::Sink;
use work_crew::Gate;

/// The generated design of so many modules becomes that of the desk.
fn take_generated(alloc: Global, desk: &mut Desk, count: u32) -> Result<(), Memory>
    requires few { count ≤ 4096 }
    ensures ok { OnOk result (desk.new.state ≡ record desk.old.state { design = generated count }) }
{
    let design = generated(alloc, count)?;
    let _reply = desk.replace(design)?;
    Ok(())
}

/// The summary of the netlist that the script makes of the generated design of so many modules, or the error of the
/// first module that passes a limit.
fn summary_of<R: Threads + Wait + Sync, G: Gate, L: Send>(
    crew: &Crew<R, G>,
    plan: Plan,
    count: u32,
    meter: &mut Steps<L>,
) -> Result<Reply, Memory>
    requires some { 1 ≤ plan.workers }
    requires few { plan.workers ≤ 64 }
    requires modules { count ≤ 4096 }
    ensures value { IfOk result (λ reply. reply ≡ (summary_answer (generated_state plan.script count)).reply) }
    ensures builds { OnOk result (RisesUpTo (built_count (generated_state plan.script count)) meter.old meter.new) }
{
    let mut desk = Desk::make(crew.alloc, plan.script, plan.workers)?;
    take_generated(crew.alloc, &mut desk, count)?;
    desk.summarise(crew, meter)
}

/// Writes the summary of the netlist of the generated design of so many modules, or an error. Whether it is an error.
pub(crate) fn generate<R: Threads + Wait + Sync, K: Sink, G: Gate, L: Send>(
    crew: &Crew<R, G>,
    plan: Plan,
    count: u32,
    sink: &mut K,
    meter: &mut Steps<L>,
) -> Result<bool, Stop>
    requires script { IsScript plan.script }
    requires some { 1 ≤ plan.workers }
    requires few { plan.workers ≤ 64 }
    requires modules { count ≤ 4096 }
    ensures ok { IfOk result (λ error.
        Appends (K.held sink.old) (K.held sink.new) (generated_said plan.script count).text
        × ((generated_said plan.script count).error ≡ error)) }
    ensures begun { OnErr result
        ((n : ℕ) × Appends (K.held sink.old) (K.held sink.new) (take n (generated_said plan.script count).text)) }
    ensures memory { result ≡ Err Stop.Memory → Keeps (K.held sink.old) (K.held sink.new) }
    ensures refines { result ≡ Ok false → IsSummary plan.script count (K.held sink.old) (K.held sink.new) }
    ensures builds { (result ≡ Err Stop.Memory → ⊥) →
        RisesUpTo (built_count (generated_state plan.script count)) meter.old meter.new }
    ensures cause { result ≡ Err Stop.Sink → HasRisen (K.faults sink.old) (K.faults sink.new) }
    ensures same { (result ≡ Err Stop.Sink → ⊥) → K.faults sink.new ≡ K.faults sink.old }
    ensures source { result ≡ Err Stop.Source → ⊥ }
{
    let Ok(summary) = summary_of(crew, plan, count, meter) else {
        return Err(Stop::Memory);
    };
    tell(sink, summary.text.as_slice(), summary.error)
}
