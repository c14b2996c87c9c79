//! Calls over sources and sinks of other kinds.

ghost use Rattle.synth_run.specs.Replies.{IsCompleted};

use crate::calls::{Builds, count_builds};
use rtl_bits::{Memory, Steps, Text};
use std::alloc::Global;
use std::marker::Sync;
use std::sync::Wait;
use std::thread::Threads;
use synth_io::{StdSink, StdSource, SureSink, SureSource};
use synth_run::{Status, run};
use work_crew::NoGate;

/// The text of an empty module, whose netlist it is.
const EMPTY: &[u8] = b"module \\e\nend\n";

/// Over a source and a sink that never fail, no fault is answered.
fn over_sure<R: Threads + Wait + Sync>(
    rt: &R,
    alloc: Global,
    source: &mut SureSource,
    sink: &mut SureSink,
) -> Status
    ensures complete { IsCompleted result }
{
    let mut meter = Steps::make(&Builds);
    let status = run(rt, alloc, &[], source, sink, &NoGate, &mut meter);
    meter.end(&Builds);
    status
}

/// Whether a call over a source and a sink that never fail is done.
pub fn is_sure<R: Threads + Wait + Sync>(rt: &R, alloc: Global) -> Result<bool, Memory> {
    let mut source = SureSource::make(Text::from_slice(alloc, EMPTY)?);
    Ok(over_sure(rt, alloc, &mut source, &mut SureSink::make()) == Status::Done)
}

/// Whether a call over a reader and a writer of std is done, writes the netlist, and counts a build.
pub fn is_standard<R: Threads + Wait + Sync>(rt: &R, alloc: Global) -> Result<bool, Memory> {
    let mut written = Vec::new(alloc);
    let mut source = StdSource::make(EMPTY);
    let mut sink = StdSink::make(&mut written);
    let ended = count_builds(rt, alloc, &[], &mut source, &mut sink);
    Ok(ended == (Status::Done, 1) && written.as_slice() == EMPTY)
}
