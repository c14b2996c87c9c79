//! Jobs, done by many workers.

ghost use Rattle.std.specs.Prelude.{ℕ, ◌<◌, ◌≤◌, All, length, map, IfOk, OnErr};
ghost use Rattle.work_crew.specs.Outcome.{Finished, Stopped};

use crate::beside::work_all;
use crate::gather::{gather, outputs_of};
use crate::job::{Gate, Job};
use crate::settle::settle;
use crate::setup::{Room, room_for};
use rtl_bits::{Memory, Steps};
use std::alloc::Global;
use std::marker::{Send, Sync};
use std::sync::Wait;
use std::thread::Threads;

/// The outputs by the numbers of their jobs, and for each token the jobs that it went through, in their order.
#[derive(Drop)]
pub struct Outputs<J: Job> {
    pub items: Vec<J::Output>,
    pub taken: Vec<Vec<u32>>,
}

/// Does the jobs below `count`, by one worker for each token. The workers take the jobs from deques, steal from one
/// another, and are joined before the call returns. One whose thread cannot be started works in the calling thread.
///
/// `Memory` comes where a job was answered so, and where the crew itself got no memory.
pub fn run_jobs<R: Threads + Wait + Sync, J: Job, G: Gate, L: Send>(
    rt: &R,
    alloc: Global,
    jobs: &J,
    count: u32,
    tokens: &mut [J::Token],
    gate: &G,
    meter: &mut Steps<L>,
) -> Result<Outputs<J>, Memory>
    requires jobs { (k : ℕ) → k < count → J.is_job jobs.now k }
    requires tokens { All (J.token_fits jobs.now) tokens.old }
    requires limits { (0 < length tokens.old) × (length tokens.old ≤ 64) × (count ≤ 4096) }
    ensures tokens { All (J.token_fits jobs.now) tokens.new }
    ensures ok { IfOk result (λ r. Finished (J.output_fits jobs.now) (J.does jobs.now) count
        r.items.items (map (λ v. v.items) r.taken.items) tokens.old tokens.new meter.old meter.new) }
    ensures err { OnErr result (Stopped (J.does jobs.now) (J.fails jobs.now) count
        tokens.old tokens.new meter.old meter.new) }
{
    let room = room_for(alloc, tokens.len() as u32, count, meter)?;
    let Room {
        mut seats,
        thieves,
        mut places,
        items,
        mut lists,
        mut owners,
        mut rows,
    } = room;
    work_all(rt, jobs, gate, thieves.as_slice(), &mut seats, tokens);
    gather(
        seats,
        &mut places,
        &mut lists,
        &mut owners,
        &mut rows,
        meter,
    );
    settle(&mut owners, &mut rows);
    match outputs_of(places, items) {
        Some(items) => Ok(Outputs {
            items,
            taken: lists,
        }),
        None => Err(Memory),
    }
}
