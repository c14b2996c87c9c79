//! Crews that do jobs.

use rtl_bits::{Memory, Steps};
use std::alloc::Global;
use std::marker::{Send, Sync};
use std::sync::Wait;
use std::sync::atomic::{AtomicBool, AtomicU32, Ordering};
use std::thread::Threads;
use table_rows::str_of;
use work_crew::{Gate, Job, Outputs, run_jobs};

/// Squares of numbers: a token counts the jobs that it went through. The job of one number has no memory.
#[derive(Drop)]
struct Squares {
    refused: Option<u32>,
}

fn square(number: u32) -> u64 {
    u64::from(number).wrapping_mul(u64::from(number))
}

impl Job for Squares {
    type Output = u64;

    type Token = u64;

    ghost is_job = { λ squares k. Unit {0} };

    ghost token_fits = { λ squares t. Unit {0} };

    ghost output_fits = { λ squares k output. Unit {0} };

    ghost does = { λ squares k output t u n. Unit {0} };

    ghost fails = { λ squares k t u n. Unit {0} };

    fn perform<L: Send>(
        &self,
        number: u32,
        token: &mut u64,
        meter: &mut Steps<L>,
    ) -> Result<u64, Memory> {
        *token = token.saturating_add(1);
        meter.tick();
        if self.refused == Some(number) {
            return Err(Memory);
        }
        Ok(square(number))
    }
}

/// A gate that holds each job whose number is a multiple of `stride` until all others have left, or until it has looked
/// for them often enough. A stride of 0 holds none.
#[derive(Drop)]
struct HoldingGate {
    stride: u32,
    others: u32,
    left: AtomicU32,
    gave_up: AtomicBool,
}

impl HoldingGate {
    /// A gate for the jobs below `count`.
    fn make(stride: u32, count: u32) -> HoldingGate {
        let held = if stride == 0 {
            0
        } else {
            count.div_ceil(stride)
        };
        HoldingGate {
            stride,
            others: count.saturating_sub(held),
            left: AtomicU32::new(0),
            gave_up: AtomicBool::new(false),
        }
    }

    /// Whether the job is held.
    fn is_held(&self, job: u32) -> bool {
        self.stride > 0 && job % self.stride == 0
    }
}

impl Gate for HoldingGate {
    fn enter(&self, job: u32) {
        if !self.is_held(job) {
            return;
        }
        for _ in 0..1_000_000_000u32 {
            if self.left.load(Ordering::SeqCst) >= self.others {
                return;
            }
        }
        self.gave_up.store(true, Ordering::SeqCst);
    }

    fn leave(&self, job: u32) {
        if !self.is_held(job) {
            self.left.fetch_add(1, Ordering::SeqCst);
        }
    }
}

/// Whether each job below `count` stands in the lists once.
fn is_each_once(alloc: Global, lists: &[Vec<u32>], count: u32) -> Result<bool, Memory> {
    let mut times = vec![in alloc; 0u32; count as usize]?;
    for list in lists {
        for job in list {
            let Some(times) = times.get_mut(*job as usize) else {
                return Ok(false);
            };
            *times = times.saturating_add(1);
        }
    }
    Ok(times.iter().all(|times| *times == 1))
}

/// Whether output number k is that of job k, for each job below `count`, and no other is there.
fn are_in_order(items: &[u64], count: u32) -> bool {
    if items.len() != count as usize {
        return false;
    }
    let mut number = 0u32;
    for item in items {
        if *item != square(number) {
            return false;
        }
        number = number.saturating_add(1);
    }
    true
}

/// Whether each token has counted the jobs of its list.
fn are_counted(lists: &[Vec<u32>], tokens: &[u64]) -> bool {
    if lists.len() != tokens.len() {
        return false;
    }
    lists
        .iter()
        .zip(tokens)
        .all(|(list, token)| list.len() as u64 == *token)
}

/// What a row asks for: so many workers, so many jobs, which of them are held, and a job without memory.
#[derive(Drop)]
struct Row {
    workers: u32,
    count: u32,
    stride: u32,
    refused: Option<u32>,
}

/// The number in a field.
fn number_of(field: &[u8]) -> Option<u32> {
    str_of(field).parse::<u32>().ok()
}

/// What the fields of a row ask for: after its name stand the workers, the jobs, the stride of those that are held, and
/// the job without memory or a dash.
fn row_of(fields: &[&[u8]]) -> Option<Row> {
    let [_, workers, count, stride, refused] = fields else {
        return None;
    };
    Some(Row {
        workers: number_of(workers)?,
        count: number_of(count)?,
        stride: number_of(stride)?,
        refused: number_of(refused),
    })
}

/// Whether all was done as the row says: each job once, or no answer where a job has no memory.
fn is_done(
    alloc: Global,
    row: &Row,
    answer: &Result<Outputs<Squares>, Memory>,
    tokens: &[u64],
    ticks: u64,
) -> Result<bool, Memory> {
    let Ok(outputs) = answer else {
        return Ok(row.refused.is_some());
    };
    let lists = outputs.taken.as_slice();
    Ok(
        row.refused.is_none()
            && ticks == u64::from(row.count)
            && are_in_order(outputs.items.as_slice(), row.count)
            && are_counted(lists, tokens)
            && is_each_once(alloc, lists, row.count)?,
    )
}

/// Has a crew do what the fields of a row ask for, and says whether the row holds.
pub fn is_done_once<R: Threads + Wait + Sync>(
    rt: &R,
    alloc: Global,
    fields: &[&[u8]],
) -> Result<bool, Memory> {
    let Some(row) = row_of(fields) else {
        return Ok(false);
    };
    if row.workers == 0 || row.workers > 64 || row.count > 4096 {
        return Ok(false);
    }
    let mut tokens = vec![in alloc; 0u64; row.workers as usize]?;
    let jobs = Squares {
        refused: row.refused,
    };
    let gate = HoldingGate::make(row.stride, row.count);
    let name = ();
    let mut meter = Steps::make(&name);
    let answer = run_jobs(rt, alloc, &jobs, row.count, &mut tokens, &gate, &mut meter);
    let ticks = meter.end(&name);
    let is_held = is_done(alloc, &row, &answer, tokens.as_slice(), ticks)?;
    Ok(is_held && !gate.gave_up.load(Ordering::SeqCst))
}
