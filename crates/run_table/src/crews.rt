//! Calls whose first job waits for the others.

use crate::calls::{Builds, Ended, ROOM, words_of};
use rtl_bits::{Memory, Steps, Text};
use std::alloc::{AllocError, Global};
use std::marker::Sync;
use std::sync::Wait;
use std::sync::atomic::{AtomicBool, AtomicU32, Ordering};
use std::thread::Threads;
use synth_io::{MemSink, MemSource};
use synth_run::run;
use work_crew::Gate;

/// A gate that holds job 0 until all others have left, or until it has looked for them often enough.
#[derive(Drop)]
struct LastFirst {
    others: u32,
    left: AtomicU32,
    gave_up: AtomicBool,
}

impl LastFirst {
    fn make(others: u32) -> LastFirst {
        LastFirst {
            others,
            left: AtomicU32::new(0),
            gave_up: AtomicBool::new(false),
        }
    }
}

impl Gate for LastFirst {
    fn enter(&self, job: u32) {
        if job != 0 {
            return;
        }
        for _ in 0..1_000_000_000u32 {
            if self.left.load(Ordering::SeqCst) >= self.others {
                return;
            }
        }
        self.gave_up.store(true, Ordering::SeqCst);
    }

    fn leave(&self, job: u32) {
        if job != 0 {
            self.left.fetch_add(1, Ordering::SeqCst);
        }
    }
}

/// The text of so many different modules, whose netlist they are.
pub fn plain_modules(alloc: Global, count: u32) -> Result<String, AllocError> {
    let mut text = String::new(alloc);
    for number in 0..count {
        let width = number.saturating_add(2);
        let module = format!(in alloc;
            "module \\m{number}\n  wire width {width} input 1 \\x\nend\n"
        )?;
        text.push_str(module.as_str())?;
    }
    Ok(text)
}

/// How a call with these words over these bytes ends where job 0 waits until so many others have left; nothing where it
/// gave up.
pub fn held_first<R: Threads + Wait + Sync>(
    rt: &R,
    alloc: Global,
    words: &[u8],
    bytes: &[u8],
    others: u32,
) -> Result<Option<Ended>, Memory> {
    let words = words_of(alloc, words)?;
    let mut source = MemSource::make(Text::from_slice(alloc, bytes)?, Vec::new(alloc));
    let mut sink = MemSink::make(alloc, ROOM, Vec::new(alloc))?;
    let gate = LastFirst::make(others);
    let mut meter = Steps::make(&Builds);
    let words = words.as_slice();
    let status = run(rt, alloc, words, &mut source, &mut sink, &gate, &mut meter);
    let builds = meter.end(&Builds);
    let ended = Ended {
        status,
        builds,
        sink,
    };
    Ok((!gate.gave_up.load(Ordering::SeqCst)).then_some(ended))
}

/// Whether two workers build so many different modules where the first waits for all others.
pub fn are_at_once<R: Threads + Wait + Sync>(
    rt: &R,
    alloc: Global,
    count: u32,
) -> Result<bool, Memory> {
    let text = plain_modules(alloc, count)?;
    let text = text.as_bytes();
    let ended = held_first(rt, alloc, b"--workers 2", text, count.saturating_sub(1))?;
    Ok(ended.is_some_and(|ended| ended.ends_with(u64::from(count), text)))
}
