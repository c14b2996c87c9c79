//! Rows of what threads share: the jobs of a crew, and seats at a cache.

mod callers;
mod crowd;
mod given_back;
mod jobs;
mod seats;

use rtl_bits::Memory;
use std::marker::Sync;
use std::rt::Files;
use std::sync::Wait;
use std::thread::Threads;
use table_rows::{LINES, Tally};

/// Counts the rows of the files, and what is called by hand.
pub(crate) fn count<R: Files + Threads + Wait + Sync + AllocGlobal>(
    rt: &R,
    tally: &mut Tally,
) -> Result<(), Memory> {
    tally.file(rt, "shared/jobs", LINES, |alloc, fields| {
        jobs::is_done_once(rt, alloc, fields)
    })?;
    tally.file(rt, "shared/seats", LINES, |alloc, fields| {
        seats::are_answered(rt, alloc, fields)
    })?;
    let counted = crowd::are_counted(rt, rt.alloc())?;
    tally.count("crowd", b"eight seats on eight threads", counted)?;
    let is_free = given_back::is_free_again(rt, rt.alloc())?;
    tally.count("crowd", b"a ticket that was given back", is_free)
}
