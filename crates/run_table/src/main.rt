//! Goes through tables of runs over devices that fail, of desks, and of what threads share.
#![tactic(auto)]

mod calls;
mod crews;
mod desk_sessions;
mod desks;
mod devices;
mod outside;
mod pieces;
mod sessions;
mod shared;

use rtl_bits::Memory;
use std::marker::Sync;
use std::process::ExitCode;
use std::rt::Files;
use std::sync::Wait;
use std::thread::Threads;
use table_rows::{LINES, TEXTS, Tally, report};

/// Counts the rows of calls whose input comes in pieces, and of a desk that is held without a call.
fn count_sessions<R: Files + Threads + Wait + Sync + AllocGlobal>(
    rt: &R,
    tally: &mut Tally,
) -> Result<(), Memory> {
    tally.file(rt, "sessions", TEXTS, |alloc, fields| {
        sessions::is_answered(rt, alloc, fields)
    })?;
    tally.file(rt, "desk_sessions", TEXTS, |alloc, fields| {
        desk_sessions::is_answered(rt, alloc, fields)
    })
}

/// Counts the rows of devices that fail, over a text that is longer than two pieces.
fn count_devices<R: Files + Threads + Wait + Sync + AllocGlobal>(
    rt: &R,
    tally: &mut Tally,
) -> Result<(), Memory> {
    let text = devices::wires_text(rt.alloc(), 12_000)?;
    let text = text.as_bytes();
    tally.file(rt, "devices", LINES, |alloc, fields| {
        devices::is_answered(rt, alloc, text, fields)
    })
}

/// Counts what is called by hand.
fn count_outside<R: Files + Threads + Wait + Sync + AllocGlobal>(
    rt: &R,
    tally: &mut Tally,
) -> Result<(), Memory> {
    let alloc = rt.alloc();
    let table = "by hand";
    tally.count(table, b"sure objects", outside::is_sure(rt, alloc)?)?;
    tally.count(table, b"standard objects", outside::is_standard(rt, alloc)?)
}

/// Counts what two workers make while the first job waits.
fn count_crews<R: Threads + Wait + Sync + AllocGlobal>(
    rt: &R,
    tally: &mut Tally,
) -> Result<(), Memory> {
    let alloc = rt.alloc();
    let table = "crews";
    tally.count(
        table,
        b"two jobs at once",
        crews::are_at_once(rt, alloc, 2)?,
    )?;
    tally.count(
        table,
        b"seven jobs meanwhile",
        crews::are_at_once(rt, alloc, 8)?,
    )
}

/// Counts what several desks answer.
fn count_desks<R: Threads + Wait + Sync + AllocGlobal>(
    rt: &R,
    tally: &mut Tally,
) -> Result<(), Memory> {
    let alloc = rt.alloc();
    let table = "desks";
    tally.count(table, b"16 desks", desks::are_as_sessions(rt, alloc)?)?;
    tally.count(table, b"two desks at once", desks::are_at_once(rt, alloc)?)
}

/// Counts all rows.
fn tally_of<R: Files + Threads + Wait + Sync + AllocGlobal>(rt: &R) -> Result<Tally, Memory> {
    let mut tally = Tally::make(rt.alloc());
    count_sessions(rt, &mut tally)?;
    count_devices(rt, &mut tally)?;
    count_outside(rt, &mut tally)?;
    count_crews(rt, &mut tally)?;
    count_desks(rt, &mut tally)?;
    shared::count(rt, &mut tally)?;
    Ok(tally)
}

/// Goes through the tables, and says how many rows held.
fn main(rt: HostRuntime) -> ExitCode {
    report(&rt, tally_of(&rt))
}
