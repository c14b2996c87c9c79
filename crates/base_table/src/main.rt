//! Goes through tables of what the crates below the passes answer: of bits, names and ports, of cells, of texts, and of
//! indexes of modules.
#![tactic(auto)]

mod base;
mod cells;
mod fields;
mod index;
mod texts;

use rtl_bits::Memory;
use std::process::ExitCode;
use table_rows::{Tally, report};

/// Counts all rows.
fn tally_of(rt: &HostRuntime) -> Result<Tally, Memory> {
    let mut tally = Tally::make(rt.alloc());
    base::count(rt, &mut tally)?;
    cells::count(rt, &mut tally)?;
    texts::count(rt, &mut tally)?;
    index::count(rt, &mut tally)?;
    Ok(tally)
}

/// Goes through the tables, and says how many rows held.
fn main(rt: HostRuntime) -> ExitCode {
    report(&rt, tally_of(&rt))
}
