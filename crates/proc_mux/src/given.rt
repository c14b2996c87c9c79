//! What the assigns of cases give a run.

ghost use Rattle.std.specs.Prelude.{◌≡◌, Some, None, IfOk, map};
ghost use Rattle.std.specs.Option.{option_map_or};
ghost use Rattle.proc_mux.specs.Givens.{unknowns};
ghost use Rattle.proc_mux.specs.Rows.{row_at, places_given, row_at, run_given, source_at};
ghost use Rattle.proc_mux.specs.Trees.{has_between, value_at};

use crate::rows::{Placed, Rows, row_of, source_at};
use rtl_bits::{Bit, Memory};
use rtl_sig::{SigBit, SigSpec, WireBit};
use std::alloc::Global;

/// A case with assigns of a run, by the number of its node, and what they give the run.
#[derive(Drop)]
pub(crate) struct Given {
    pub(crate) node: usize,
    pub(crate) value: SigSpec,
}

/// What the cases give the run, case after case, by the rows of its bits. The same cases assign all of them.
pub(crate) fn given_of(alloc: Global, rows: &Rows, run: &[WireBit]) -> Result<Vec<Given>, Memory>
    ensures value { IfOk result (λ given. given.items ≡ run_given (row_at rows.now) run.now) }
{
    match run {
        [] => Ok(Vec::new(alloc)),
        [first, ..] => places_given(alloc, rows, run, row_of(rows, *first)),
    }
}

/// What the cases give the run, of whose first bit this is the row.
fn places_given(
    alloc: Global,
    rows: &Rows,
    run: &[WireBit],
    row: &[Placed],
) -> Result<Vec<Given>, Memory>
    ensures value { IfOk result (λ given. given.items ≡ places_given (row_at rows.now) run.now 0 row.now) }
{
    let mut given = Vec::with_capacity(alloc, row.len())?;
    for at in 0..row.len() {
        let value = sources_at(alloc, rows, run, at)?;
        given.push(Given {
            node: row[at].node,
            value,
        })?;
    }
    Ok(given)
}

/// The sources at one place of the rows of a run.
fn sources_at(alloc: Global, rows: &Rows, run: &[WireBit], at: usize) -> Result<SigSpec, Memory>
    ensures value { IfOk result (λ value. value ≡ map (λ b. source_at (row_at rows.now b) at) run.now) }
{
    let mut value = SigSpec::make(alloc);
    for bit in run {
        value.push(source_at(row_of(rows, *bit), at))?;
    }
    Ok(value)
}

/// As many unknown constants as the run has bits.
pub(crate) fn unknowns(alloc: Global, run: &[WireBit]) -> Result<SigSpec, Memory>
    ensures value { IfOk result (λ bits. bits ≡ unknowns run.now) }
{
    let mut bits = SigSpec::make(alloc);
    for _ in run {
        bits.push(SigBit::Fixed(Bit::X))?;
    }
    Ok(bits)
}

/// What the assigns of the case at this node give, where it has assigns of the run.
pub(crate) fn value_at(given: &[Given], node: usize) -> Option<&[SigBit]>
    ensures value { option_map_or (λ (s : _). Some s.now) result None ≡ value_at given.now node }
{
    for one in given {
        if one.node == node {
            return Some(one.value.as_slice());
        }
    }
    None
}

/// Whether one of the nodes stands from one number on and before another.
pub(crate) fn has_between(given: &[Given], low: usize, high: usize) -> bool
    ensures value { result ≡ has_between given.now low high }
{
    given.iter().any(|one| low <= one.node && one.node < high)
}
