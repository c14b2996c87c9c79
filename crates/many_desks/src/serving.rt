//! Several desks beside each other.

ghost use Rattle.std.specs.Prelude.{◌≡◌, ◌≤◌, ℕ, All, List, IfOk, length};
ghost use Rattle.std.specs.List.{AllZip};
ghost use Rattle.result_cache.specs.Seats.{IsIdle};
ghost use Rattle.many_desks.specs.Replies.{Replies};
ghost use Rattle.many_desks.specs.Serving.{HaveServed};

use crate::desks::Desks;
use crate::table::{Answers, Commands, Table};
use result_cache::{Seat, SharedCache};
use rtl_bits::{Memory, Seq, Steps};
use std::alloc::Global;
use std::marker::{Send, Sync};
use std::sync::Wait;
use std::thread::Threads;
use work_crew::{Gate, Outputs, run_jobs};

/// Answers lists of commands, each from the start on: the desks of the lists work beside each other, with a seat each.
/// A seat that is through with its list takes another that no seat has begun. The gate is called before and after each
/// list, by its number.
pub fn serve<R: Threads + Wait + Sync, T: Table, G: Gate, L: Send>(
    rt: &R,
    alloc: Global,
    table: &T,
    lists: &[Commands<T::Command>],
    cache: &SharedCache<T::Value>,
    seats: &mut [Seat],
    gate: &G,
    meter: &mut Steps<L>,
) -> Result<Answers<T::Reply>, Memory>
    requires limits { (1 ≤ length lists.now) × (length lists.now ≤ 16) }
    requires count { length seats.old ≡ length lists.now }
    requires idle { All (IsIdle cache.now.table.shared.table_id) seats.old }
    ensures idle { All (IsIdle cache.now.table.shared.table_id) seats.new }
    ensures replies { IfOk result (λ answers.
        AllZip (Replies (T.steps table.now) (T.first_state table.now)) lists.now answers) }
    ensures seats { IfOk result (λ answers. (taken : List (List ℕ)) ×
        HaveServed (T.steps table.now) (T.does table.now) (T.first_state table.now) lists.now answers taken seats.old
        seats.new meter.old meter.new) }
{
    let desks = Desks {
        alloc,
        table,
        lists,
        cache,
    };
    let outputs = run_jobs(rt, alloc, &desks, lists.len() as u32, seats, gate, meter)?;
    let Outputs {
        items,
        taken: _taken,
    } = outputs;
    Ok(Seq::from_vec(items))
}
