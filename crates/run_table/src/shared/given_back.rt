//! A job that gives its ticket back and has no memory.

ghost use Rattle.std.specs.Prelude.{◌<◌, ◌≤◌, length};
ghost use Rattle.result_cache.specs.Seats.{AreIdle, IsIdle};

use crate::shared::callers::{Built, Caller, Reply, claim, give_back, return_key};
use result_cache::{Claim, Opened, Seat, SharedCache};
use rtl_bits::{Memory, Steps, Text};
use std::alloc::Global;
use std::marker::{Send, Sync};
use std::sync::Wait;
use std::thread::Threads;
use work_crew::{Job, NoGate, run_jobs};

/// Jobs that each claim the key, give the ticket back where they get it, and have no memory.
#[derive_where(Clone, Copy)]
struct Giving<'a, R> {
    rt: &'a R,
    cache: &'a SharedCache<Built>,
    key: &'a Text,
}

/// The seat claims the key, and gives it back where it gets the ticket.
#[tactic(auto, using(crate::proofs::CallerLemmas::idle_hit, crate::proofs::CallerLemmas::idle_busy, crate::proofs::CallerLemmas::yours_own, crate::proofs::CallerLemmas::yours_key, crate::proofs::CallerLemmas::yours_cache, crate::proofs::CallerLemmas::yours_one))]
fn claim_and_return<R: Wait>(rt: &R, cache: &SharedCache<Built>, seat: &mut Seat, key: &Text)
    requires idle { IsIdle cache.now.table.shared.table_id seat.old }
    ensures idle { IsIdle cache.now.table.shared.table_id seat.new }
{
    match cache.claim(rt, seat, key) {
        Ok(Claim::Yours(ticket)) => return_key(rt, cache, seat, ticket),
        Ok(Claim::Hit(_value)) => {}
        Ok(Claim::Busy(_by)) => {}
        Err(Memory) => {}
    }
}

impl<R: Wait + Sync> Job for Giving<'_, R> {
    type Output = ();

    type Token = Seat;

    ghost use Rattle.result_cache.specs.Seats.{IsIdle};

    ghost is_job = { λ jobs k. Unit {0} };

    ghost token_fits = { λ jobs seat. IsIdle jobs.cache.now.table.shared.table_id seat };

    ghost output_fits = { λ jobs k output. Unit {0} };

    ghost does = { λ jobs k output t u n. Unit {0} };

    ghost fails = { λ jobs k t u n. Unit {0} };

    fn perform<L: Send>(
        &self,
        _number: u32,
        token: &mut Seat,
        _meter: &mut Steps<L>,
    ) -> Result<(), Memory> {
        claim_and_return(self.rt, self.cache, token, self.key);
        Err(Memory)
    }
}

/// Whether a crew of these seats answers that memory was wanting.
fn has_no_memory<'a, R: Threads + Wait + Sync>(
    rt: &'a R,
    alloc: Global,
    cache: &'a SharedCache<Built>,
    key: &'a Text,
    seats: &mut [Seat],
) -> bool
    requires some { 0 < length seats.old }
    requires few { length seats.old ≤ 64 }
    requires idle { AreIdle cache.now.table.shared.table_id seats.old }
{
    let jobs = Giving { rt, cache, key };
    let name = ();
    let mut meter = Steps::make(&name);
    let answer = run_jobs(rt, alloc, &jobs, 2, seats, &NoGate, &mut meter);
    meter.end(&name);
    match answer {
        Ok(_outputs) => false,
        Err(Memory) => true,
    }
}

/// Whether a key that jobs without memory gave back can be claimed by another seat.
pub fn is_free_again<R: Threads + Wait + Sync>(rt: &R, alloc: Global) -> Result<bool, Memory> {
    let key = Text::from_slice(alloc, b"k")?;
    let Opened { cache, mut seats } = SharedCache::make(alloc, 3, 1)?;
    let Some(other) = seats.pop() else {
        return Ok(false);
    };
    let is_without = has_no_memory(rt, alloc, &cache, &key, &mut seats);
    let (caller, reply) = claim(rt, &cache, Caller::Idle(other), &key);
    let (_seat, _had) = give_back(rt, &cache, caller);
    Ok(is_without && reply == Reply::Yours)
}
