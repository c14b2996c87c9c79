//! Eight seats at a cache, on as many threads.

ghost use Rattle.std.specs.Prelude.{◌<◌, length};
ghost use Rattle.result_cache.specs.Seats.{IsIdle, AreIdle};

use crate::shared::callers::{Built, fill_key};
use result_cache::{Claim, Opened, Seat, SeatCalls, SharedCache};
use rtl_bits::{Copied, Memory, Text};
use std::alloc::Global;
use std::sync::Wait;
use std::thread;
use std::thread::Threads;

/// How often each of the eight seats claims.
const CLAIMS: usize = 1_250;

/// The seat claims the key, and fills it where it gets the ticket.
#[tactic(auto, using(crate::proofs::CallerLemmas::idle_hit, crate::proofs::CallerLemmas::idle_busy, crate::proofs::CallerLemmas::yours_own, crate::proofs::CallerLemmas::yours_key, crate::proofs::CallerLemmas::yours_cache, crate::proofs::CallerLemmas::yours_one))]
fn turn<R: Wait>(rt: &R, cache: &SharedCache<Built>, seat: &mut Seat, key: &Text)
    requires idle { IsIdle cache.now.table.shared.table_id seat.old }
    ensures idle { IsIdle cache.now.table.shared.table_id seat.new }
{
    let Ok(own) = key.copy() else {
        return;
    };
    match cache.claim(rt, seat, key) {
        Ok(Claim::Yours(ticket)) => {
            let value = Built {
                key: own,
                number: 7,
            };
            fill_key(rt, cache, seat, ticket, value);
        }
        Ok(Claim::Hit(_value)) => {}
        Ok(Claim::Busy(_by)) => {}
        Err(Memory) => {}
    }
}

/// The seat claims the keys in turn, beginning with a key of its own.
fn turns<R: Wait>(rt: &R, cache: &SharedCache<Built>, keys: &[Text], first: usize, seat: &mut Seat)
    requires some { 0 < length keys.now }
    requires idle { IsIdle cache.now.table.shared.table_id seat.old }
    ensures idle { IsIdle cache.now.table.shared.table_id seat.new }
{
    for number in 0..CLAIMS {
        let at = number.wrapping_add(first) % keys.len();
        turn(rt, cache, seat, &keys[at]);
    }
}

/// Each seat claims on a thread of its own.
fn work<R: Threads + Wait + Sync>(
    rt: &R,
    cache: &SharedCache<Built>,
    keys: &[Text],
    seats: &mut [Seat],
)
    requires some { 0 < length keys.now }
    requires idle { AreIdle cache.now.table.shared.table_id seats.old }
    ensures idle { AreIdle cache.now.table.shared.table_id seats.new }
{
    thread::for_each_mut(
        rt,
        seats,
        8,
        &|at: usize, seat: &mut Seat|
            requires { (0 < length keys.now) × IsIdle cache.now.table.shared.table_id seat.now }
            ensures { IsIdle cache.entry.now.table.shared.table_id seat.exit.now }
        { turns(rt, cache, keys, at, seat) },
    );
}

/// Each seat claims on a thread of its own, and then they meet.
fn work_and_meet<R: Threads + Wait + Sync>(
    rt: &R,
    cache: &SharedCache<Built>,
    keys: &[Text],
    seats: &mut [Seat],
)
    requires some { (0 < length keys.now) × (0 < length seats.old) × (0 < cache.now.shards) }
    requires idle { AreIdle cache.now.table.shared.table_id seats.old }
    ensures idle { AreIdle cache.now.table.shared.table_id seats.new }
{
    work(rt, cache, keys, seats);
    cache.meet(rt, seats);
}

/// Ends the seats, and adds up their claims, fillings and givings back, and the values that they gave up.
fn ended<R: Wait>(rt: &R, cache: &SharedCache<Built>, mut seats: Vec<Seat>) -> (u64, u64, u64, u64)
    requires idle { AreIdle cache.now.table.shared.table_id seats.items }
{
    let mut sums = (0u64, 0u64, 0u64, 0u64);
    while let Some(seat) = seats.pop() {
        let SeatCalls {
            claims,
            fills,
            give_backs,
            drops,
        } = cache.end(rt, seat);
        sums.0 = sums.0.saturating_add(claims);
        sums.1 = sums.1.saturating_add(fills);
        sums.2 = sums.2.saturating_add(give_backs);
        sums.3 = sums.3.saturating_add(drops);
    }
    sums
}

/// Whether eight seats over two shards fill each of 100 keys once, whatever the schedule.
pub fn are_counted<R: Threads + Wait + Sync>(rt: &R, alloc: Global) -> Result<bool, Memory> {
    let mut keys = Vec::new(alloc);
    for byte in 0..100 {
        keys.push(Text::from_slice(alloc, [byte].as_slice())?)?;
    }
    if keys.is_empty() {
        return Ok(false);
    }
    let Opened { cache, mut seats } = SharedCache::make(alloc, 8, 2)?;
    work_and_meet(rt, &cache, keys.as_slice(), seats.as_mut_slice());
    Ok(ended(rt, &cache, seats) == (10_000, 100, 0, 0))
}
