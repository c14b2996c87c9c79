//! A new cache, and its seats.

ghost use Rattle.std.specs.Prelude.{◌≡◌, ◌+◌, ◌<◌, ◌≤◌, [], ◌∷◌, length, IfOk};
ghost use Rattle.result_cache.specs.Shared.{AreUncalled, view_of, seat_of, all_seats};
ghost use Rattle.result_cache.specs.Seats.{IsNew, seat_at, first_view, new_seats};

use crate::cache::SharedCache;
use crate::keyed::Keyed;
use crate::seat::Seat;
use crate::shard::Shard;
use crate::view::{Parts, View};
use atomic_table::{Badge, Seat as Pass, Table};
use rtl_bits::Memory;
use std::alloc::Global;

/// A new cache, and its seats in the order of their numbers.
#[derive(Drop)]
pub struct Opened<V: Keyed> {
    pub cache: SharedCache<V>,
    pub seats: Vec<Seat>,
}

impl<V: Keyed> SharedCache<V> {
    /// A cache of so many shards, in which every key is free, with a seat for each of so many callers.
    pub fn make(alloc: Global, callers: u32, shards: u32) -> Result<Opened<V>, Memory>
        requires callers { (1 ≤ callers) × (callers ≤ 64) }
        requires shards { (1 ≤ shards) × (shards ≤ 64) }
        ensures shards { IfOk result (λ opened. opened.cache.shards ≡ shards) }
        ensures seats { IfOk result (λ opened.
            opened.seats.items ≡ new_seats opened.cache.table.shared.table_id callers shards) }
    {
        let shards = shards as usize;
        let words = zeros(alloc, shards + shards)?;
        let slots = empty_shards(alloc, shards)?;
        let (cache, dealer) = SharedCache::open(alloc, callers, words.as_slice(), slots)?;
        let seats = cache.deal(alloc, dealer, callers)?;
        Ok(Opened { cache, seats })
    }

    // The table of the shards, with the view of all seats.
    fn open(
        alloc: Global,
        callers: u32,
        words: &[u64],
        slots: Vec<Shard<V>>,
    ) -> Result<(SharedCache<V>, Pass<Shard<V>, View>), Memory>
        requires words { length words.now ≡ length slots.items + length slots.items }
        requires some { (0 < length slots.items) × (length slots.items ≤ 64) }
        requires new { AreUncalled slots.items }
        ensures shards { IfOk result (λ opened. opened.0.shards ≡ length slots.items) }
        ensures cache { IfOk result (λ opened. opened.1.table_id ≡ opened.0.table.shared.table_id) }
        ensures view { IfOk result (λ opened. opened.1.me ≡ (all_seats callers (length slots.items), [])) }
    {
        let shards = slots.len();
        match Table::new(alloc, words, slots, &(callers, shards)) {
            Ok((table, dealer)) => Ok((SharedCache { table, shards }, dealer)),
            Err(_) => Err(Memory),
        }
    }

    // Hands out the seats.
    fn deal(
        &self,
        alloc: Global,
        mut dealer: Pass<Shard<V>, View>,
        callers: u32,
    ) -> Result<Vec<Seat>, Memory>
        requires cache { dealer.table_id ≡ self.now.table.shared.table_id }
        requires view { dealer.me ≡ (all_seats callers self.now.shards, []) }
        ensures seats { IfOk result (λ seats.
            seats.items ≡ new_seats self.now.table.shared.table_id callers self.now.shards) }
    {
        let mut seats = Vec::new(alloc);
        for number in 0..callers {
            let pass = self.table.shared.split_seat::<Parts>(&mut dealer);
            seats.push(new_seat(number, pass.into_badge()))?;
        }
        Ok(seats)
    }
}

// A seat that made no call.
fn new_seat(number: u32, badge: Badge<View>) -> Seat
    requires views { badge.views ≡ view_of (seat_of (first_view badge.views) ∷ []) ∷ [] }
    requires seat { IsNew number badge.table_id (seat_of (first_view badge.views)) }
    ensures value { result ≡ seat_at badge.table_id (seat_of (first_view badge.views)) }
{
    Seat {
        number,
        claims: 0,
        fills: 0,
        give_backs: 0,
        drops: 0,
        badge,
    }
}

// So many zeros.
fn zeros(alloc: Global, count: usize) -> Result<Vec<u64>, Memory>
    ensures count { IfOk result (λ words. length words.items ≡ count) }
{
    let mut words = Vec::new(alloc);
    for _ in 0..count {
        words.push(0)?;
    }
    Ok(words)
}

// That many shards on which no call was made.
fn empty_shards<V: Keyed>(alloc: Global, count: usize) -> Result<Vec<Shard<V>>, Memory>
    ensures count { IfOk result (λ shards. length shards.items ≡ count) }
    ensures new { IfOk result (λ shards. AreUncalled shards.items) }
{
    let mut shards = Vec::new(alloc);
    for _ in 0..count {
        shards.push(Shard::make(alloc))?;
    }
    Ok(shards)
}
