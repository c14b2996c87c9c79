//! Shards that threads share, each behind a lock.

ghost use Rattle.std.specs.Prelude.{◌≡◌, ◌+◌, ◌%◌, ◌<◌, ◌≤◌, true, false, IfOk, OnErr, MatchBool};
ghost use Rattle.result_cache.specs.declared.call.Act.TheVariants.{GiveBack};
ghost use Rattle.result_cache.specs.Tickets.{has_ticket, HoldsNoTicket};
ghost use Rattle.result_cache.specs.Shared.{shard_of};
ghost use Rattle.result_cache.specs.Counts.{claims, fills, give_backs, drops, count_of};
ghost use Rattle.result_cache.specs.Seats.{HasClaimed, HasFilled, HasForgot, HasWaited, Made, capped};

use crate::keyed::Keyed;
use crate::seat::{Seat, SeatCalls};
use crate::shard::{Claim, Forget, Shard, Ticket};
use crate::view::{OneHistory, View};
use atomic_table::{Badge, Table};
use rtl_bits::{Memory, Text};
use std::alloc::Global;
use std::mem;
use std::sync::Wait;

/// Results that are kept under keys, for threads that share them: each thread has a seat. It is made of
/// 1 to 64 shards, each behind a lock; the bytes of a key's text tell its shard.
#[derive(Drop)]
pub struct SharedCache<V: Keyed> {
    pub(crate) table: Table<Shard<V>, View, (u32, usize), OneHistory, Global>,
    pub(crate) shards: usize,
    ghost made: { table.shared.key.1 ≡ shards },
    ghost words: { table.shared.table_id.words ≡ shards + shards },
    ghost slots: { table.shared.table_id.slots ≡ shards },
    ghost some: { (0 < shards) × (shards ≤ 64) },
}

impl<V: Keyed> SharedCache<V> {
    /// Asks for the key. The reply `Yours` takes the memory that the later filling or giving back of the key
    /// needs, and a later giving up of its value. It may wait for the lock of the key's shard. After an error
    /// the seat is as before.
    pub fn claim<R: Wait>(&self, rt: &R, seat: &mut Seat, key: &Text) -> Result<Claim<V>, Memory>
        requires cache { seat.old.cache ≡ self.now.table.shared.table_id }
        requires holds_no_ticket { has_ticket seat.old.calls key.now ≡ false }
        ensures ok { IfOk result (λ claim. HasClaimed V.stands_for seat.old seat.new key.now claim) }
        ensures err { OnErr result (seat.new ≡ seat.old) }
    {
        let at = place_of(key, self.shards);
        let badge = mem::replace(&mut seat.badge, Badge::blank());
        let mut pass = self.enter(rt, badge, at);
        let reply = self.claim_under(&mut pass, at, seat.number, key);
        match reply {
            Ok(claim) => {
                seat.badge = self.give(pass, at);
                seat.claims = seat.claims.saturating_add(1);
                Ok(claim)
            }
            Err(memory) => {
                seat.badge = self.give_up(pass, at);
                Err(memory)
            }
        }
    }

    /// Fills the ticket's key with a value. It takes no memory, and may wait for the lock of the key's
    /// shard.
    pub fn fill<R: Wait>(&self, rt: &R, seat: &mut Seat, ticket: Ticket, value: V)
        requires cache { seat.old.cache ≡ self.now.table.shared.table_id }
        requires own { ticket.seat ≡ seat.old.number }
        requires holds_ticket { has_ticket seat.old.calls ticket.key ≡ true }
        requires stands { V.stands_for value ticket.key }
        ensures filled { HasFilled seat.old seat.new ticket.key }
    {
        let at = place_of(&ticket.key, self.shards);
        let badge = mem::replace(&mut seat.badge, Badge::blank());
        let mut pass = self.enter(rt, badge, at);
        self.fill_under(&mut pass, at, seat.number, ticket, value);
        seat.badge = self.give(pass, at);
        seat.fills = seat.fills.saturating_add(1);
    }

    /// Gives the ticket's key back: it is free again. It takes no memory, and may wait for the lock of
    /// the key's shard.
    pub fn give_back<R: Wait>(&self, rt: &R, seat: &mut Seat, ticket: Ticket)
        requires cache { seat.old.cache ≡ self.now.table.shared.table_id }
        requires own { ticket.seat ≡ seat.old.number }
        requires holds_ticket { has_ticket seat.old.calls ticket.key ≡ true }
        ensures given_back { Made seat.old seat.new ticket.key GiveBack }
    {
        let at = place_of(&ticket.key, self.shards);
        let badge = mem::replace(&mut seat.badge, Badge::blank());
        let mut pass = self.enter(rt, badge, at);
        self.give_back_under(&mut pass, at, seat.number, ticket);
        seat.badge = self.give(pass, at);
        seat.give_backs = seat.give_backs.saturating_add(1);
    }

    /// Gives up the value of the key, which is free then. A key that is free or held stays so, and the seat has
    /// seen that it is. It takes no memory, and may wait for the lock of the key's shard.
    pub fn forget<R: Wait>(&self, rt: &R, seat: &mut Seat, key: &Text) -> Forget<V>
        requires cache { seat.old.cache ≡ self.now.table.shared.table_id }
        ensures forgot { HasForgot V.stands_for seat.old seat.new key.now result }
    {
        let place = place_of(key, self.shards);
        let badge = mem::replace(&mut seat.badge, Badge::blank());
        let mut pass = self.enter(rt, badge, place);
        let answer = self.forget_under(&mut pass, place, seat.number, key);
        match answer {
            Forget::Dropped(value) => {
                seat.badge = self.give(pass, place);
                seat.drops = seat.drops.saturating_add(1);
                Forget::Dropped(value)
            }
            stays => {
                seat.badge = self.give(pass, place);
                stays
            }
        }
    }

    /// Waits until no other seat holds the key, and returns after a moment at which none did.
    pub fn wait_key<R: Wait>(&self, rt: &R, seat: &mut Seat, key: &Text)
        requires cache { seat.old.cache ≡ self.now.table.shared.table_id }
        ensures waited { HasWaited seat.old seat.new key.now }
    {
        let place = place_of(key, self.shards);
        for _ in rt.forever() {
            if self.look(rt, seat, key, place) {
                return;
            }
        }
        unreachable!()
    }

    // Answers true where no other seat holds the key, and has then seen the history of its shard. Else
    // it sleeps until a key of that shard is filled or given back, and leaves the seat as it was.
    fn look<R: Wait>(&self, rt: &R, seat: &mut Seat, key: &Text, at: usize) -> bool
        requires cache { seat.old.cache ≡ self.now.table.shared.table_id }
        requires within { at < self.now.shards }
        requires place { at ≡ shard_of self.now.shards key.now }
        ensures looked { MatchBool result (HasWaited seat.old seat.new key.now) (seat.new ≡ seat.old) }
    {
        let badge = mem::replace(&mut seat.badge, Badge::blank());
        let mut pass = self.enter(rt, badge, at);
        let free = self.is_free_for(&mut pass, at, seat.number, key);
        if free {
            seat.badge = self.give(pass, at);
            return true;
        }
        let count = self.table.shared.peek(self.shards + at);
        seat.badge = self.give_up(pass, at);
        self.sleep(rt, at, count);
        false
    }

    /// Ends the seat, and answers how many claims, fillings and givings back it made, and how many values it gave
    /// up. It takes no memory.
    pub fn end<R: Wait>(&self, _rt: &R, seat: Seat) -> SeatCalls
        requires cache { seat.cache ≡ self.now.table.shared.table_id }
        requires holds_no_ticket { HoldsNoTicket seat.calls }
        ensures claims { result.claims ≡ capped (count_of claims seat.calls) }
        ensures fills { result.fills ≡ capped (count_of fills seat.calls) }
        ensures give_backs { result.give_backs ≡ capped (count_of give_backs seat.calls) }
        ensures drops { result.drops ≡ capped (count_of drops seat.calls) }
    {
        SeatCalls {
            claims: seat.claims,
            fills: seat.fills,
            give_backs: seat.give_backs,
            drops: seat.drops,
        }
    }
}

/// A sum of bytes that is greater is brought below the number of shards before the next byte.
const MOST: usize = 1 << 20;

/// The sum, or where it is large what dividing it by so many leaves.
fn lowered(sum: usize, shards: usize) -> usize
    requires some { (0 < shards) × (shards ≤ 64) }
    ensures small { result ≤ 1048576 }
    ensures same { result % shards ≡ sum % shards }
{
    if sum > MOST { sum % shards } else { sum }
}

/// The shard of a key, of so many.
fn place_of(key: &Text, shards: usize) -> usize
    requires some { (0 < shards) × (shards ≤ 64) }
    ensures within { result < shards }
    ensures place { result ≡ shard_of shards key.now }
{
    let text = key.as_slice();
    let mut sum = 0;
    for byte in text {
        sum = lowered(sum, shards) + usize::from(*byte);
    }
    sum % shards
}
