//! Callers of a cache: a seat with the ticket that it has.

ghost use Rattle.std.specs.Prelude.{◌≡◌};
ghost use Rattle.result_cache.specs.Seats.{IsIdle, KeepsTickets};
ghost use Rattle.result_cache.specs.Tickets.{HoldsOnly};
ghost use Rattle.run_table.specs.Callers.{IsCaller};

use result_cache::{Claim, Forget, Keyed, Seat, SharedCache, Ticket};
use rtl_bits::{Copied, Memory, Text};
use std::sync::Wait;

/// A value that keeps the key that it stands for, and a number that tells it from others.
#[derive(Drop)]
pub struct Built {
    pub key: Text,
    pub number: u32,
}

impl Keyed for Built {
    ghost use Rattle.std.specs.Prelude.{◌≡◌};

    ghost stands_for = { λ built key. built.key ≡ key };

    fn share(&self) -> Result<Built, Memory> {
        let key = self.key.copy()?;
        let number = self.number;
        Ok(Built { key, number })
    }
}

/// A seat that has no ticket, or one that has the ticket of this key alone.
pub enum Caller {
    Idle(Seat),
    Holding(Seat, Ticket, Text),
}

/// What a caller is answered.
#[derive(Clone, Copy, PartialEq)]
pub enum Reply {
    Hit(u32),
    Yours,
    Busy(u32),
    /// The value of this number was given up.
    Dropped(u32),
    Free,
    /// The call made no claim.
    Done,
    /// The call is one that this caller may not make, or it had no memory.
    Refused,
}

/// The seat fills its ticket's key.
pub fn fill_key<R: Wait>(
    rt: &R,
    cache: &SharedCache<Built>,
    seat: &mut Seat,
    ticket: Ticket,
    value: Built,
)
    requires cache { seat.old.cache ≡ cache.now.table.shared.table_id }
    requires own { ticket.seat ≡ seat.old.number }
    requires stands { value.key ≡ ticket.key }
    requires one { HoldsOnly ticket.key seat.old.calls }
    ensures idle { IsIdle cache.now.table.shared.table_id seat.new }
{
    cache.fill(rt, seat, ticket, value);
}

/// The seat gives its ticket's key back.
pub fn return_key<R: Wait>(rt: &R, cache: &SharedCache<Built>, seat: &mut Seat, ticket: Ticket)
    requires cache { seat.old.cache ≡ cache.now.table.shared.table_id }
    requires own { ticket.seat ≡ seat.old.number }
    requires one { HoldsOnly ticket.key seat.old.calls }
    ensures idle { IsIdle cache.now.table.shared.table_id seat.new }
{
    cache.give_back(rt, seat, ticket);
}

/// Claims the key for a seat that has no ticket.
#[tactic(auto, using(crate::proofs::CallerLemmas::idle_hit, crate::proofs::CallerLemmas::idle_busy, crate::proofs::CallerLemmas::holding_yours))]
fn claim_idle<R: Wait>(
    rt: &R,
    cache: &SharedCache<Built>,
    seat: Seat,
    key: &Text,
) -> (Caller, Reply)
    requires idle { IsIdle cache.now.table.shared.table_id seat }
    ensures caller { IsCaller cache.now.table.shared.table_id result.0 }
{
    let mut seat = seat;
    let Ok(own) = key.copy() else {
        return (Caller::Idle(seat), Reply::Refused);
    };
    match cache.claim(rt, &mut seat, key) {
        Ok(Claim::Hit(built)) => (Caller::Idle(seat), Reply::Hit(built.number)),
        Ok(Claim::Busy(by)) => (Caller::Idle(seat), Reply::Busy(by)),
        Ok(Claim::Yours(ticket)) => (Caller::Holding(seat, ticket, own), Reply::Yours),
        Err(Memory) => (Caller::Idle(seat), Reply::Refused),
    }
}

/// Claims the key, where the caller has no ticket.
pub fn claim<R: Wait>(
    rt: &R,
    cache: &SharedCache<Built>,
    caller: Caller,
    key: &Text,
) -> (Caller, Reply)
    requires caller { IsCaller cache.now.table.shared.table_id caller }
    ensures caller { IsCaller cache.now.table.shared.table_id result.0 }
{
    match caller {
        Caller::Idle(seat) => claim_idle(rt, cache, seat, key),
        holding => (holding, Reply::Refused),
    }
}

/// Fills the key of the caller's ticket, where it has one.
pub fn fill<R: Wait>(
    rt: &R,
    cache: &SharedCache<Built>,
    caller: Caller,
    number: u32,
) -> (Caller, Reply)
    requires caller { IsCaller cache.now.table.shared.table_id caller }
    ensures caller { IsCaller cache.now.table.shared.table_id result.0 }
{
    match caller {
        Caller::Holding(seat, ticket, key) => {
            let mut seat = seat;
            fill_key(rt, cache, &mut seat, ticket, Built { key, number });
            (Caller::Idle(seat), Reply::Done)
        }
        idle => (idle, Reply::Refused),
    }
}

/// The seat of a caller, which gives its ticket back where it has one. Answers whether it had one.
pub fn give_back<R: Wait>(rt: &R, cache: &SharedCache<Built>, caller: Caller) -> (Seat, bool)
    requires caller { IsCaller cache.now.table.shared.table_id caller }
    ensures idle { IsIdle cache.now.table.shared.table_id result.0 }
{
    match caller {
        Caller::Idle(seat) => (seat, false),
        Caller::Holding(seat, ticket, _key) => {
            let mut seat = seat;
            return_key(rt, cache, &mut seat, ticket);
            (seat, true)
        }
    }
}

/// Waits until the other caller does not hold the key, where this one has no ticket.
#[tactic(auto, using(crate::proofs::CallerLemmas::idle_waited))]
pub fn wait<R: Wait>(
    rt: &R,
    cache: &SharedCache<Built>,
    caller: Caller,
    key: &Text,
) -> (Caller, Reply)
    requires caller { IsCaller cache.now.table.shared.table_id caller }
    ensures caller { IsCaller cache.now.table.shared.table_id result.0 }
{
    match caller {
        Caller::Idle(seat) => {
            let mut seat = seat;
            cache.wait_key(rt, &mut seat, key);
            (Caller::Idle(seat), Reply::Done)
        }
        holding => (holding, Reply::Refused),
    }
}

/// What a caller is answered that gives up a value.
fn reply_to(answer: Forget<Built>) -> Reply {
    match answer {
        Forget::Dropped(built) => Reply::Dropped(built.number),
        Forget::Free => Reply::Free,
        Forget::Busy(by) => Reply::Busy(by),
    }
}

/// The seat gives up the value of the key.
fn forget_key<R: Wait>(rt: &R, cache: &SharedCache<Built>, seat: &mut Seat, key: &Text) -> Reply
    requires cache { seat.old.cache ≡ cache.now.table.shared.table_id }
    ensures kept { KeepsTickets seat.old seat.new }
{
    reply_to(cache.forget(rt, seat, key))
}

/// Gives up the value of the key, whether the caller has a ticket or not.
#[tactic(auto, using(crate::proofs::CallerLemmas::still_idle, crate::proofs::CallerLemmas::still_holding))]
pub fn forget<R: Wait>(
    rt: &R,
    cache: &SharedCache<Built>,
    caller: Caller,
    key: &Text,
) -> (Caller, Reply)
    requires caller { IsCaller cache.now.table.shared.table_id caller }
    ensures caller { IsCaller cache.now.table.shared.table_id result.0 }
{
    match caller {
        Caller::Idle(seat) => {
            let mut seat = seat;
            let reply = forget_key(rt, cache, &mut seat, key);
            (Caller::Idle(seat), reply)
        }
        Caller::Holding(seat, ticket, own) => {
            let mut seat = seat;
            let reply = forget_key(rt, cache, &mut seat, key);
            (Caller::Holding(seat, ticket, own), reply)
        }
    }
}
