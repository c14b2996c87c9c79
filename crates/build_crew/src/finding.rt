//! The value of a key: found where it is kept, and else built.

ghost use Rattle.std.specs.Prelude.{◌≡◌, ◌≤◌, ℕ, true, IfOk, OnErr, OnOk, length};
ghost use Rattle.rtl_bits.specs.Counts.{risen};
ghost use Rattle.result_cache.specs.declared.call.Act.TheVariants.{GiveBack};
ghost use Rattle.result_cache.specs.Seats.{HasFilled, IsIdle, Made};
ghost use Rattle.result_cache.specs.Tickets.{HoldsOnly};
ghost use Rattle.build_crew.specs.Calls.{HasFailed, HasFound};
ghost use Rattle.build_crew.specs.Leaves.{new_among};
ghost use Rattle.build_crew.specs.Rises.{RisesUpTo};

use crate::ask::{Asked, ask};
use crate::order::Order;
use result_cache::{Keyed, Seat, SharedCache, Ticket};
use rtl_bits::{Memory, Steps};
use std::sync::Wait;

/// A value that was found, and whether it was built now.
#[derive(Drop)]
pub struct Found<V> {
    pub value: V,
    pub is_new: bool,
}

/// How many of the values were built now.
pub fn built_now<V>(items: &[Found<V>]) -> usize
    requires few { length items.now ≤ 4096 }
    ensures value { result ≡ new_among (λ found. found.is_new) items.now }
{
    let mut built = 0;
    for found in items {
        if found.is_new {
            built += 1;
        }
    }
    built
}

/// A value that is built now, for two that hold it.
fn build_shared<O: Order, L>(
    order: &O,
    meter: &mut Steps<L>,
) -> Result<(O::Value, O::Value), Memory>
    requires buildable { O.is_buildable order.now }
    ensures first { IfOk result (λ both. O.Value.stands_for both.0 (O.text_of order.now)) }
    ensures second { IfOk result (λ both. O.Value.stands_for both.1 (O.text_of order.now)) }
    ensures one_tick { meter.new ≡ risen meter.old 1 }
{
    let value = order.build(meter)?;
    let other = value.share()?;
    Ok((value, other))
}

/// Builds the value of a ticket's key. The ticket is spent, whatever the answer is.
fn fill<R: Wait, O: Order, L>(
    rt: &R,
    cache: &SharedCache<O::Value>,
    seat: &mut Seat,
    ticket: Ticket,
    order: &O,
    meter: &mut Steps<L>,
) -> Result<Found<O::Value>, Memory>
    requires buildable { O.is_buildable order.now }
    requires cache { seat.old.cache ≡ cache.now.table.shared.table_id }
    requires own { ticket.seat ≡ seat.old.number }
    requires key { ticket.key ≡ O.text_of order.now }
    requires one { HoldsOnly (O.text_of order.now) seat.old.calls }
    ensures stands { IfOk result (λ found. O.Value.stands_for found.value (O.text_of order.now)) }
    ensures is_new { IfOk result (λ found. found.is_new ≡ true) }
    ensures filled { OnOk result (HasFilled seat.old seat.new (O.text_of order.now)) }
    ensures given { OnErr result (Made seat.old seat.new (O.text_of order.now) GiveBack) }
    ensures one_tick { meter.new ≡ risen meter.old 1 }
{
    match build_shared(order, meter) {
        Ok((value, other)) => {
            cache.fill(rt, seat, ticket, other);
            Ok(Found {
                value,
                is_new: true,
            })
        }
        Err(Memory) => {
            cache.give_back(rt, seat, ticket);
            Err(Memory)
        }
    }
}

/// Finds the value of a key. It is built where it is not kept and no other seat builds it, and kept from then on; where
/// another seat builds it, this one waits.
#[tactic(auto, using(crate::proofs::Spent::rises_once, crate::proofs::Spent::rises_none))]
pub fn find<R: Wait, O: Order, L>(
    rt: &R,
    cache: &SharedCache<O::Value>,
    seat: &mut Seat,
    order: &O,
    meter: &mut Steps<L>,
) -> Result<Found<O::Value>, Memory>
    requires buildable { O.is_buildable order.now }
    requires idle { IsIdle cache.now.table.shared.table_id seat.old }
    ensures idle { IsIdle cache.now.table.shared.table_id seat.new }
    ensures stands { IfOk result (λ found. O.Value.stands_for found.value (O.text_of order.now)) }
    ensures answer { IfOk result (λ found. O.is_answer order.now found.value) }
    ensures found { IfOk result (λ found. (n : ℕ) ×
        (meter.new ≡ risen meter.old n) × HasFound (O.text_of order.now) found.is_new seat.old seat.new n) }
    ensures failed { OnErr result ((n : ℕ) ×
        (meter.new ≡ risen meter.old n) × HasFailed seat.old seat.new n) }
    ensures ticks { RisesUpTo 1 meter.old meter.new }
{
    // The text is freed before the value is built.
    let asked = {
        let text = order.text()?;
        ask(rt, cache, seat, &text)?
    };
    match asked {
        Asked::Hit(value) => Ok(Found {
            value,
            is_new: false,
        }),
        Asked::Yours(ticket) => fill(rt, cache, seat, ticket, order, meter),
    }
}
