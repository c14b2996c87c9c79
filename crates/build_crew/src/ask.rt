//! A seat that asks for a key until it has its value, or its ticket.

ghost use Rattle.std.specs.Prelude.{◌≡◌, IfOk, OnErr};
ghost use Rattle.result_cache.specs.Seats.{IsIdle};
ghost use Rattle.build_crew.specs.Calls.{HasFailed, IsAnswered};

use result_cache::{Claim, Keyed, Seat, SharedCache, Ticket};
use rtl_bits::{Memory, Text};
use std::sync::Wait;

/// What a seat gets that asks for a key.
pub enum Asked<V> {
    /// The value that is kept under the key.
    Hit(V),
    /// The ticket of the key, which was free.
    Yours(Ticket),
}

/// Asks for the key, and waits as long as another seat holds it.
#[tactic(auto, using(crate::proofs::Asking::asking_hit, crate::proofs::Asking::asking_yours))]
pub fn ask<R: Wait, V: Keyed>(
    rt: &R,
    cache: &SharedCache<V>,
    seat: &mut Seat,
    key: &Text,
) -> Result<Asked<V>, Memory>
    requires idle { IsIdle cache.now.table.shared.table_id seat.old }
    ensures ok { IfOk result (λ asked. IsAnswered V.stands_for seat.old seat.new key.now asked) }
    ensures err { OnErr result (HasFailed seat.old seat.new 0) }
    ensures idle { OnErr result (IsIdle cache.now.table.shared.table_id seat.new) }
{
    for _ in rt.forever() {
        match cache.claim(rt, seat, key)? {
            Claim::Hit(value) => return Ok(Asked::Hit(value)),
            Claim::Yours(ticket) => return Ok(Asked::Yours(ticket)),
            Claim::Busy(_by) => cache.wait_key(rt, seat, key),
        }
    }
    unreachable!()
}
