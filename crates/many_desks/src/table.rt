//! What answers the commands of a desk.

ghost use Rattle.std.specs.Prelude.{◌≡◌, ℕ, IfOk, OnErr};
ghost use Rattle.rtl_bits.specs.Counts.{risen};
ghost use Rattle.result_cache.specs.Seats.{IsIdle, Seated};

use result_cache::{Keyed, Seat, SharedCache};
use rtl_bits::{Memory, Seq, Steps};
use std::marker::{Send, Sync};

/// The commands of a desk, in their order.
pub type Commands<C> = Seq<C>;

/// For each desk, its replies in their order.
pub type Answers<R> = Seq<Seq<R>>;

/// What answers the commands of a desk, one after another, with a seat at a cache that other desks share. The state at
/// the start and the steps say what the replies are: the cache does not occur in them.
pub trait Table: Sync {
    type Value: Keyed;

    // A state stays with the worker that made it; that it may go to another thread is asked since a crew is proved only
    // over such types.
    type State: Send + Drop;

    type Command: Sync;

    type Reply: Send + Drop;

    // The state in which a desk starts.
    ghost first_state: { Self → Self.State };
    // The command has this reply in the one state, and leads to the other.
    ghost steps: { Self → Self.Command → Self.State → Self.Reply → Self.State → Type 0 };
    // The command, answered Ok in this state, takes this seat to that one with so many ticks.
    ghost does: { Self → Self.Command → Self.State → Seated → Seated → ℕ → Type 0 };

    /// The state in which a desk starts.
    fn start(&self) -> Result<Self::State, Memory>
        ensures value { IfOk result (λ state. state ≡ first_state self.now) };

    /// Answers a command, and changes the state. It may claim keys of the cache with the seat, and counts on the meter
    /// what it builds.
    fn answer<L>(
        &self,
        state: &mut Self::State,
        command: &Self::Command,
        cache: &SharedCache<Self::Value>,
        seat: &mut Seat,
        meter: &mut Steps<L>,
    ) -> Result<Self::Reply, Memory>
        requires idle { IsIdle cache.now.table.shared.table_id seat.old }
        ensures idle { IsIdle cache.now.table.shared.table_id seat.new }
        ensures step { IfOk result (λ reply. steps self.now command.now state.old reply state.new) }
        ensures ok { IfOk result (λ reply. (n : ℕ) ×
            (meter.new ≡ risen meter.old n) × does self.now command.now state.old seat.old seat.new n) }
        ensures err { OnErr result ((n : ℕ) × (meter.new ≡ risen meter.old n)) };
}
