//! Seats that show that they shared one history of each shard.

ghost use Rattle.std.specs.Prelude.{◌≡◌, ◌<◌, ℕ, List, [], ◌∷◌, length};
ghost use Rattle.result_cache.specs.declared.call.Call.{Call};
ghost use Rattle.result_cache.specs.Shared.{view_of};
ghost use Rattle.result_cache.specs.Seats.{AreSeatsOf};
ghost use Rattle.result_cache.specs.Meet.{HasMet, Gathered, LookedTo};

use crate::cache::SharedCache;
use crate::keyed::Keyed;
use crate::seat::Seat;
use crate::shard::Shard;
use crate::view::{Gathers, Looks, Parts, View};
use atomic_table::{Badge, Seat as Pass};
use std::mem;
use std::sync::Wait;

impl<V: Keyed> SharedCache<V> {
    /// Shows that the seats shared one history of each shard: afterwards each of them has seen a legal
    /// history of each shard, the same for all, that begins with what each of them had seen there, and
    /// that has under each of their numbers just the calls that this seat made there. It takes no memory.
    pub fn meet<R: Wait>(&self, _rt: &R, seats: &mut [Seat])
        requires some { 0 < length seats.old }
        requires cache { AreSeatsOf self.now.table.shared.table_id seats.old }
        ensures met { (i : ℕ) → i < self.now.shards → (log : List Call) × HasMet i log seats.old seats.new }
    {
        if let Some((first, others)) = seats.split_first_mut() {
            let badge = mem::replace(&mut first.badge, Badge::blank());
            let mut pass = badge.into_seat::<Shard<V>>();
            self.gather(&mut pass, others);
            first.badge = pass.into_badge();
        }
    }

    // Looks at each shard for the seats of this pass and for these together.
    #[cycle(gather)]
    fn gather(&self, pass: &mut Pass<Shard<V>, View>, seats: &mut [Seat])
        requires cache { pass.old.table_id ≡ self.now.table.shared.table_id }
        requires view { pass.old.me ≡ (view_of pass.old.me.0.seats, []) }
        requires seats { AreSeatsOf self.now.table.shared.table_id seats.old }
        ensures cache { pass.new.table_id ≡ pass.old.table_id }
        ensures view { pass.new.me ≡ (view_of pass.new.me.0.seats, []) }
        ensures gathered { Gathered self.now.shards pass.old.me.0.seats pass.new.me.0.seats seats.old seats.new }
    {
        match seats.split_first_mut() {
            None => self.look_at_all(pass),
            Some((seat, others)) => self.gather_one(pass, seat, others),
        }
    }

    // Lends the seat's view to the pass, goes on with the others, and gives it back.
    #[cycle(gather)]
    fn gather_one(&self, pass: &mut Pass<Shard<V>, View>, seat: &mut Seat, others: &mut [Seat])
        requires cache { pass.old.table_id ≡ self.now.table.shared.table_id }
        requires view { pass.old.me ≡ (view_of pass.old.me.0.seats, []) }
        requires seat { seat.old.cache ≡ self.now.table.shared.table_id }
        requires others { AreSeatsOf self.now.table.shared.table_id others.old }
        ensures cache { pass.new.table_id ≡ pass.old.table_id }
        ensures view { pass.new.me ≡ (view_of pass.new.me.0.seats, []) }
        ensures gathered { Gathered self.now.shards pass.old.me.0.seats pass.new.me.0.seats
            (seat.old ∷ others.old) (seat.new ∷ others.new) }
    {
        let badge = mem::replace(&mut seat.badge, Badge::blank());
        self.table
            .shared
            .join_seat::<Gathers>(pass, badge.into_seat::<Shard<V>>());
        self.gather(pass, others);
        let own = self.table.shared.split_seat::<Parts>(pass);
        seat.badge = own.into_badge();
    }

    // Looks at the history of each shard.
    fn look_at_all(&self, pass: &mut Pass<Shard<V>, View>)
        requires cache { pass.old.table_id ≡ self.now.table.shared.table_id }
        requires view { pass.old.me ≡ (view_of pass.old.me.0.seats, []) }
        ensures cache { pass.new.table_id ≡ pass.old.table_id }
        ensures view { pass.new.me ≡ (view_of pass.new.me.0.seats, []) }
        ensures looked { LookedTo self.now.shards pass.old.me.0.seats pass.new.me.0.seats }
    {
        for at in 0..self.shards {
            self.table.shared.load::<Looks>(pass, at);
        }
    }
}
