//! What is done under the lock of a shard.
//!
//! Word i of the table is the lock of shard i: 0 where it is free, 1 where it is taken. The words after
//! those count the fillings and givings back of each shard, for threads that wait for a key.

ghost use Rattle.std.specs.Prelude.{◌≡◌, ◌≢◌, ◌<◌, ℕ, [], ◌∷◌, length, true, IfOk, OnErr};
ghost use Rattle.result_cache.specs.declared.call.Act.TheVariants.{Fill, GiveBack};
ghost use Rattle.result_cache.specs.History.{held};
ghost use Rattle.result_cache.specs.Stored.{mode_at, AddsCall};
ghost use Rattle.result_cache.specs.Claims.{Claimed, Forgot, IfDropped, IfHit};
ghost use Rattle.result_cache.specs.Shared.{TakenIf, Entered, MayGive, MayGiveUp, Holds, Swaps, view_of, seat_of};
ghost use Rattle.result_cache.specs.Shared.{released, alone};
ghost use Rattle.result_cache.specs.Seats.{first_view};

use crate::cache::SharedCache;
use crate::keyed::Keyed;
use crate::shard::{Claim, Forget, Shard, Ticket};
use crate::view::{Gives, GivesUp, Takes, Tells, View};
use atomic_table::{Badge, Seat as Pass};
use rtl_bits::{Memory, Text};
use std::sync::Wait;

impl<V: Keyed> SharedCache<V> {
    // Takes the lock of a shard, with the shard, for the seat of the badge.
    pub(crate) fn enter<R: Wait>(
        &self,
        rt: &R,
        badge: Badge<View>,
        at: usize,
    ) -> Pass<Shard<V>, View>
        requires cache { badge.table_id ≡ self.now.table.shared.table_id }
        requires view { badge.views ≡ view_of (seat_of (first_view badge.views) ∷ []) ∷ [] }
        requires within { at < self.now.shards }
        ensures cache { result.table_id ≡ badge.table_id }
        ensures entered { Entered V (seat_of (first_view badge.views)) at result.me }
    {
        let mut pass = badge.into_seat::<Shard<V>>();
        self.take(rt, &mut pass, at);
        pass
    }

    // Takes the lock of a shard, with the shard.
    pub(crate) fn take<R: Wait>(&self, rt: &R, pass: &mut Pass<Shard<V>, View>, at: usize)
        requires cache { pass.old.table_id ≡ self.now.table.shared.table_id }
        requires view { pass.old.me ≡ (view_of (seat_of pass.old.me.0 ∷ []), []) }
        requires within { at < self.now.shards }
        ensures cache { pass.new.table_id ≡ pass.old.table_id }
        ensures taken { TakenIf V at true pass.old.me pass.new.me }
    {
        for _ in rt.forever() {
            if self.table.shared.compare_exchange::<Takes>(pass, at, 0, 1) == 0 {
                return;
            }
            self.table.shared.park(rt, at, 1);
        }
        unreachable!()
    }

    // Gives the lock back, with the shard, on which the seat may have made calls.
    pub(crate) fn give(&self, mut pass: Pass<Shard<V>, View>, at: usize) -> Badge<View>
        requires cache { pass.table_id ≡ self.now.table.shared.table_id }
        requires within { at < self.now.shards }
        requires shard { MayGive V at pass.me }
        ensures cache { result.table_id ≡ pass.table_id }
        ensures given { result.views ≡ released pass.me ∷ [] }
    {
        self.table.shared.store::<Gives>(&mut pass, at, 0);
        self.table.shared.wake_one(at);
        pass.into_badge()
    }

    // Gives the lock back, with the shard as it was, and leaves the seat as it was.
    pub(crate) fn give_up(&self, mut pass: Pass<Shard<V>, View>, at: usize) -> Badge<View>
        requires cache { pass.table_id ≡ self.now.table.shared.table_id }
        requires within { at < self.now.shards }
        requires shard { MayGiveUp V at pass.me }
        ensures cache { result.table_id ≡ pass.table_id }
        ensures given { result.views ≡ alone pass.me.0 ∷ [] }
    {
        self.table.shared.store::<GivesUp>(&mut pass, at, 0);
        self.table.shared.wake_one(at);
        pass.into_badge()
    }

    // Asks for the key, under the lock of its shard.
    pub(crate) fn claim_under(
        &self,
        pass: &mut Pass<Shard<V>, View>,
        at: usize,
        number: u32,
        key: &Text,
    ) -> Result<Claim<V>, Memory>
        requires cache { pass.old.table_id ≡ self.now.table.shared.table_id }
        requires shard { Holds V at pass.old.me (λ y. mode_at y key.now ≢ held number) }
        ensures cache { pass.new.table_id ≡ pass.old.table_id }
        ensures swaps { Swaps V at pass.old.me pass.new.me (λ y z.
            IfOk result (λ claim. Claimed y z number key.now claim) ×
            IfOk result (λ claim. IfHit claim (λ value. V.stands_for value key.now)) ×
            OnErr result (z ≡ y)) }
    {
        let shard = pass.slot_mut(&self.table.shared, at);
        shard.claim(number, key)
    }

    // Fills the ticket's key, under the lock of its shard, and wakes those who wait for it.
    pub(crate) fn fill_under(
        &self,
        pass: &mut Pass<Shard<V>, View>,
        at: usize,
        number: u32,
        ticket: Ticket,
        value: V,
    )
        requires cache { pass.old.table_id ≡ self.now.table.shared.table_id }
        requires within { at < self.now.shards }
        requires shard { Holds V at pass.old.me (λ y. mode_at y ticket.key ≡ held number) }
        requires stands { V.stands_for value ticket.key }
        ensures cache { pass.new.table_id ≡ pass.old.table_id }
        ensures swaps { Swaps V at pass.old.me pass.new.me (λ y z.
            AddsCall y z number ticket.key (Fill (length y.history))) }
    {
        self.tell(pass, at);
        let shard = pass.slot_mut(&self.table.shared, at);
        shard.fill(number, ticket, value);
    }

    // Gives the ticket's key back, under the lock of its shard, and wakes those who wait for it.
    pub(crate) fn give_back_under(
        &self,
        pass: &mut Pass<Shard<V>, View>,
        at: usize,
        number: u32,
        ticket: Ticket,
    )
        requires cache { pass.old.table_id ≡ self.now.table.shared.table_id }
        requires within { at < self.now.shards }
        requires shard { Holds V at pass.old.me (λ y. mode_at y ticket.key ≡ held number) }
        ensures cache { pass.new.table_id ≡ pass.old.table_id }
        ensures swaps { Swaps V at pass.old.me pass.new.me (λ y z. AddsCall y z number ticket.key GiveBack) }
    {
        self.tell(pass, at);
        let shard = pass.slot_mut(&self.table.shared, at);
        shard.give_back(number, ticket);
    }

    // Gives up the value of the key, under the lock of its shard.
    pub(crate) fn forget_under(
        &self,
        pass: &mut Pass<Shard<V>, View>,
        at: usize,
        number: u32,
        key: &Text,
    ) -> Forget<V>
        requires cache { pass.old.table_id ≡ self.now.table.shared.table_id }
        requires shard { Holds V at pass.old.me (λ y. Unit {0}) }
        ensures cache { pass.new.table_id ≡ pass.old.table_id }
        ensures swaps { Swaps V at pass.old.me pass.new.me (λ y z.
            Forgot y z number key.now result × IfDropped result (λ value. V.stands_for value key.now)) }
    {
        let shard = pass.slot_mut(&self.table.shared, at);
        shard.forget(number, key)
    }

    // Whether no other seat holds the key, under the lock of its shard.
    pub(crate) fn is_free_for(
        &self,
        pass: &mut Pass<Shard<V>, View>,
        at: usize,
        number: u32,
        key: &Text,
    ) -> bool
        requires cache { pass.old.table_id ≡ self.now.table.shared.table_id }
        requires shard { Holds V at pass.old.me (λ y. Unit {0}) }
        ensures cache { pass.new.table_id ≡ pass.old.table_id }
        ensures swaps { Swaps V at pass.old.me pass.new.me (λ y z.
            (z ≡ y) × (result ≡ true → (by : ℕ) → mode_at y key.now ≡ held by → by ≡ number)) }
    {
        let shard = pass.slot_mut(&self.table.shared, at);
        match shard.holder(key) {
            Some(by) => by == number,
            None => true,
        }
    }

    // Wakes the threads that wait for a key of this shard.
    pub(crate) fn tell(&self, pass: &mut Pass<Shard<V>, View>, at: usize)
        requires cache { pass.old.table_id ≡ self.now.table.shared.table_id }
        requires within { at < self.now.shards }
        ensures cache { pass.new.table_id ≡ pass.old.table_id }
        ensures view { pass.new.me ≡ pass.old.me }
    {
        self.table
            .shared
            .fetch_add::<Tells>(pass, self.shards + at, 1);
        self.table.shared.wake_all(self.shards + at);
    }

    // Sleeps while so many keys of this shard were filled or given back, and no more.
    pub(crate) fn sleep<R: Wait>(&self, rt: &R, at: usize, count: u64)
        requires within { at < self.now.shards }
    {
        let low = (count % (1 << 32)) as u32;
        self.table.shared.park(rt, self.shards + at, low);
    }
}
