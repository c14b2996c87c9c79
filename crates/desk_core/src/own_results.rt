//! The results that one desk keeps itself, and finds in a cache that it shares with other desks.

ghost use Rattle.std.specs.Prelude.{◌≡◌, ◌<◌, ℕ, Bool, [], ◌∷◌, IfOk, OnErr, OnOk, length};
ghost use Rattle.rtl_bits.specs.Counts.{risen};
ghost use Rattle.result_cache.specs.Filled.{HoldsNone, filled_keys, new_count, with_key, with_keys};
ghost use Rattle.result_cache.specs.History.{held};
ghost use Rattle.result_cache.specs.Seats.{IsIdle};
ghost use Rattle.result_cache.specs.Stored.{mode_at};
ghost use Rattle.build_crew.specs.Calls.{HasFound};
ghost use Rattle.build_crew.specs.Forgetting.{without};
ghost use Rattle.build_crew.specs.Kept.{HasStill};
ghost use Rattle.build_crew.specs.Rises.{RisesUpTo};
ghost use Rattle.script_core.specs.Built.{IsValueOf};
ghost use Rattle.script_core.specs.Keys.{key_text};
ghost use Rattle.desk_core.specs.Asked.{IsAsked, asked_key};
ghost use Rattle.desk_core.specs.Netlist.{key_texts};
ghost use Rattle.desk_core.specs.Needed.{ages_after};
ghost use Rattle.desk_core.specs.Results.{AreFound, AreKeys};
ghost use Rattle.desk_core.specs.Solo.{AreOwn, Builds, HoldsNoOther, IsFoundAt};

use crate::ages::Ages;
use crate::kept::Kept;
use crate::key_order::KeyOrder;
use crate::keys::Keys;
use crate::modules::module_count;
use crate::needed::Needed;
use build_crew::{Order, find};
use result_cache::laws::shards_are_sound;
use result_cache::{Claim, Keyed, Seat, Shard, SharedCache, Ticket};
use rtl_bits::{Memory, Steps, Text};
use script_core::Key;
use std::alloc::Global;
use std::sync::Wait;

/// What a desk asks a shared cache with: the runtime of its waiting, the memory, and the cache.
#[derive_where(Clone, Copy)]
pub struct Access<'a, R> {
    pub rt: &'a R,
    pub alloc: Global,
    pub cache: &'a SharedCache<Kept>,
}

/// The results that a desk keeps, under their keys, with the ages of these; and beside each module the result of its
/// key, once it was asked for. All calls on the shard are made by the seat 0.
#[derive(Drop)]
pub struct OwnResults {
    pub shard: Shard<Kept>,
    pub ages: Ages,
    pub found: Vec<Option<Kept>>,
}

/// The result of a key by the shared cache, for two that hold it.
fn find_shared<R: Wait, L>(
    access: &Access<R>,
    order: &KeyOrder,
    seat: &mut Seat,
    meter: &mut Steps<L>,
) -> Result<(Kept, Kept), Memory>
    requires asked { IsAsked order.now }
    requires idle { IsIdle access.now.cache.now.table.shared.table_id seat.old }
    ensures idle { IsIdle access.now.cache.now.table.shared.table_id seat.new }
    ensures key { IfOk result (λ both. both.0.key ≡ asked_key order.now) }
    ensures second { IfOk result (λ both. both.1 ≡ both.0) }
    ensures value { IfOk result (λ both. IsValueOf (asked_key order.now) both.0.outcome) }
    ensures built { OnOk result ((n : ℕ) × (is_new : Bool) × (meter.new ≡ risen meter.old n)
        × HasFound (key_text (asked_key order.now)) is_new seat.old seat.new n) }
    ensures ticks { RisesUpTo 1 meter.old meter.new }
{
    let found = find(access.rt, access.cache, seat, order, meter)?;
    let other = found.value.share()?;
    Ok((found.value, other))
}

/// Finds the result of the key of a ticket of the desk's own shard. The ticket is spent, whatever the answer is.
#[tactic(auto, using(crate::proofs::OwnShard::stands_is))]
fn fill<R: Wait, L>(
    access: &Access<R>,
    shard: &mut Shard<Kept>,
    ticket: Ticket,
    order: &KeyOrder,
    seat: &mut Seat,
    meter: &mut Steps<L>,
) -> Result<Kept, Memory>
    requires asked { IsAsked order.now }
    requires ticket { ticket.key ≡ key_text (asked_key order.now) }
    requires held { mode_at shard.old ticket.key ≡ held 0 }
    requires alone { HoldsNoOther ticket.key shard.old }
    requires idle { IsIdle access.now.cache.now.table.shared.table_id seat.old }
    ensures free { HoldsNone shard.new }
    ensures idle { IsIdle access.now.cache.now.table.shared.table_id seat.new }
    ensures key { IfOk result (λ kept. kept.key ≡ asked_key order.now) }
    ensures value { IfOk result (λ kept. IsValueOf (asked_key order.now) kept.outcome) }
    ensures filled { OnOk result (filled_keys shard.new ≡
        with_key (key_text (asked_key order.now)) (filled_keys shard.old)) }
    ensures err { OnErr result (filled_keys shard.new ≡ filled_keys shard.old) }
    ensures built { OnOk result ((n : ℕ) × (is_new : Bool) × (meter.new ≡ risen meter.old n)
        × HasFound (key_text (asked_key order.now)) is_new seat.old seat.new n) }
    ensures ticks { RisesUpTo 1 meter.old meter.new }
{
    match find_shared(access, order, seat, meter) {
        Ok((kept, other)) => {
            shard.fill(0, ticket, other);
            Ok(kept)
        }
        Err(Memory) => {
            shard.give_back(0, ticket);
            Err(Memory)
        }
    }
}

/// The result of a key, which is kept from then on. The shared cache is asked only where it is not kept.
#[tactic(auto, using(crate::proofs::Rises::rises_none))]
fn take<R: Wait, L>(
    access: &Access<R>,
    shard: &mut Shard<Kept>,
    order: &KeyOrder,
    seat: &mut Seat,
    meter: &mut Steps<L>,
) -> Result<Kept, Memory>
    requires asked { IsAsked order.now }
    requires free { HoldsNone shard.old }
    requires idle { IsIdle access.now.cache.now.table.shared.table_id seat.old }
    ensures free { HoldsNone shard.new }
    ensures idle { IsIdle access.now.cache.now.table.shared.table_id seat.new }
    ensures key { IfOk result (λ result. result.key ≡ asked_key order.now) }
    ensures value { IfOk result (λ result. IsValueOf (asked_key order.now) result.outcome) }
    ensures filled { OnOk result (filled_keys shard.new ≡
        with_key (key_text (asked_key order.now)) (filled_keys shard.old)) }
    ensures err { OnErr result (filled_keys shard.new ≡ filled_keys shard.old) }
    ensures built { OnOk result (Builds (filled_keys shard.old) (key_text (asked_key order.now) ∷ [])
        seat.old seat.new meter.old meter.new) }
    ensures ticks { RisesUpTo (new_count (filled_keys shard.old) (key_text (asked_key order.now) ∷ []))
        meter.old meter.new }
{
    shards_are_sound(shard);
    // The text is let go before the result is built.
    let claim = {
        let text = order.text()?;
        shard.claim(0, &text)?
    };
    match claim {
        Claim::Hit(result) => Ok(result),
        Claim::Yours(ticket) => fill(access, shard, ticket, order, seat, meter),
        Claim::Busy(_) => unreachable!(),
    }
}

/// Finds the result of the module that is asked for, and puts it beside it.
#[tactic(auto, using(crate::proofs::Rises::rises_none))]
fn find_at<R: Wait, L>(
    access: &Access<R>,
    order: &KeyOrder,
    results: &mut OwnResults,
    seat: &mut Seat,
    meter: &mut Steps<L>,
) -> Result<(), Memory>
    requires asked { IsAsked order.now }
    requires own { AreOwn order.now.keys.now.design.now.design order.now.keys.now.script.now results.old }
    requires idle { IsIdle access.now.cache.now.table.shared.table_id seat.old }
    ensures own { AreOwn order.now.keys.now.design.now.design order.now.keys.now.script.now results.new }
    ensures idle { IsIdle access.now.cache.now.table.shared.table_id seat.new }
    ensures ages { results.new.ages ≡ results.old.ages }
    ensures filled { OnOk result (filled_keys results.new.shard ≡
        with_key (key_text (asked_key order.now)) (filled_keys results.old.shard)) }
    ensures found { OnOk result (IsFoundAt results.old.found.items results.new.found.items order.now.at) }
    ensures err { OnErr result (filled_keys results.new.shard ≡ filled_keys results.old.shard) }
    ensures built { OnOk result (Builds (filled_keys results.old.shard) (key_text (asked_key order.now) ∷ [])
        seat.old seat.new meter.old meter.new) }
    ensures ticks { RisesUpTo (new_count (filled_keys results.old.shard) (key_text (asked_key order.now) ∷ []))
        meter.old meter.new }
{
    if results.found[order.at as usize].is_some() {
        return Ok(());
    }
    let result = take(access, &mut results.shard, order, seat, meter)?;
    results.found[order.at as usize] = Some(result);
    Ok(())
}

/// Finds the result of each module, by its key. The ages of the keys stay.
pub fn find_own<R: Wait, L>(
    access: &Access<R>,
    keys: &Keys,
    all: &[Key],
    results: &mut OwnResults,
    seat: &mut Seat,
    meter: &mut Steps<L>,
) -> Result<(), Memory>
    requires keys { AreKeys keys.now.design.now.design keys.now.table.now.modules.now keys.now.script.now all.now }
    requires own { AreOwn keys.now.design.now.design keys.now.script.now results.old }
    requires idle { IsIdle access.now.cache.now.table.shared.table_id seat.old }
    ensures own { AreOwn keys.now.design.now.design keys.now.script.now results.new }
    ensures idle { IsIdle access.now.cache.now.table.shared.table_id seat.new }
    ensures ages { results.new.ages ≡ results.old.ages }
    ensures filled { OnOk result (filled_keys results.new.shard ≡
        with_keys (filled_keys results.old.shard) (key_texts keys.now.script.now keys.now.design.now.design.modules)) }
    ensures found { OnOk result (AreFound results.new.found.items) }
    ensures err { OnErr result (HasStill (filled_keys results.old.shard) (filled_keys results.new.shard)) }
    ensures built { OnOk result (Builds (filled_keys results.old.shard) (key_texts keys.now.script.now
        keys.now.design.now.design.modules) seat.old seat.new meter.old meter.new) }
    ensures ticks { RisesUpTo
        (new_count (filled_keys results.old.shard) (key_texts keys.now.script.now keys.now.design.now.design.modules))
        meter.old meter.new }
{
    for at in 0..module_count(keys.design) {
        let order = KeyOrder {
            alloc: access.alloc,
            keys: &*keys,
            key: &all[at as usize],
            at,
        };
        find_at(access, &order, results, seat, meter)?;
    }
    Ok(())
}

/// Gives up the values of these keys.
#[tactic(auto, using(crate::proofs::OwnShard::gone_first))]
fn give_up_own(shard: &mut Shard<Kept>, keys: &[Text])
    requires free { HoldsNone shard.old }
    ensures free { HoldsNone shard.new }
    ensures kept { filled_keys shard.new ≡ without keys.now (filled_keys shard.old) }
{
    for key in keys {
        shard.forget(0, key);
    }
}

impl OwnResults {
    /// Ends a command that needed the netlist, once all of its memory is taken: the keys that it needed have age 0, the
    /// others are older by one, and the values of those that are too old are given up.
    pub fn end(&mut self, needed: &Needed)
        requires free { HoldsNone self.old.shard }
        requires beside { length needed.now.marks.items ≡ length self.old.ages.ages.items }
        ensures free { HoldsNone self.new.shard }
        ensures found { self.new.found ≡ self.old.found }
        ensures kept { filled_keys self.new.shard ≡ without needed.now.too_old.items (filled_keys self.old.shard) }
        ensures keys { self.new.ages.keys ≡ self.old.ages.keys }
        ensures ages { self.new.ages.ages.items ≡ ages_after needed.now.marks.items self.old.ages.ages.items }
    {
        give_up_own(&mut self.shard, needed.too_old.as_slice());
        self.ages.grow(needed.marks.as_slice());
    }
}
