//! Results: those that are kept under their keys, and beside each module that of its key.

ghost use Rattle.std.specs.Prelude.{◌≡◌, ℕ, List, IfOk, OnErr, OnOk, Some, length, map};
ghost use Rattle.result_cache.specs.Counts.{claims};
ghost use Rattle.result_cache.specs.Filled.{new_count, with_keys};
ghost use Rattle.build_crew.specs.Forgetting.{GaveUp, without};
ghost use Rattle.build_crew.specs.Kept.{given_back, kept_by, times_by};
ghost use Rattle.build_crew.specs.Leaves.{HasRun, HasStopped, new_among};
ghost use Rattle.build_crew.specs.Rises.{RisesUpTo};
ghost use Rattle.build_crew.specs.declared.finding.Found.{Found};
ghost use Rattle.script_core.specs.declared.built.Built.{Built};
ghost use Rattle.desk_core.specs.Builds.{BuildsOrReturns, HasClaims};
ghost use Rattle.desk_core.specs.Needed.{ages_after};
ghost use Rattle.desk_core.specs.Netlist.{key_texts};
ghost use Rattle.desk_core.specs.Results.{AreAnswers, AreFound, AreSeated, AreSound, AreKeys};
ghost use Rattle.desk_core.specs.Standing.{StandsFor};

use crate::ages::Ages;
use crate::crew::Crew;
use crate::crew_jobs::CrewJobs;
use crate::kept::Kept;
use crate::keys::Keys;
use crate::needed::Needed;
use build_crew::Found;
use result_cache::{Seat, SharedCache};
use rtl_bits::{Memory, Steps, Text};
use script_core::Key;
use std::marker::{Send, Sync};
use std::sync::Wait;
use std::thread::Threads;
use work_crew::Gate;

/// Results under their keys, in a cache with a seat for each worker, with the ages of the keys that are kept; and
/// beside each module the result of its key, once it was asked for.
#[derive(Drop)]
pub struct Results {
    pub cache: SharedCache<Kept>,
    pub seats: Vec<Seat>,
    pub ages: Ages,
    pub found: Vec<Option<Kept>>,
}

/// Puts the results that were found beside their modules. It takes no memory.
fn put_beside(found: &mut [Option<Kept>], items: Vec<Found<Kept>>)
    requires count { length items.items ≡ length found.old }
    ensures beside { found.new ≡ map (λ (item : Found Built). Some item.value) items.items }
{
    let mut items = items;
    while let Some(item) = items.pop() {
        found[items.len()] = Some(item.value);
    }
}

/// Finds the result of each key by a crew with a worker for each of the cache's seats.
fn found_by<R: Threads + Wait + Sync, G: Gate, L: Send>(
    crew: &Crew<R, G>,
    keys: &Keys,
    all: &[Key],
    cache: &SharedCache<Kept>,
    seats: &mut [Seat],
    meter: &mut Steps<L>,
) -> Result<Vec<Found<Kept>>, Memory>
    requires seats { AreSeated cache.now.table.shared.table_id cache.now.shards seats.old }
    requires keys { AreKeys keys.now.design.now.design keys.now.table.now.modules.now keys.now.script.now all.now }
    ensures seats { AreSeated cache.now.table.shared.table_id cache.now.shards seats.new }
    ensures count { IfOk result (λ items. length items.items ≡ length keys.now.design.now.design.modules) }
    ensures answers { IfOk result (λ items.
        AreAnswers keys.now.script.now keys.now.design.now.design.modules items.items) }
    ensures ok { IfOk result (λ items. HasRun (key_texts keys.now.script.now keys.now.design.now.design.modules)
        (new_among (λ item. item.is_new) items.items) seats.old seats.new meter.old meter.new) }
    ensures err { OnErr result (HasStopped (key_texts keys.now.script.now keys.now.design.now.design.modules) seats.old
        seats.new meter.old meter.new) }
{
    let jobs = CrewJobs {
        rt: crew.rt,
        alloc: crew.alloc,
        cache,
        keys,
        all,
    };
    jobs.run(crew.gate, seats, meter)
}

/// Finds the result of each module, by its key: what the cache does not have is built.
pub fn find_all<R: Threads + Wait + Sync, G: Gate, L: Send>(
    crew: &Crew<R, G>,
    keys: &Keys,
    all: &[Key],
    results: &mut Results,
    meter: &mut Steps<L>,
) -> Result<(), Memory>
    requires keys { AreKeys keys.now.design.now.design keys.now.table.now.modules.now keys.now.script.now all.now }
    requires sound { AreSound keys.now.design.now.design keys.now.script.now results.old }
    ensures sound { AreSound keys.now.design.now.design keys.now.script.now results.new }
    ensures ages { results.new.ages ≡ results.old.ages }
    ensures filled { OnOk result (kept_by results.new.seats.items ≡
        with_keys (kept_by results.old.seats.items)
        (key_texts keys.now.script.now keys.now.design.now.design.modules)) }
    ensures found { OnOk result (AreFound results.new.found.items) }
    ensures claims { OnOk result (HasClaims (key_texts keys.now.script.now keys.now.design.now.design.modules)
        results.old.seats.items results.new.seats.items) }
    ensures ticks { OnOk result (RisesUpTo
        (new_count (kept_by results.old.seats.items) (key_texts keys.now.script.now keys.now.design.now.design.modules))
        meter.old meter.new) }
    ensures returned { BuildsOrReturns
        (new_count (kept_by results.old.seats.items) (key_texts keys.now.script.now keys.now.design.now.design.modules))
        results.old.seats.items results.new.seats.items meter.old meter.new }
{
    let items = found_by(
        crew,
        keys,
        all,
        &results.cache,
        results.seats.as_mut_slice(),
        meter,
    )?;
    put_beside(results.found.as_mut_slice(), items);
    Ok(())
}

/// Has the seat give up the values of these keys.
#[tactic(auto, using(crate::proofs::Giving::gives_first, crate::proofs::Giving::gives_at))]
fn give_up_all<R: Wait>(rt: &R, cache: &SharedCache<Kept>, seat: &mut Seat, keys: &[Text])
    requires cache { seat.old.cache ≡ cache.now.table.shared.table_id }
    ensures gave_up { GaveUp (λ built text. StandsFor built text) keys.now seat.old seat.new }
{
    for key in keys {
        cache.forget(rt, seat, key);
    }
}

impl Results {
    /// Ends a command that needed the netlist, once all of its memory is taken: the keys that it needed have age 0, the
    /// others are older by one, and the values of those that are too old are given up by the seat of the first worker.
    pub fn end<R: Wait>(&mut self, rt: &R, needed: &Needed)
        requires seats { AreSeated self.old.cache.table.shared.table_id self.old.cache.shards self.old.seats.items }
        requires beside { length needed.now.marks.items ≡ length self.old.ages.ages.items }
        ensures seats { AreSeated self.new.cache.table.shared.table_id self.new.cache.shards self.new.seats.items }
        ensures found { self.new.found ≡ self.old.found }
        ensures kept { kept_by self.new.seats.items ≡
            without needed.now.too_old.items (kept_by self.old.seats.items) }
        ensures keys { self.new.ages.keys ≡ self.old.ages.keys }
        ensures ages { self.new.ages.ages.items ≡ ages_after needed.now.marks.items self.old.ages.ages.items }
        ensures claims { (key : List ℕ) →
            times_by claims key self.new.seats.items ≡ times_by claims key self.old.seats.items }
        ensures given { given_back self.new.seats.items ≡ given_back self.old.seats.items }
    {
        give_up_all(
            rt,
            &self.cache,
            &mut self.seats[0],
            needed.too_old.as_slice(),
        );
        self.cache.meet(rt, self.seats.as_mut_slice());
        self.ages.grow(needed.marks.as_slice());
    }
}
