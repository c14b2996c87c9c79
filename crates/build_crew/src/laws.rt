//! What a crew leaves whose jobs find the values of keys, and a seat that gives up values.

ghost use Rattle.std.specs.Prelude.{ℕ, Bool, List, ◌∷◌, length};
ghost use Rattle.atomic_table.specs.Seated.{TableId};
ghost use Rattle.result_cache.specs.Seats.{Seated};
ghost use Rattle.work_crew.specs.Outcome.{Finished, Stopped};
ghost use Rattle.build_crew.specs.Calls.{Does, Fails};
ghost use Rattle.build_crew.specs.Forgetting.{AreForgetting, HasForgotten};
ghost use Rattle.build_crew.specs.Kept.{AreAllSeats};
ghost use Rattle.build_crew.specs.Leaves.{AreCrew, RunLeaves, StoppedLeaves};

use result_cache::Keyed;

/// All seats of a cache, which shared one history of each shard, did jobs that each find the value of the key of its
/// number, by any number of workers in any order, and then met. Where all jobs were done, each key that was not kept
/// was built once and no other was, and each key was claimed as often as it was asked for; without memory no more was
/// built than was not kept or was given back. The seats are then all seats of the cache still.
pub fn crews_build_once<O>()
    ensures run { (key_of : ℕ → List ℕ) (new_of : O → Bool) (cache : TableId) (shards count : ℕ)
        (olds mids news : List Seated) (old now : ℕ) → AreCrew cache shards olds mids news →
        (items : List O) (taken : List (List ℕ)) →
        RunLeaves key_of new_of count olds mids news old now items taken }
    ensures stopped { (key_of : ℕ → List ℕ) (new_of : O → Bool) (cache : TableId) (shards count : ℕ)
        (olds mids news : List Seated) (old now : ℕ) → AreCrew cache shards olds mids news →
        StoppedLeaves key_of new_of count olds mids news old now }
    ensures seats { (key_of : ℕ → List ℕ) (new_of : O → Bool) (cache : TableId) (shards count : ℕ)
        (olds mids news : List Seated) (old now : ℕ) → AreCrew cache shards olds mids news →
        (items : List O) (taken : List (List ℕ)) →
        Finished (λ number output. Unit {0}) (Does key_of new_of) count items taken olds mids old now →
        AreAllSeats cache (length olds) shards 0 news }
    ensures seats_still { (key_of : ℕ → List ℕ) (new_of : O → Bool) (cache : TableId) (shards count : ℕ)
        (olds mids news : List Seated) (old now : ℕ) → AreCrew cache shards olds mids news →
        Stopped (Does key_of new_of) (Fails key_of new_of) count olds mids old now →
        AreAllSeats cache (length olds) shards 0 news }
{}

/// The first of all seats of a cache, which shared one history of each shard, was to give up the values of these keys,
/// one after another, and then all met: the keys that are kept are those that were, without these, whatever the seat
/// was answered. The seats are all seats of the cache still; they claimed no key more, and gave no ticket back.
pub fn values_are_given_up<V: Keyed>()
    ensures left { (cache : TableId) (shards : ℕ) (gone : List (List ℕ)) (first mid : Seated)
        (others news : List Seated) →
        AreForgetting V V.stands_for cache shards gone first mid others news →
        HasForgotten cache shards gone (first ∷ others) news }
{}
