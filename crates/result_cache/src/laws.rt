//! Laws of legal histories, and what holds of every shard.

ghost use Rattle.std.specs.Prelude.{◌≡◌, ◌↔◌, ◌≤◌, ◌<◌, ◌+◌, ◌++◌, ◌∷◌, [], ℕ, List, Some, true, if◌then◌else◌, IfSome};
ghost use Rattle.std.specs.Prelude.{IsSome};
ghost use Rattle.std.specs.Option.{is_some};
ghost use Rattle.std.specs.Str.{bytes_eq};
ghost use Rattle.rtl_sig.specs.Names.{AreDistinct, has_name};
ghost use Rattle.result_cache.specs.Counts.{drops, fills, times_of};
ghost use Rattle.result_cache.specs.History.{held, filled, one_if_filled, state_after, IsFilled, IsLegal};
ghost use Rattle.result_cache.specs.History.{call};
ghost use Rattle.result_cache.specs.declared.call.Act.TheVariants.{Hit, Busy, Yours, Fill, GiveBack, Forget};
ghost use Rattle.result_cache.specs.Tickets.{calls_by, has_ticket, ticket_after, given, returned};
ghost use Rattle.result_cache.specs.Tickets.{HoldsNoTicket, HoldsOnly};
ghost use Rattle.result_cache.specs.Stored.{Contents, KeepsValues, value_at, mode_at, kept_mode, held_keys};
ghost use Rattle.result_cache.specs.Filled.{filled_keys, with_key};
ghost use Rattle.result_cache.specs.Meet.{HasMet, Share};
ghost use Rattle.result_cache.specs.Seats.{Seated, new_seats};
ghost use Rattle.atomic_table.specs.Seated.{TableId};

use crate::call::{Act, Call};
use crate::keyed::Keyed;
use crate::shard::Shard;

/// In a legal history the value of a key is given up between any two fillings of the key; so the key was filled as
/// often as its value was given up, and once more where it is filled. A filled key keeps its value until that is
/// given up.
#[tactic(auto, using(crate::proofs::Filled::dropped_between, crate::proofs::Filled::filled_in_turn, crate::proofs::Filled::filled_stays))]
pub fn keys_are_filled_in_turn()
    ensures between { (before between after : List Call) (a b number other : ℕ) (key : List ℕ) →
        IsLegal (before ++ call a key (Fill number) ∷ (between ++ call b key (Fill other) ∷ after)) →
        1 ≤ times_of drops key between }
    ensures counted { (calls : List Call) (key : List ℕ) → IsLegal calls →
        times_of fills key calls ≡ times_of drops key calls + one_if_filled (state_after calls key) }
    ensures stays { (calls more : List Call) (key : List ℕ) (number : ℕ) → IsLegal (calls ++ more) →
        state_after calls key ≡ filled number → times_of drops key more ≡ 0 →
        state_after (calls ++ more) key ≡ filled number }
{}

/// In a legal history a seat holds just the keys that it has the tickets of by its own calls, and
/// no two seats have the ticket of one key.
#[tactic(auto, using(crate::proofs::Holders::own_ticket, crate::proofs::Holders::one_holder))]
pub fn keys_have_one_holder()
    ensures own { (calls : List Call) (seat : ℕ) (key : List ℕ) → IsLegal calls →
        (state_after calls key ≡ held seat) ↔ (has_ticket (calls_by seat calls) key ≡ true) }
    ensures one { (calls : List Call) (a b : ℕ) (key : List ℕ) → IsLegal calls →
        has_ticket (calls_by a calls) key ≡ true → has_ticket (calls_by b calls) key ≡ true → a ≡ b }
{}

/// What a call of a seat does to its tickets: a claim that is answered `Yours` gives it the key's
/// ticket, filling and giving back take that from it, and all else leaves its tickets as they are.
pub fn tickets_follow_calls()
    ensures each { (calls : List Call) (seat : ℕ) (key q : List ℕ) (act : Act) →
        has_ticket (calls ++ call seat key act ∷ []) q ≡
        (if bytes_eq key q then ticket_after act (has_ticket calls q) else has_ticket calls q) }
    ensures hit { (calls : List Call) (seat number : ℕ) (key : List ℕ) → HoldsNoTicket calls →
        HoldsNoTicket (calls ++ call seat key (Hit number) ∷ []) }
    ensures busy { (calls : List Call) (seat by : ℕ) (key : List ℕ) → HoldsNoTicket calls →
        HoldsNoTicket (calls ++ call seat key (Busy by) ∷ []) }
    ensures forgot { (calls : List Call) (seat number : ℕ) (key : List ℕ) → HoldsNoTicket calls →
        HoldsNoTicket (calls ++ call seat key (Forget number) ∷ []) }
    ensures yours { (calls : List Call) (seat : ℕ) (key : List ℕ) → HoldsNoTicket calls →
        HoldsOnly key (calls ++ call seat key Yours ∷ []) }
    ensures filled { (calls : List Call) (seat number : ℕ) (key : List ℕ) → HoldsOnly key calls →
        HoldsNoTicket (calls ++ call seat key (Fill number) ∷ []) }
    ensures given_back { (calls : List Call) (seat : ℕ) (key : List ℕ) → HoldsOnly key calls →
        HoldsNoTicket (calls ++ call seat key GiveBack ∷ []) }
{}

/// The history of a shard is legal, and replayed from the start it gives what is kept of each key,
/// of which none stands twice. A key has a value exactly where it is filled, and the value stands for
/// it. As many keys are held as tickets were given out and did not come back.
pub fn shards_are_sound<V: Keyed>(shard: &Shard<V>)
    ensures legal { IsLegal shard.now.history }
    ensures replays { (key : List ℕ) → mode_at shard.now key ≡ kept_mode shard.now key }
    ensures distinct { AreDistinct shard.now.keys }
    ensures filled { (key : List ℕ) → IsSome (value_at shard.now key) ↔ IsFilled (mode_at shard.now key) }
    ensures stands { (key : List ℕ) → IfSome (value_at shard.now key) (λ value. V.stands_for value key) }
    ensures tickets { held_keys shard.now + returned shard.now.history ≡ given shard.now.history }
{
    shard.facts();
}

/// The filled keys are those that have a value. They stay where each key keeps its value, and are one
/// more where one key was filled.
pub fn filled_keys_have_values<V: Keyed>()
    ensures among { (s : Contents V) (key : List ℕ) → has_name (filled_keys s) key ≡ is_some (value_at s key) }
    ensures kept { (old new : Contents V) → KeepsValues old new → filled_keys new ≡ filled_keys old }
    ensures more { (old new : Contents V) (key : List ℕ) (value : V) →
        ((q : List ℕ) → value_at new q ≡ (if bytes_eq key q then Some value else value_at old q)) →
        filled_keys new ≡ with_key key (filled_keys old) }
{}

/// Seats that have met share one history of each shard, and so do the seats of a new cache.
pub fn seats_share()
    ensures met { (shards : ℕ) (olds news : List Seated) →
        ((i : ℕ) → i < shards → (log : List Call) × HasMet i log olds news) → Share shards news }
    ensures new { (cache : TableId) (callers shards : ℕ) → Share shards (new_seats cache callers shards) }
{}
