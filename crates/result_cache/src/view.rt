//! What is known of the seats, and the rule that all of them keep.

use crate::call::Call;
use crate::keyed::Keyed;
use crate::shard::Shard;
use atomic_table::{Join, Play, Split, TableRule};
use std::collections::LinkedList;

/// What is known of one seat. No value of it is made: contracts and the rule speak of it.
pub struct Known {
    pub number: u32,
    /// How many seats and how many shards its cache was made with.
    pub callers: u32,
    pub shards: usize,
    /// The calls that it made.
    pub calls: LinkedList<Call>,
    /// The history that it has seen of each shard.
    pub seen: LinkedList<LinkedList<Call>>,
}

/// What is known by a thread that may step on the cache. No value of it is made.
pub struct View {
    /// The seats that it steps for.
    pub seats: LinkedList<Known>,
    /// It holds the lock of this shard, whose history was this as it took the lock.
    pub busy: bool,
    pub at: usize,
    pub log: LinkedList<Call>,
}

/// Each shard has one legal history, and each seat has seen a beginning of it.
pub struct OneHistory;

impl<V: Keyed> TableRule<Shard<V>, View, (u32, usize)> for OneHistory {
    ghost use Rattle.result_cache.specs.Shared.{Keeps, all_seats};

    ghost holds = { λ made s. Keeps V made.0 made.1 s };

    ghost first = { λ made. all_seats made.0 made.1 };
}

/// The lock is taken, or it was not free.
pub struct Takes;

impl<V: Keyed> Play<Shard<V>, View> for Takes {
    ghost use Rattle.result_cache.specs.Shared.{Taken};

    ghost then = { λ s me found me'. Taken V s.word me found me' };
}

/// The lock is given back, with the calls that were made under it.
pub struct Gives;

impl<V: Keyed> Play<Shard<V>, View> for Gives {
    ghost use Rattle.result_cache.specs.Shared.{Given};

    ghost then = { λ s me found me'. Given V me me' };
}

/// The lock is given back, and nothing was seen.
pub struct GivesUp;

impl<V: Keyed> Play<Shard<V>, View> for GivesUp {
    ghost use Rattle.result_cache.specs.Shared.{GivenUp};

    ghost then = { λ s me found me'. GivenUp V me me' };
}

/// The history of a shard is looked at.
pub struct Looks;

impl<V: Keyed> Play<Shard<V>, View> for Looks {
    ghost use Rattle.result_cache.specs.Shared.{Looked};

    ghost then = { λ s me found me'. Looked V s.word me me' };
}

/// Nothing is told.
pub struct Tells;

impl<V: Keyed> Play<Shard<V>, View> for Tells {
    ghost use Rattle.std.specs.Prelude.{◌≡◌};

    ghost then = { λ s me found me'. me' ≡ me };
}

/// The first of the seats gets a view of its own.
pub struct Parts;

impl Split<View> for Parts {
    ghost use Rattle.result_cache.specs.Shared.{others, alone};

    ghost left = { others };

    ghost right = { alone };
}

/// The seats of a second view come before those of the first.
pub struct Gathers;

impl Join<View> for Gathers {
    ghost use Rattle.std.specs.Prelude.{[]};
    ghost use Rattle.result_cache.specs.Shared.{together, view_of};

    ghost both = { together };

    ghost spent = { view_of [] };
}
