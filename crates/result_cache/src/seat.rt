//! A caller's place at a cache.

use crate::view::View;
use atomic_table::Badge;
use std::marker::Model;

/// A caller's place at a cache, with which it makes its calls. Contracts see its number, its calls,
/// and what it has seen of each shard.
#[derive(Drop)]
pub struct Seat {
    pub(crate) number: u32,
    pub(crate) claims: u64,
    pub(crate) fills: u64,
    pub(crate) give_backs: u64,
    pub(crate) drops: u64,
    pub(crate) badge: Badge<View>,
}

impl Model for Seat {
    ghost use Rattle.result_cache.specs.Seats.{Seated, seated_of, IsSeat};

    ghost Value = { Seated };

    ghost view = { λ s. seated_of s.badge.table_id s.badge.views };

    ghost invariant = { λ s. IsSeat s.badge.table_id s.number s.claims s.fills s.give_backs s.drops s.badge.views };
}

/// How many calls of each kind a seat made. Each number stays at the last value of its type.
#[derive(Clone, Copy, Debug, PartialEq)]
pub struct SeatCalls {
    pub claims: u64,
    pub fills: u64,
    pub give_backs: u64,
    pub drops: u64,
}
