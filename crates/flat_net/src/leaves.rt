//! Bits of processes whose value is told by what its leaves may be.

use crate::choices::Tree;
use crate::net::Point;
use cell_types::Level;
use rtl_bits::{Bit, Seq};

/// What a line reads: a point, and the place of the tree bit that it is, where it is one of the same process.
#[derive(Clone, Copy, Debug, PartialEq, Eq)]
pub struct Source {
    pub from: Point,
    pub tree: Option<u32>,
}

/// A bit that a rule updates: its start value, and the source of its new value.
#[derive(Clone, Copy, Debug, PartialEq, Eq)]
pub struct HeldBit {
    pub number: u32,
    pub start: Bit,
    pub source: Source,
}

/// Bits that are always updated and may hold. Through the tree their values lead to their leaves.
#[derive(Drop)]
pub struct Held {
    pub tree: Tree,
    pub bits: Seq<HeldBit>,
}

/// The bits of a process with two edges: the clock and the reset, each with the level after its edge. The choices of
/// the tree say which of them test the reset.
#[derive(Drop)]
pub struct Raced {
    pub tree: Tree,
    pub clock: Point,
    pub clock_level: Level,
    pub reset: Point,
    pub reset_level: Level,
    pub bits: Seq<HeldBit>,
}
