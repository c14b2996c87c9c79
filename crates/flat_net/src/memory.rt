//! The words of memories, and what read ports give of them.

use crate::net::{Output, Point};
use cell_types::Level;
use rtl_bits::{Bit, Bits, Seq};

/// A write port: its number, the ports by number that it may follow, and what it writes where.
#[derive(Drop)]
pub struct WritePort {
    pub number: u32,
    pub mask: Bits,
    pub address: Seq<Point>,
    /// One enable for each bit of a word.
    pub enable: Seq<Point>,
    pub word: Seq<Point>,
}

/// A bit of a word: its start value, the word's address, and its place in the word.
#[derive(Clone, Copy, Debug, PartialEq, Eq)]
pub struct WordBit {
    pub number: u32,
    pub start: Bit,
    pub address: u32,
    pub at: u32,
}

/// The words of a memory. The write ports stand once for all bits: the clock with the level after its edge, and the
/// ports in rising number.
#[derive(Drop)]
pub struct Remembered {
    pub clock: Point,
    pub level: Level,
    pub ports: Seq<WritePort>,
    pub bits: Seq<WordBit>,
}

/// A read port: its address, and the bits that it drives, each with its place in the word.
#[derive(Drop)]
pub struct ReadPort {
    pub address: Seq<Point>,
    pub outputs: Seq<Output>,
}

/// The read ports of a memory. The words stand once for all ports: the first address, and for each place in a word the
/// numbers of that bit of all words in order of address.
#[derive(Drop)]
pub struct Fetched {
    pub first: u32,
    pub columns: Seq<Seq<u32>>,
    pub ports: Seq<ReadPort>,
}
