//! The flat netlist, in which each bit is a number.

use crate::choices::Tree;
use crate::leaves::{Held, Raced};
use crate::memory::{Fetched, Remembered};
use cell_types::Shape;
use rtl_bits::{Bit, Seq};

/// What a driver reads: a constant, or the bit of a number.
#[derive(Clone, Copy, Debug, PartialEq, Eq)]
pub enum Point {
    Constant(Bit),
    At(u32),
}

/// What a bit of a storage cell reads, by the pins of storage cells; a pin that the cell lacks is the
/// constant x.
#[derive(Clone, Copy, Debug, PartialEq, Eq)]
pub struct StorePins {
    pub clk: Point,
    pub en: Point,
    pub arst: Point,
    pub srst: Point,
    pub aload: Point,
    pub ad: Point,
    pub set: Point,
    pub clr: Point,
    pub d: Point,
}

/// A bit that is driven by the bit at a place: of the input vector, or of the output of a cell.
#[derive(Clone, Copy, Debug, PartialEq, Eq)]
pub struct Output {
    pub number: u32,
    pub at: u32,
}

/// A bit that a connection drives.
#[derive(Clone, Copy, Debug, PartialEq, Eq)]
pub struct Join {
    pub to: u32,
    pub from: Point,
}

/// A combinational cell: what it reads at its pins A, B and S, and the bits that it drives.
#[derive(Drop)]
pub struct Logic {
    pub shape: Shape,
    pub a: Seq<Point>,
    pub b: Seq<Point>,
    pub s: Seq<Point>,
    pub outputs: Seq<Output>,
}

/// A bit that a storage cell keeps: its place in the cell, its start value, and what it reads.
#[derive(Clone, Copy, Debug, PartialEq, Eq)]
pub struct StoreBit {
    pub number: u32,
    pub at: u32,
    pub start: Bit,
    pub pins: StorePins,
}

/// A storage cell, and the bits that it keeps.
#[derive(Drop)]
pub struct Storage {
    pub shape: Shape,
    pub bits: Seq<StoreBit>,
}

/// What drives some bits. A cell is one part, and so is the tree of a process.
#[derive(Drop)]
pub enum Part {
    /// The input vector of the module drives a bit.
    Given(Output),
    /// A connection drives a bit.
    Joined(Join),
    /// A combinational cell drives the bits of its output.
    Logic(Box<Logic>),
    /// A storage cell drives the bits that it keeps.
    Storage(Box<Storage>),
    /// The tree of a process drives its tree bits.
    Tree(Box<Tree>),
    /// A process drives bits that are always updated and may hold.
    Held(Box<Held>),
    /// A process with two edges drives the bits that it updates.
    Raced(Box<Raced>),
    /// The bits of the words of a memory.
    Remembered(Box<Remembered>),
    /// The read ports of a memory drive the bits that they give.
    Fetched(Box<Fetched>),
}

/// A flat netlist. The bits are numbered from 0 on, and no bit has two numbers.
#[derive(Drop)]
pub struct Net {
    pub parts: Seq<Part>,
    /// How many bits have a number.
    pub count: u32,
    /// The output bits of the module, in order.
    pub outputs: Seq<u32>,
}
