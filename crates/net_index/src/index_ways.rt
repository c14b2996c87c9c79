//! Where the connections of a module lead from a bit.

ghost use Rattle.std.specs.Prelude.{◌≡◌, List, IfOk, OnOk};
ghost use Rattle.rtl_sig.specs.declared.sig.SigBit.TheVariants as sig;
ghost use Rattle.rtl_sig.specs.declared.sig.WireBit.{WireBit};
ghost use Rattle.rtl_ir.specs.declared.follow.Join.{Join};
ghost use Rattle.net_index.specs.IndexTable.{at_bit};
ghost use Rattle.net_index.specs.IndexWays.{AreWays, IsEnd, IsFound, IsWay, found_by, first_way, way_by};

use crate::index_table::BitTable;
use rtl_bits::Memory;
use rtl_ir::{Join, Wire};
use rtl_sig::{SigBit, WireBit};
use std::alloc::Global;

/// What is known of the way from a bit against the connections.
#[derive(Clone, Copy)]
pub(crate) enum Way {
    /// One connection leads to this bit.
    To(WireBit),
    /// It ends here, at what no connection drives.
    End(SigBit),
    /// It runs into a loop.
    Loop,
}

/// The ways from the bits that connections drive. There are more steps than places of connections.
#[derive(Drop)]
pub(crate) struct Ways {
    table: BitTable<Way>,
    steps: usize,
}

impl Ways {
    /// The ways along these connections.
    pub(crate) fn of(alloc: Global, wires: &[Wire], joins: &[Join]) -> Result<Ways, Memory>
        ensures ways { IfOk result (λ ways. AreWays ways joins.now) }
    {
        let mut table = BitTable::of(alloc, wires)?;
        put_joins(&mut table, joins)?;
        let mut ways = Ways {
            table,
            steps: joins.len() + 1,
        };
        ways.settle_all(joins)?;
        Ok(ways)
    }

    /// Where the way from the bit ends, or `None` where it runs into a loop. It takes no memory.
    pub(crate) fn end_of(&self, start: WireBit) -> Option<SigBit>
        ensures value { (joins : List Join) → AreWays self.now joins → IsEnd joins (sig.Wire start) result }
    {
        let mut bit = start;
        // The mark moves up at each power of two, so a loop is met within three times its length.
        let mut mark = start;
        for step in 0..self.steps {
            let next = match self.way(bit) {
                Way::To(next) => next,
                Way::End(end) => return Some(end),
                Way::Loop => return None,
            };
            if next == mark {
                return None;
            }
            if step.is_power_of_two() {
                mark = next;
            }
            bit = next;
        }
        None
    }

    /// What is known of the way from the bit.
    fn way(&self, bit: WireBit) -> Way
        ensures value { (joins : List Join) → AreWays self.now joins → IsWay joins bit result }
    {
        self.table.get(bit).unwrap_or(Way::End(SigBit::Wire(bit)))
    }

    /// Finds the ends of the ways from these bits.
    fn settle_all(&mut self, joins: &[Join]) -> Result<(), Memory>
        ensures ways { OnOk result ((all : List Join) → AreWays self.old all → AreWays self.new all) }
    {
        for join in joins {
            self.settle(join.bit)?;
        }
        Ok(())
    }

    /// Finds where the way from the bit ends, and notes it for each bit on the way.
    fn settle(&mut self, start: WireBit) -> Result<(), Memory>
        ensures ways { OnOk result ((joins : List Join) → AreWays self.old joins → AreWays self.new joins) }
    {
        let found = found_way(self.end_of(start));
        self.note(start, found)
    }

    /// Notes what was found for each bit on the way from this one of which less is known.
    fn note(&mut self, start: WireBit, found: Way) -> Result<(), Memory>
        ensures ways { OnOk result ((joins : List Join) → AreWays self.old joins → IsFound joins start found →
            AreWays self.new joins) }
    {
        let mut bit = start;
        for _ in 0..self.steps {
            let Way::To(next) = self.way(bit) else {
                return Ok(());
            };
            self.table.put(bit, found)?;
            bit = next;
        }
        Ok(())
    }
}

/// The first connection of each bit leads on from it.
fn put_joins(table: &mut BitTable<Way>, joins: &[Join]) -> Result<(), Memory>
    ensures ok { OnOk result ((b : WireBit) → at_bit table.new b ≡ first_way table.old joins.now b) }
{
    for join in joins {
        table.put_first(join.bit, first_step(join.source))?;
    }
    Ok(())
}

/// A way of which the end was looked for.
fn found_way(end: Option<SigBit>) -> Way
    ensures value { result ≡ found_by end }
{
    match end {
        Some(end) => Way::End(end),
        None => Way::Loop,
    }
}

/// The way of one connection from this source.
fn first_step(source: SigBit) -> Way
    ensures value { result ≡ way_by source }
{
    match source {
        SigBit::Fixed(_) => Way::End(source),
        SigBit::Wire(bit) => Way::To(bit),
    }
}
