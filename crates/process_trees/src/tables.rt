//! The tables of a module by which tests of its event bits are found.

ghost use Rattle.std.specs.Prelude.{◌≡◌, ◌≤◌, [], ◌∷◌, IfOk, List, length};
ghost use Rattle.rtl_ir.specs.declared.module.Link.{Link};
ghost use Rattle.rtl_ir.specs.EventTests.{is_bit, meets};
ghost use Rattle.rtl_ir.specs.Flat.Process.{no_modules};
ghost use Rattle.rtl_ir.specs.Follow.{all_joins, back, follow_joins, joins};
ghost use Rattle.rtl_ir.specs.Types as rtl;
ghost use Rattle.net_index.specs.Drivers.{AreDrivers};
ghost use Rattle.net_index.specs.Types.{AreTypes};
ghost use Rattle.process_trees.specs.Tables.{AreLinks, AreTests, linked, links_alone};

use net_index::{BitTable, Driver, Drivers, Types, cell_drivers};
use rtl_bits::{Copied, Memory, Seq};
use rtl_ir::{Link, Module, PortTable};
use rtl_sig::{SigBit, WireBit};
use std::alloc::Global;

/// What tells which bits test an event bit: the cells that drive bits, and the connections. A bit tests an event bit
/// where it leads back to it through connections and at most four cells that each give it or its inverse.
#[derive(Drop)]
pub struct EventTests {
    pub(crate) cells: BitTable<Driver>,
    links: Drivers,
    steps: usize,
}

impl EventTests {
    /// The tables of the module, of which these are the types of the cells.
    pub fn of(alloc: Global, module: &Module, types: &Types) -> Result<EventTests, Memory>
        ensures value { IfOk result (λ tests. (ports : rtl.Ports) → AreTypes types.now ports →
            AreTests tests ports «module».now) }
    {
        Ok(EventTests {
            cells: cell_drivers(alloc, module, types)?,
            links: links_of(alloc, &module.links)?,
            steps: count_places(module.links.as_slice())?,
        })
    }

    /// The tables of the module of which the cells of the library alone count.
    pub fn of_library(alloc: Global, module: &Module) -> Result<EventTests, Memory>
        ensures value { IfOk result (λ tests. AreTests tests no_modules «module».now) }
    {
        let none = PortTable {
            modules: Seq::make(alloc),
        };
        let types = Types::of_table(alloc, &none)?;
        let tests = EventTests::of(alloc, module, &types)?;
        Ok(tests)
    }

    /// Where the connections lead from a place.
    pub(crate) fn follow(&self, place: SigBit) -> SigBit
        ensures value { (links : List Link) → AreLinks self.now links → result ≡ follow_joins (all_joins links) place }
    {
        self.links.follow(place)
    }

    /// One connection back from a place, where one drives it.
    fn back(&self, place: SigBit) -> Option<SigBit>
        ensures value { (links : List Link) → AreLinks self.now links → result ≡ back (all_joins links) place }
    {
        match place {
            SigBit::Fixed(_) => None,
            SigBit::Wire(bit) => self.source(bit),
        }
    }

    /// What the first connection of a bit gives it.
    fn source(&self, bit: WireBit) -> Option<SigBit>
        ensures value { (links : List Link) → AreLinks self.now links →
            result ≡ back (all_joins links) (SigBit.Wire bit) }
    {
        linked(self.links.driver(bit))
    }

    /// Whether the way back from a place through connections meets the bit.
    pub(crate) fn meets(&self, bit: WireBit, place: SigBit) -> bool
        ensures value { (links : List Link) → AreLinks self.now links → result ≡ meets (all_joins links) bit place }
    {
        let mut at = place;
        for _step in 0..self.steps {
            if is_bit(bit, at) {
                return true;
            }
            match self.back(at) {
                Some(next) => at = next,
                None => return false,
            }
        }
        is_bit(bit, at)
    }
}

/// What a connection gives, where one is the driver.
fn linked(driver: Driver) -> Option<SigBit>
    ensures value { result ≡ linked driver }
{
    match driver {
        Driver::Link(source) => Some(source),
        _ => None,
    }
}

/// Whether the place is this bit.
fn is_bit(bit: WireBit, place: SigBit) -> bool
    ensures value { result ≡ is_bit bit place }
{
    match place {
        SigBit::Fixed(_) => false,
        SigBit::Wire(other) => other == bit,
    }
}

/// The index of a module with these connections alone.
fn links_of(alloc: Global, links: &Seq<Link>) -> Result<Drivers, Memory>
    ensures value { IfOk result (λ index. AreDrivers index (rtl.table_ports []) (links_alone links.now)) }
{
    let mut body = Module::empty(alloc, b"")?;
    body.links = links.copy()?;
    let none = PortTable {
        modules: Seq::make(alloc),
    };
    Drivers::of(alloc, &body, &none)
}

/// How many places the connections have at which the left is a bit of a wire. More than a machine can count are taken
/// for want of memory.
fn count_places(links: &[Link]) -> Result<usize, Memory>
    ensures value { IfOk result (λ count. count ≡ length (all_joins links.now)) }
{
    let mut count: usize = 0;
    for link in links {
        let places = count_line(link.left.as_slice(), link.right.as_slice());
        count = count.checked_add(places).ok_or(Memory)?;
    }
    Ok(count)
}

/// How many such places one connection has.
fn count_line(left: &[SigBit], right: &[SigBit]) -> usize
    ensures value { result ≡ length (joins left.now right.now) }
{
    let mut count = 0;
    for at in 0..left.len().min(right.len()) {
        count += count_place(left[at], right[at]);
    }
    count
}

/// One, where the left is a bit of a wire.
fn count_place(left: SigBit, source: SigBit) -> usize
    ensures value { result ≡ length (joins (left ∷ []) (source ∷ [])) }
    ensures one { result ≤ 1 }
{
    match left {
        SigBit::Fixed(_) => 0,
        SigBit::Wire(_) => 1,
    }
}
