//! What a part reads in the step that settles.

ghost use Rattle.std.specs.Prelude.{◌≡◌};
ghost use Rattle.sim_eval.specs.Reads.{is_latch};

use crate::readers::Readers;
use cell_types::{CellKind, StorageGate, StorageKind};
use flat_net::{
    Assign, Branch, Choice, Fetched, Held, HeldBit, Logic, Part, Point, ReadPort, StoreBit,
};
use rtl_bits::{Memory, Seq};

/// Whether a storage cell is a latch, which reads its data in the step that settles. Any other one reads its data in
/// the
/// step before.
fn is_latch(kind: CellKind) -> bool
    ensures value { result ≡ is_latch kind }
{
    match kind {
        CellKind::Storage(StorageKind::Dlatch | StorageKind::Adlatch | StorageKind::Dlatchsr) =>
            true,
        CellKind::StorageGate(
            StorageGate::Dlatch { .. } | StorageGate::Adlatch { .. } | StorageGate::Dlatchsr { .. },
        ) => true,
        _ => false,
    }
}

impl Readers {
    ghost use Rattle.std.specs.Prelude.{◌∷◌, [], OnOk, flat_map};
    ghost use Rattle.sim_eval.specs.Reads.{AddsReads, addresses_points, assigns_points, branch_points, choice_points};
    ghost use Rattle.sim_eval.specs.Reads.{fetched_points, held_points, logic_points, points_at, present_points};
    ghost use Rattle.sim_eval.specs.Reads.{sources_points, store_points, words_points};

    /// The part at this place reads what it reads.
    pub(crate) fn add_part(&mut self, part: &Part, place: usize) -> Result<(), Memory>
        ensures adds { OnOk result (AddsReads self.old self.new place (present_points part.now)) }
    {
        match part {
            Part::Given(_) => Ok(()),
            Part::Joined(join) => self.add(join.from, place),
            Part::Logic(cell) => self.add_logic(cell, place),
            Part::Storage(cell) => self.add_bits(
                is_latch(cell.shape.kind),
                cell.bits.as_slice(),
                place,
            ),
            Part::Tree(tree) => self.add_branch(&tree.root, place),
            Part::Held(held) => self.add_held(held, place),
            Part::Raced(raced) => self.add_two(raced.clock, raced.reset, place),
            Part::Remembered(words) => self.add(words.clock, place),
            Part::Fetched(fetched) => self.add_fetched(fetched, place),
        }
    }

    fn add_two(&mut self, first: Point, second: Point, place: usize) -> Result<(), Memory>
        ensures adds { OnOk result (AddsReads self.old self.new place (first ∷ second ∷ [])) }
    {
        self.add(first, place)?;
        self.add(second, place)
    }

    fn add_points(&mut self, points: &[Point], place: usize) -> Result<(), Memory>
        ensures adds { OnOk result (AddsReads self.old self.new place points.now) }
    {
        for point in points {
            self.add(*point, place)?;
        }
        Ok(())
    }

    fn add_words(&mut self, words: &[Seq<Point>], place: usize) -> Result<(), Memory>
        ensures adds { OnOk result (AddsReads self.old self.new place (words_points words.now)) }
    {
        for word in words {
            self.add_points(word.as_slice(), place)?;
        }
        Ok(())
    }

    fn add_numbers(&mut self, numbers: &[u32], place: usize) -> Result<(), Memory>
        ensures adds { OnOk result (AddsReads self.old self.new place (points_at numbers.now)) }
    {
        for number in numbers {
            self.add(Point::At(*number), place)?;
        }
        Ok(())
    }

    fn add_logic(&mut self, cell: &Logic, place: usize) -> Result<(), Memory>
        ensures adds { OnOk result (AddsReads self.old self.new place (logic_points cell.now)) }
    {
        self.add_points(cell.a.as_slice(), place)?;
        self.add_points(cell.b.as_slice(), place)?;
        self.add_points(cell.s.as_slice(), place)
    }

    fn add_bits(&mut self, latch: bool, bits: &[StoreBit], place: usize) -> Result<(), Memory>
        ensures adds { OnOk result (AddsReads self.old self.new place (flat_map (store_points latch) bits.now)) }
    {
        for bit in bits {
            self.add_bit(latch, bit, place)?;
        }
        Ok(())
    }

    fn add_bit(&mut self, latch: bool, bit: &StoreBit, place: usize) -> Result<(), Memory>
        ensures adds { OnOk result (AddsReads self.old self.new place (store_points latch bit.now)) }
    {
        let pins = bit.pins;
        if latch {
            self.add_points(&[pins.en, pins.d, pins.arst, pins.set, pins.clr], place)
        } else {
            self.add_points(
                &[pins.clk, pins.arst, pins.aload, pins.ad, pins.set, pins.clr],
                place,
            )
        }
    }

    #[cycle(add_tree)]
    fn add_branch(&mut self, branch: &Branch, place: usize) -> Result<(), Memory>
        ensures adds { OnOk result (AddsReads self.old self.new place (branch_points branch.now)) }
    {
        self.add_words(branch.patterns.as_slice(), place)?;
        self.add_assigns(branch.assigns.as_slice(), place)?;
        for choice in &branch.choices {
            self.add_choice(choice, place)?;
        }
        Ok(())
    }

    #[cycle(add_tree)]
    fn add_choice(&mut self, choice: &Choice, place: usize) -> Result<(), Memory>
        ensures adds { OnOk result (AddsReads self.old self.new place (choice_points choice.now)) }
    {
        self.add_points(choice.signal.as_slice(), place)?;
        for branch in &choice.branches {
            self.add_branch(branch, place)?;
        }
        Ok(())
    }

    fn add_assigns(&mut self, assigns: &[Assign], place: usize) -> Result<(), Memory>
        ensures adds { OnOk result (AddsReads self.old self.new place (assigns_points assigns.now)) }
    {
        for assign in assigns {
            self.add(assign.from, place)?;
        }
        Ok(())
    }

    fn add_held(&mut self, held: &Held, place: usize) -> Result<(), Memory>
        ensures adds { OnOk result (AddsReads self.old self.new place (held_points held.now)) }
    {
        self.add_branch(&held.tree.root, place)?;
        self.add_sources(held.bits.as_slice(), place)
    }

    fn add_sources(&mut self, bits: &[HeldBit], place: usize) -> Result<(), Memory>
        ensures adds { OnOk result (AddsReads self.old self.new place (sources_points bits.now)) }
    {
        for bit in bits {
            self.add(bit.source.from, place)?;
        }
        Ok(())
    }

    fn add_fetched(&mut self, fetched: &Fetched, place: usize) -> Result<(), Memory>
        ensures adds { OnOk result (AddsReads self.old self.new place (fetched_points fetched.now)) }
    {
        self.add_addresses(fetched.ports.as_slice(), place)?;
        self.add_columns(fetched.columns.as_slice(), place)
    }

    fn add_addresses(&mut self, ports: &[ReadPort], place: usize) -> Result<(), Memory>
        ensures adds { OnOk result (AddsReads self.old self.new place
            (addresses_points ports.now)) }
    {
        for port in ports {
            self.add_points(port.address.as_slice(), place)?;
        }
        Ok(())
    }

    fn add_columns(&mut self, columns: &[Seq<u32>], place: usize) -> Result<(), Memory>
        ensures adds { OnOk result (AddsReads self.old self.new place (flat_map points_at columns.now)) }
    {
        for column in columns {
            self.add_numbers(column.as_slice(), place)?;
        }
        Ok(())
    }
}
