//! The start values that processes give.

ghost use Rattle.std.specs.Prelude.{
  ◌≡◌,
  ℕ,
  ◌<◌,
  ◌==◌,
  ◌||◌,
  false,
  List,
  [],
  ◌∷◌,
  length,
  slice_index_or,
  IfOk,
  OnOk,
};
ghost use Rattle.rtl_ir.specs.Flat.Start.{Begun, last_start};
ghost use Rattle.rtl_ir.specs.Follow.{all_joins};
ghost use Rattle.rtl_ir.specs.Rules.{init_lines};
ghost use Rattle.rtl_ir.specs.Tree.{CaseView};
ghost use Rattle.proc_tree.specs.Leaves.{AreLeaves};
ghost use Rattle.proc_tree.specs.Starts.{Adds, AreStarts, starts_by, wire_is_begun};

use crate::leaves::Leaves;
use net_index::BitTable;
use rtl_bits::{Bit, Memory};
use rtl_ir::{Case, Join, SyncRule, Wire, init_joins};
use rtl_sig::WireBit;
use std::alloc::Global;

/// The start values that processes give to bits, of each bit the last one. In the Yosys manual, "The RTL Intermediate
/// Language (RTLIL)", the section "RTLIL::Process" has the rules of start values.
#[derive(Drop)]
pub(crate) struct Starts {
    values: BitTable<Bit>,
    /// Whether the wire at a place has a bit with one.
    begun: Vec<bool>,
}

impl Starts {
    /// None is given to a bit of these wires.
    pub(crate) fn of(alloc: Global, wires: &[Wire]) -> Result<Starts, Memory>
        ensures none { IfOk result (λ starts. AreStarts starts (length wires.now) []) }
    {
        Ok(Starts {
            values: BitTable::of(alloc, wires)?,
            begun: vec![in alloc; false; wires.len()]?,
        })
    }

    /// The start values behind these that a process with this tree, read by the rules of switches, and these rules
    /// gives.
    pub(crate) fn put_process(
        &mut self,
        alloc: Global,
        root: &Case,
        rules: &[SyncRule],
    ) -> Result<(), Memory>
        ensures ok { OnOk result (Adds self.old self.new (starts_by root.now (all_joins (init_lines rules.now)))) }
    {
        let places = init_joins(alloc, rules)?;
        if places.is_empty() {
            return Ok(());
        }
        let leaves = Leaves::of(alloc, root)?;
        self.put_places(places.as_slice(), &leaves)
    }

    /// Gives each of these bits the constant that its source comes to.
    fn put_places(&mut self, places: &[Join], leaves: &Leaves) -> Result<(), Memory>
        ensures ok { OnOk result ((root : CaseView) → AreLeaves leaves.now root →
            Adds self.old self.new (starts_by root places.now)) }
    {
        for place in places {
            self.put(place.bit, leaves.constant(place.source))?;
        }
        Ok(())
    }

    /// Gives the bit this start value.
    fn put(&mut self, bit: WireBit, value: Bit) -> Result<(), Memory>
        ensures ok { OnOk result (Adds self.old self.new (record { bit = bit; value = value } ∷ [])) }
    {
        self.values.put(bit, value)?;
        mark(&mut self.begun, bit.wire as usize);
        Ok(())
    }

    /// Whether a bit of the wire at the place is given one.
    pub(crate) fn is_begun(&self, wire: usize) -> bool
        ensures value { (count : ℕ) (all : List Begun) → AreStarts self.now count all → wire < count →
            result ≡ wire_is_begun all wire }
    {
        if wire < self.begun.len() {
            self.begun[wire]
        } else {
            false
        }
    }

    /// The start value that the bit is given, if one is.
    pub(crate) fn given(&self, bit: WireBit) -> Option<Bit>
        ensures value { (count : ℕ) (all : List Begun) → AreStarts self.now count all → result ≡ last_start all bit }
    {
        self.values.get(bit)
    }
}

/// Marks the wire at the place, where there is one.
fn mark(begun: &mut Vec<bool>, wire: usize)
    ensures marked { (k : ℕ) → k < length begun.old.items →
        slice_index_or begun.new.items k false ≡ (slice_index_or begun.old.items k false || (wire == k)) }
    ensures size { length begun.new.items ≡ length begun.old.items }
{
    if wire < begun.len() {
        begun[wire] = true;
    }
}
