//! The start values of the bits of a module.

ghost use Rattle.std.specs.Prelude.{◌≡◌, List, [], ◌∷◌, IfOk, OnOk, slice_index_or};
ghost use Rattle.rtl_bits.specs.declared.bit.Bit.{Bit};
ghost use Rattle.rtl_bits.specs.declared.bit.Bit.TheVariants.{X};
ghost use Rattle.rtl_sig.specs.declared.sig.SigBit.{SigBit};
ghost use Rattle.rtl_sig.specs.declared.sig.WireBit as rtl;
ghost use Rattle.rtl_ir.specs.Decisions.{expanded, leaves_of};
ghost use Rattle.rtl_ir.specs.Flat.Start.{first_constant, process_starts, start_of};
ghost use Rattle.rtl_ir.specs.Tree.{CaseView};
ghost use Rattle.process_trees.specs.Rounds.{AreLeaves};
ghost use Rattle.flat_net.specs.Starts.{AreStarts, Gains, IsStart, starts_by};

use crate::rooted::Rooted;
use net_index::BitTable;
use process_trees::Leaves;
use rtl_bits::{Bit, Bits, Memory};
use rtl_ir::{Join, Process, Wire, init_joins, inits};
use rtl_sig::{SigBit, WireBit};
use std::alloc::Global;

/// The start values of the bits of a module: what the attributes `\init` of its wires say, and, before that, what its
/// processes give, of each bit the last one. In the Yosys manual, "The RTL Intermediate Language (RTLIL)", the section
/// "RTLIL::Process" has the rules of start values.
#[derive(Drop)]
pub(crate) struct Starts {
    said: Vec<Bits>,
    given: BitTable<Bit>,
}

impl Starts {
    /// The start values of a module with these wires and processes.
    pub(crate) fn of(alloc: Global, wires: &[Wire], processes: &[Process]) -> Result<Starts, Memory>
        ensures value { IfOk result (λ starts. IsStart starts (start_of wires.now processes.now)) }
    {
        let mut starts = Starts::said(alloc, wires)?;
        for process in processes {
            starts.put_process(alloc, process)?;
        }
        Ok(starts)
    }

    /// What the wires say.
    fn said(alloc: Global, wires: &[Wire]) -> Result<Starts, Memory>
        ensures value { IfOk result (λ starts. AreStarts starts wires.now []) }
    {
        Ok(Starts {
            said: inits(alloc, wires)?,
            given: BitTable::of(alloc, wires)?,
        })
    }

    /// The start values that the process gives.
    fn put_process(&mut self, alloc: Global, process: &Process) -> Result<(), Memory>
        ensures gains { OnOk result (Gains self.old self.new (process_starts process.now)) }
    {
        let lines = init_joins(alloc, process.syncs.as_slice())?;
        if lines.is_empty() {
            return Ok(());
        }
        let rooted = Rooted::of(alloc, &process.root)?;
        let bits = rooted.bits.list(alloc)?;
        let leaves = Leaves::of(alloc, &rooted.root, bits.as_slice(), None)?;
        self.give_all(&leaves, lines.as_slice())
    }

    /// Gives each of these bits the constant that its source comes to.
    fn give_all(&mut self, leaves: &Leaves, lines: &[Join]) -> Result<(), Memory>
        ensures gains { (root : CaseView) (bits : List rtl.WireBit) → AreLeaves leaves.now root bits →
            OnOk result (Gains self.old self.new (starts_by root bits lines.now)) }
    {
        for line in lines {
            self.give(line.bit, constant_of(leaves, line.source)?)?;
        }
        Ok(())
    }

    /// Gives the bit a start value.
    fn give(&mut self, bit: WireBit, value: Bit) -> Result<(), Memory>
        ensures gains { OnOk result (Gains self.old self.new (record { bit = bit; value = value } ∷ [])) }
    {
        self.given.put(bit, value)
    }

    /// The start value of a bit.
    pub(crate) fn at(&self, bit: SigBit) -> Bit
        ensures value { (start : SigBit → Bit) → IsStart self.now start → result ≡ start bit }
    {
        match bit {
            SigBit::Fixed(_) => Bit::X,
            SigBit::Wire(bit) => match self.given.get(bit) {
                Some(value) => value.seen(),
                None => said_at(self.said.as_slice(), bit).seen(),
            },
        }
    }
}

/// The constant that a source comes to. A source that comes to none is taken for want of memory.
fn constant_of(leaves: &Leaves, source: SigBit) -> Result<Bit, Memory>
    ensures value { (root : CaseView) (bits : List rtl.WireBit) → AreLeaves leaves.now root bits →
        IfOk result (λ b. b ≡ first_constant (leaves_of (expanded root bits source))) }
{
    match leaves.of_source(source).only {
        Some(SigBit::Fixed(value)) => Ok(value),
        _ => Err(Memory),
    }
}

/// What is said of a bit, x where nothing is.
fn said_at(said: &[Bits], bit: WireBit) -> Bit
    ensures value { result ≡ slice_index_or (slice_index_or said.now bit.wire []) bit.at X }
{
    match said.get(bit.wire as usize) {
        Some(bits) => bit_at(bits.as_slice(), bit.at),
        None => Bit::X,
    }
}

/// The bit at a place, past the end x.
fn bit_at(bits: &[Bit], at: u32) -> Bit
    ensures value { result ≡ slice_index_or bits.now at X }
{
    match bits.get(at as usize) {
        Some(bit) => *bit,
        None => Bit::X,
    }
}
