//! What reads each bit of a module.

ghost use Rattle.net_index.specs.Numbering.{bit_count};
ghost use Rattle.net_index.specs.ReaderSort.{AreStarts};

use crate::numbering::Numbering;
use crate::reader::Reader;
use crate::reader_fill::readers_in;
use crate::reader_sort::{ends_of, slots_of};
use crate::types::Types;
use rtl_bits::Memory;
use rtl_ir::Module;
use rtl_sig::WireBit;
use std::alloc::Global;

/// The readers of the bits of a module in one row, those of each bit together: where they begin, by the bit's number,
/// and where those of the next bit do.
#[derive(Drop)]
pub(crate) struct Readers {
    numbering: Numbering,
    starts: Vec<usize>,
    slots: Vec<Reader>,
    ghost ordered: { AreStarts (bit_count numbering) starts.items slots.items },
}

impl Readers {
    ghost use Rattle.std.specs.Prelude.{◌≡◌, ℕ, List, Some, IfOk};
    ghost use Rattle.rtl_sig.specs.declared.sig.WireBit.{WireBit};
    ghost use Rattle.rtl_ir.specs.Types.{Ports};
    ghost use Rattle.net_index.specs.declared.reader.Reader.{Reader};
    ghost use Rattle.net_index.specs.Index.{AreReaders};
    ghost use Rattle.net_index.specs.Numbering.{number_of, widths_of};
    ghost use Rattle.net_index.specs.Readers.{readers_of};
    ghost use Rattle.net_index.specs.Types.{AreTypes};

    /// The readers in the module, of which these are the types of the cells.
    pub(crate) fn of(alloc: Global, module: &Module, types: &Types) -> Result<Readers, Memory>
        requires typed { (ports : Ports) × AreTypes types.now ports }
        ensures value { IfOk result (λ readers. (ports : Ports) → AreTypes types.now ports →
            AreReaders readers (widths_of «module».now.wires) (readers_of ports «module».now)) }
    {
        let numbering = Numbering::of(alloc, module.wires.as_slice())?;
        let list = readers_in(alloc, module, types, &numbering)?;
        let mut ends = ends_of(alloc, list.as_slice(), numbering.count())?;
        let slots = slots_of(alloc, list.as_slice(), ends.as_mut_slice())?;
        Ok(Readers {
            numbering,
            starts: ends,
            slots,
        })
    }

    /// The number of the bit, where a wire has it. It takes no memory.
    pub(crate) fn number(&self, bit: WireBit) -> Option<u32>
        ensures value { result ≡ number_of self.now.numbering bit }
    {
        match self.numbering.find(bit) {
            Some(number) => Some(number as u32),
            None => None,
        }
    }

    /// The readers of the bit, and none where no wire has it. It takes no memory.
    pub(crate) fn of_bit(&self, bit: WireBit) -> &[Reader]
        ensures value { (widths : List ℕ) (wanted : WireBit → List Reader) (number : ℕ) →
            AreReaders self.now widths wanted → number_of widths bit ≡ Some number → result.now ≡ wanted bit }
    {
        match self.numbering.find(bit) {
            Some(number) => &self.slots[self.starts[number]..self.starts[number + 1]],
            None => &[],
        }
    }
}
