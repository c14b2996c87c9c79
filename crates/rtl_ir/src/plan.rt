//! A memory with its ports, gathered from the cells of a module.

use rtl_bits::{Bits, Copied, Memory, Seq};
use rtl_sig::{SigBit, SigSpec};

/// A read port: the data are the word at the address.
#[derive(Drop)]
pub struct ReadPort {
    /// The place of the cell in the module's list.
    pub cell: u32,
    pub address: SigSpec,
    pub data: SigSpec,
}

/// A write port.
#[derive(Drop)]
pub struct WritePort {
    /// The port's number; greater numbers win.
    pub number: u32,
    pub address: SigSpec,
    pub data: SigSpec,
    /// One enable for each bit of a word.
    pub enable: SigSpec,
    /// Bit `i` says that this port is to win over port number `i`.
    pub mask: Bits,
}

/// A memory as its words, its ports, and the clock of its write ports.
#[derive(Drop)]
pub struct MemPlan {
    /// The place of the memory in the module's list.
    pub store: u64,
    /// The words before the first step.
    pub words: Seq<Bits>,
    pub reads: Seq<ReadPort>,
    /// In rising number.
    pub writes: Seq<WritePort>,
    pub clock: SigBit,
    /// Whether the clock's edge is a rising one.
    pub rising: bool,
}

impl Copied for ReadPort {
    fn copy(&self) -> Result<ReadPort, Memory> {
        Ok(ReadPort {
            cell: self.cell,
            address: self.address.copy()?,
            data: self.data.copy()?,
        })
    }
}

impl Copied for WritePort {
    fn copy(&self) -> Result<WritePort, Memory> {
        Ok(WritePort {
            number: self.number,
            address: self.address.copy()?,
            data: self.data.copy()?,
            enable: self.enable.copy()?,
            mask: self.mask.copy()?,
        })
    }
}

impl Copied for MemPlan {
    fn copy(&self) -> Result<MemPlan, Memory> {
        Ok(MemPlan {
            store: self.store,
            words: self.words.copy()?,
            reads: self.reads.copy()?,
            writes: self.writes.copy()?,
            clock: self.clock,
            rising: self.rising,
        })
    }
}
