//! Copies of what passes between two passes.

use rtl_bits::{Bit, Bits, Copied, Memory, Seq};
use rtl_ir::{Machine, MemPlan, ReadPort, WritePort};
use rtl_sig::{SigBit, SigSpec, WireBit};
use std::alloc::Global;

/// A signal of one bit.
fn signal(alloc: Global, bit: SigBit) -> Result<SigSpec, Memory> {
    SigSpec::from_slice(alloc, [bit].as_slice())
}

const A0: SigBit = SigBit::Wire(WireBit { wire: 0, at: 0 });

const A1: SigBit = SigBit::Wire(WireBit { wire: 0, at: 1 });

const Y: SigBit = SigBit::Wire(WireBit { wire: 1, at: 0 });

const ONE: SigBit = SigBit::Fixed(Bit::S1);

fn machine(alloc: Global) -> Result<Machine, Memory> {
    let mut states = Seq::make(alloc);
    states.push(Bits::from_slice(alloc, [Bit::S1, Bit::S0].as_slice())?)?;
    Ok(Machine {
        wire: 1,
        flop: 2,
        muxes: Seq::from_slice(alloc, [7].as_slice())?,
        compares: Seq::make(alloc),
        states,
        reset: Some(Bits::from_slice(alloc, [Bit::S1].as_slice())?),
        start: None,
    })
}

fn reads(alloc: Global) -> Result<Seq<ReadPort>, Memory> {
    let mut reads = Seq::make(alloc);
    reads.push(ReadPort {
        cell: 3,
        address: signal(alloc, A0)?,
        data: signal(alloc, Y)?,
    })?;
    Ok(reads)
}

fn writes(alloc: Global) -> Result<Seq<WritePort>, Memory> {
    let mut writes = Seq::make(alloc);
    writes.push(WritePort {
        number: 4,
        address: signal(alloc, A0)?,
        data: signal(alloc, A1)?,
        enable: signal(alloc, ONE)?,
        mask: Bits::from_slice(alloc, [Bit::S0].as_slice())?,
    })?;
    Ok(writes)
}

fn plan(alloc: Global) -> Result<MemPlan, Memory> {
    Ok(MemPlan {
        store: 0,
        words: Seq::make(alloc),
        reads: reads(alloc)?,
        writes: writes(alloc)?,
        clock: A0,
        rising: true,
    })
}

/// Whether a copy of a machine has what the machine has.
pub fn keeps_machine(alloc: Global) -> Result<bool, Memory> {
    let copy = machine(alloc)?.copy()?;
    Ok(
        copy.wire == 1
            && copy.flop == 2
            && copy.muxes.as_slice() == [7].as_slice()
            && copy.states.as_slice().len() == 1
            && copy.reset.is_some()
            && copy.start.is_none(),
    )
}

/// Whether a copy of a plan has what the plan has.
pub fn keeps_plan(alloc: Global) -> Result<bool, Memory> {
    let copy = plan(alloc)?.copy()?;
    let ([read], [write]) = (copy.reads.as_slice(), copy.writes.as_slice()) else {
        return Ok(false);
    };
    Ok(
        copy.clock == A0
            && copy.rising
            && read.data.as_slice() == [Y].as_slice()
            && write.enable.as_slice() == [ONE].as_slice(),
    )
}
