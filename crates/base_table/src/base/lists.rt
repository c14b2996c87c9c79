//! Each call of a list and of a counter once.

use rtl_bits::{Bit, Bits, Copied, Memory, Seq, Steps, Text};
use std::alloc::Global;

/// Four bits, the last two of them from a slice.
fn four_bits(alloc: Global) -> Result<Bits, Memory> {
    let mut bits = Bits::make(alloc);
    bits.push(Bit::S1)?;
    bits.push(Bit::Z)?;
    bits.extend([Bit::X, Bit::S0].as_slice())?;
    Ok(bits)
}

/// Whether a list of bits has what was put into it, and a copy stays as it was.
pub fn holds_bits(alloc: Global) -> Result<bool, Memory> {
    let wanted = [Bit::S1, Bit::Z, Bit::X, Bit::S0];
    let mut bits = four_bits(alloc)?;
    let copy = bits.copy()?;
    bits.push(Bit::M)?;
    let again = Bits::from_slice(copy.allocator(), wanted.as_slice())?;
    let again = Bits::from_vec(again.into_vec());
    Ok(
        Bits::make(alloc).as_slice().is_empty()
            && bits.as_slice().len() == 5
            && copy.as_slice() == wanted.as_slice()
            && again.as_slice() == wanted.as_slice(),
    )
}

/// Whether a copy of a list of two texts has them.
pub fn holds_texts(alloc: Global) -> Result<bool, Memory> {
    let mut texts = Seq::make(alloc);
    texts.push(Text::from_slice(alloc, b"first")?)?;
    texts.push(Text::make(alloc))?;
    let copy = texts.copy()?;
    let [first, second] = copy.as_slice() else {
        return Ok(false);
    };
    Ok(first.as_slice() == b"first".as_slice() && second.as_slice().is_empty())
}

/// The name of the counter.
struct Builds;

/// Whether a counter has what its parts counted.
pub fn counts_steps() -> bool {
    let mut steps = Steps::make(&Builds);
    steps.tick();
    let mut part = steps.part();
    part.tick();
    part.tick();
    steps.join(part);
    let none = steps.part();
    steps.join(none);
    steps.end(&Builds) == 3
}
