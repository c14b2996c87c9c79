//! The tree bits of a process by their numbers.

ghost use Rattle.std.specs.Prelude.{IfOk};
ghost use Rattle.process_trees.specs.Numbers.{AreNumbers};

use rtl_bits::Memory;
use rtl_sig::WireBit;
use std::alloc::Global;
use std::collections::HashMap;

/// The numbers of bits.
pub type Numbers = HashMap<WireBit, usize>;

/// The bits by their numbers. Of one that stands there more than once the first counts.
pub fn numbers_of(alloc: Global, bits: &[WireBit]) -> Result<Numbers, Memory>
    ensures numbers { IfOk result (λ numbers. AreNumbers numbers bits.now) }
{
    let mut numbers = HashMap::new(alloc);
    for at in (0..bits.len()).rev() {
        numbers.insert(bits[at], at)?;
    }
    Ok(numbers)
}
