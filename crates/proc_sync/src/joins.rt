//! The sides of places of lines that update.

ghost use Rattle.std.specs.Prelude.{◌≡◌, IfOk};
ghost use Rattle.net_model.specs.Proc.Sync.{left_side, right_side};

use rtl_bits::Memory;
use rtl_ir::Join;
use rtl_sig::SigBit;
use std::alloc::Global;

/// The left side of places.
pub(crate) fn left_side(alloc: Global, places: &[Join]) -> Result<Vec<SigBit>, Memory>
    ensures value { IfOk result (λ bits. bits.items ≡ left_side places.now) }
{
    let mut bits = Vec::with_capacity(alloc, places.len())?;
    for place in places {
        bits.push(SigBit::Wire(place.bit))?;
    }
    Ok(bits)
}

/// The right side of places.
pub(crate) fn right_side(alloc: Global, places: &[Join]) -> Result<Vec<SigBit>, Memory>
    ensures value { IfOk result (λ bits. bits.items ≡ right_side places.now) }
{
    let mut bits = Vec::with_capacity(alloc, places.len())?;
    for place in places {
        bits.push(place.source)?;
    }
    Ok(bits)
}
