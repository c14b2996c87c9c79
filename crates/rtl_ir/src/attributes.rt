//! What attributes say.

ghost use Rattle.std.specs.Prelude.{◌≡◌, IfOk, not};
ghost use Rattle.std.specs.List.{list_any};
ghost use Rattle.rtl_bits.specs.declared.bit.Bit.TheVariants.{S0};
ghost use Rattle.rtl_ir.specs.Attributes.{attribute_bits, is_kept};
ghost use Rattle.rtl_ir.specs.Signals.{same_value};

use crate::constants::value_bits;
use crate::value::Attribute;
use rtl_bits::{Bit, Bits, Memory};
use std::alloc::Global;

/// The bits of the attribute of this name, none where there is no such attribute.
pub fn attribute_bits(alloc: Global, attributes: &[Attribute], name: &[u8]) -> Result<Bits, Memory>
    ensures value { IfOk result (λ bits. bits ≡ attribute_bits attributes.now name.now) }
{
    for attribute in attributes {
        if attribute.name.as_slice() == name {
            return value_bits(alloc, &attribute.value);
        }
    }
    Ok(Bits::make(alloc))
}

/// Whether the attribute `\keep` is there and nonzero: one of its bits is not 0.
pub fn is_kept(alloc: Global, attributes: &[Attribute]) -> Result<bool, Memory>
    ensures value { IfOk result (λ kept. kept ≡ is_kept attributes.now) }
{
    let bits = attribute_bits(alloc, attributes, b"\\keep")?;
    Ok(is_nonzero(bits.as_slice()))
}

/// Whether one of the bits is not 0.
fn is_nonzero(bits: &[Bit]) -> bool
    ensures value { result ≡ list_any (λ b. not (same_value S0 b)) bits.now }
{
    bits.iter().any(|bit| *bit != Bit::S0)
}
