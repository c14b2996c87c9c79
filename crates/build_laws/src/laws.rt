//! The bits of fresh wires. The law is the contract of a function that does nothing.

ghost use Rattle.std.specs.Prelude.{ℕ, List};
ghost use Rattle.net_model.specs.Lists.{Distinct};
ghost use Rattle.map_laws.specs.Expansion.{bits_from};

use rtl_ir::Wire;

/// Each bit of wires that stand one after another is named once.
pub fn fresh_bits_stand_once()
    ensures distinct { (first : ℕ) (wires : List Wire) → Distinct (bits_from first wires) }
{}
