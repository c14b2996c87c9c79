//! Laws of the values of gates and of storage bits.

ghost use Rattle.std.specs.Prelude.{◌≡◌, ℕ, Bool};
ghost use Rattle.rtl_bits.specs.Knowledge.{Below, FlatBelow, IsMonotone3};
ghost use Rattle.rtl_bits.specs.Tables.{seen_of, IsPlain};
ghost use Rattle.cell_gate.specs.Gates.{output_of};
ghost use Rattle.cell_gate.specs.Store.{storage_kind};
ghost use Rattle.cell_gate.specs.Control.{active_of, was_of, IsImpossible};
ghost use Rattle.cell_gate.specs.Storage.{acting_of, store_bit_of, IsRegister, IsQuiet, IsPinMonotone};

use crate::pins::Pins;
use cell_types::{GateKind, Shape};
use rtl_bits::Bit;

/// Each gate keeps both orders of knowledge.
#[tactic(auto, using(crate::proofs::Monotone::output_below, crate::proofs::Monotone::output_flat))]
pub fn gates_are_monotone()
    ensures below { (kind : GateKind) → IsMonotone3 Below (output_of kind) }
    ensures flat { (kind : GateKind) → IsMonotone3 FlatBelow (output_of kind) }
{}

/// Each storage bit keeps both orders of knowledge, in the step before and now together.
#[tactic(auto, using(crate::proofs::Monotone::bit_below, crate::proofs::Monotone::bit_flat))]
pub fn storage_is_monotone()
    ensures below { (shape : Shape) (at : ℕ) (first : Bool) →
        IsPinMonotone Below (λ before now. store_bit_of shape at before now first) }
    ensures flat { (shape : Shape) (at : ℕ) (first : Bool) →
        IsPinMonotone FlatBelow (λ before now. store_bit_of shape at before now first) }
{}

/// A register whose asynchronous controls are inactive holds its output where the clock edge is
/// impossible, whatever its other pins are.
#[tactic(auto, using(crate::proofs::Edges::bit_holds))]
pub fn registers_hold()
    ensures held { (shape : Shape) (at : ℕ) (before now : Pins) (first : Bool) →
        IsRegister (storage_kind shape.kind) →
        IsQuiet (storage_kind shape.kind) (acting_of shape.levels now) →
        IsImpossible (active_of shape.levels.clk (was_of first before.clk))
        (active_of shape.levels.clk now.clk) →
        store_bit_of shape at before now first ≡ seen_of before.q }
{}

/// What a gate or a storage bit gives is 0, 1 or x.
#[tactic(auto, using(crate::proofs::Edges::output_plain, crate::proofs::Edges::bit_plain))]
pub fn outputs_are_plain()
    ensures gate { (kind : GateKind) (a b s : Bit) → IsPlain (output_of kind a b s) }
    ensures storage { (shape : Shape) (at : ℕ) (before now : Pins) (first : Bool) →
        IsPlain (store_bit_of shape at before now first) }
{}
