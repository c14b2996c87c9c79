//! Laws of the values of word cells.

ghost use Rattle.std.specs.Prelude.{◌≡◌, ◌≤◌, ℤ, ◌+ℤ◌, ◌*ℤ◌, int_div, int_rem, List, Ok, length};
ghost use Rattle.rtl_bits.specs.Knowledge.{Below, FlatBelow, AreBelow, AreFlatBelow};
ghost use Rattle.cell_word.specs.Arithmetic.{floor_div, floor_rem};
ghost use Rattle.cell_word.specs.Values.{HasInputs, InputsBelow, input_count, input_of, word_value_of};
ghost use Rattle.cell_types.specs.Shape.{shape_of};

use cell_types::{CellKind, Param, PinWidth, Shape, WordKind};
use rtl_bits::Bit;

/// The value of each word cell keeps both orders of knowledge.
#[tactic(auto, using(crate::proofs::Monotone::word_value_below, crate::proofs::Monotone::word_value_flat))]
pub fn words_are_monotone()
    ensures below { (shape : Shape) (low high : List (List Bit)) → InputsBelow Below low high →
        AreBelow (word_value_of shape low) (word_value_of shape high) }
    ensures flat { (shape : Shape) (low high : List (List Bit)) → InputsBelow FlatBelow low high →
        AreFlatBelow (word_value_of shape low) (word_value_of shape high) }
{}

/// The inputs of a cell that has a shape are such as `word_value` takes, where there are enough
/// and none is wider than the shape says.
#[tactic(auto, using(crate::proofs::Limits::shaped_within))]
pub fn shapes_are_within()
    ensures within { (kind : WordKind) (params : List Param) (pins : List PinWidth) (shape : Shape)
        (inputs : List (List Bit)) →
        shape_of (CellKind.Word kind) params pins ≡ Ok shape → input_count kind ≤ length inputs →
        length (input_of inputs 0) ≤ shape.widths.a → length (input_of inputs 1) ≤ shape.widths.b →
        length (input_of inputs 2) ≤ shape.widths.s → HasInputs shape.kind shape inputs }
{}

/// A quotient times the divisor, and its remainder, are together the dividend, both for quotients
/// rounded toward zero and for those rounded down.
#[tactic(auto, using(crate::proofs::Floor::trunc_whole, crate::proofs::Floor::floor_whole))]
pub fn quotients_and_remainders()
    ensures truncated { (a b : ℤ) → int_div a b *ℤ b +ℤ int_rem a b ≡ a }
    ensures floored { (a b : ℤ) → floor_div a b *ℤ b +ℤ floor_rem a b ≡ a }
{}
