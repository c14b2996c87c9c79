//! The value of a combinational cell on words.

ghost use Rattle.std.specs.Prelude.{◌≡◌, ◌≤◌, [], IfOk, length};
ghost use Rattle.cell_word.specs.Values.{HasInputs, IsBinary, IsChoice, IsWithin, input_count, input_of, unary_of};
ghost use Rattle.cell_word.specs.Values.{value_of, word_value_of};

use crate::arithmetic::{arith, division, negative, order};
use crate::bitwise::{bitwise, inverse, itself};
use crate::choice::{bwmuxed, joined, muxed, part, picked};
use crate::folds::{equality, folded, logic};
use crate::parts::{bmuxed, demuxed};
use crate::shift::shifted;
use crate::words::{at_or, one_bit};
use cell_types::{CellKind, Shape, UnaryKind, WordKind};
use rtl_bits::{Bit, Bits, Memory};
use std::alloc::Global;

/// The value of a combinational cell on words, of the words at its pins A, B and S, in this order, as far as it has
/// them; where it has S and no B, an empty word stands for B. In the Yosys manual, "Word-level cells", the sections
/// "Unary operators", "Binary operators" and "Multiplexers".
///
/// Each unknown bit counts as x. Negation, sums, products, quotients and orders take words of at
/// most 128 bits; a shift takes an A, and `$pmux` an S, of at most 4,096; `$bmux` and `$demux` take an S of
/// at most 12.
pub fn word_value(alloc: Global, shape: &Shape, inputs: &[Bits]) -> Result<Bits, Memory>
    requires inputs { HasInputs shape.now.kind shape.now inputs.now }
    ensures value { IfOk result (λ bits. bits ≡ word_value_of shape.now inputs.now) }
{
    match shape.kind {
        CellKind::Word(kind) => value(alloc, kind, shape, inputs),
        _ => unreachable!(),
    }
}

fn value(alloc: Global, kind: WordKind, shape: &Shape, inputs: &[Bits]) -> Result<Bits, Memory>
    requires count { input_count kind ≤ length inputs.now }
    requires within { IsWithin kind (input_of inputs.now 0) (input_of inputs.now 1) (input_of inputs.now 2)
        shape.now.widths.y }
    ensures value { IfOk result
        (λ bits. bits ≡
        value_of kind shape.now (input_of inputs.now 0) (input_of inputs.now 1) (input_of inputs.now 2)) }
{
    let a = &inputs[0];
    let y = shape.widths.y;
    match kind {
        WordKind::Unary(kind) => unary(alloc, kind, shape.signs.a, a, y),
        WordKind::Fold(kind) => one_bit(alloc, folded(kind, a.as_slice()), y),
        WordKind::Slice => part(alloc, a.as_slice(), shape.offset as usize, y),
        WordKind::Buf => itself(alloc, false, a.as_slice(), y),
        WordKind::Mux | WordKind::Pmux | WordKind::Bwmux | WordKind::Bmux | WordKind::Demux => {
            chosen(alloc, kind, shape, inputs)
        }
        _ => binary(alloc, kind, shape, a, &inputs[1]),
    }
}

/// A cell with the pin S.
fn chosen(alloc: Global, kind: WordKind, shape: &Shape, inputs: &[Bits]) -> Result<Bits, Memory>
    requires choice { IsChoice kind }
    requires count { 3 ≤ length inputs.now }
    requires within { IsWithin kind (input_of inputs.now 0) (input_of inputs.now 1) (input_of inputs.now 2)
        shape.now.widths.y }
    ensures value { IfOk result
        (λ bits. bits ≡
        value_of kind shape.now (input_of inputs.now 0) (input_of inputs.now 1) (input_of inputs.now 2)) }
{
    let a = inputs[0].as_slice();
    let b = inputs[1].as_slice();
    let s = inputs[2].as_slice();
    let y = shape.widths.y;
    match kind {
        WordKind::Mux => muxed(alloc, a, b, at_or(s, 0, Bit::X), y),
        WordKind::Pmux => picked(alloc, a, b, s, y),
        WordKind::Bwmux => bwmuxed(alloc, a, b, s, y),
        WordKind::Bmux => bmuxed(alloc, a, s, y),
        WordKind::Demux => demuxed(alloc, a, s),
        _ => unreachable!(),
    }
}

fn unary(alloc: Global, kind: UnaryKind, signed: bool, a: &Bits, width: u32) -> Result<Bits, Memory>
    requires within { IsWithin (WordKind.Unary kind) a.now [] [] width }
    ensures value { IfOk result (λ bits. bits ≡ unary_of kind signed a.now width) }
{
    match kind {
        UnaryKind::Not => inverse(alloc, signed, a.as_slice(), width),
        UnaryKind::Pos => itself(alloc, signed, a.as_slice(), width),
        UnaryKind::Neg => negative(alloc, signed, a, width),
    }
}

/// A cell with the pins A and B alone.
fn binary(alloc: Global, kind: WordKind, shape: &Shape, a: &Bits, b: &Bits) -> Result<Bits, Memory>
    requires binary { IsBinary kind }
    requires within { IsWithin kind a.now b.now [] shape.now.widths.y }
    ensures value { IfOk result (λ bits. bits ≡ value_of kind shape.now a.now b.now []) }
{
    let signed = shape.signs.a && shape.signs.b;
    let y = shape.widths.y;
    match kind {
        WordKind::Bitwise(kind) => bitwise(alloc, kind, signed, a.as_slice(), b.as_slice(), y),
        WordKind::Logic(kind) => one_bit(alloc, logic(kind, a.as_slice(), b.as_slice()), y),
        WordKind::Equal(kind) => {
            one_bit(alloc, equality(kind, signed, a.as_slice(), b.as_slice()), y)
        }
        WordKind::Order(kind) => one_bit(alloc, order(kind, signed, a, b), y),
        WordKind::Arith(kind) => arith(alloc, kind, signed, a, b, y),
        WordKind::Division(kind) => division(alloc, kind, signed, a, b, y),
        WordKind::Shift(kind) => {
            shifted(alloc, kind, shape.signs, a.as_slice(), b.as_slice(), y)
        }
        WordKind::Concat => joined(alloc, a.as_slice(), b.as_slice()),
        _ => unreachable!(),
    }
}
