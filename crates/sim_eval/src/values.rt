//! The values of bits by number.

ghost use Rattle.std.specs.Prelude.{◌≡◌, ◌<◌, IfOk, IsTrue, length, map, not, slice_index_or};
ghost use Rattle.flat_net.specs.declared.net.Point.{Point};
ghost use Rattle.net_model.specs.Valuation.{passed_of};
ghost use Rattle.sim_eval.specs.Advance.{AreFewer};
ghost use Rattle.sim_eval.specs.Numbers.{gains, is_x, number_read, put_of};

use flat_net::Point;
use rtl_bits::{Bit, Bits, Memory, Seq};
use std::alloc::Global;

/// The bit of a number, x past the end.
pub(crate) fn bit_at(bits: &[Bit], at: u32) -> Bit
    ensures value { result ≡ slice_index_or bits.now at Bit.X }
{
    bit_in(bits, at as usize)
}

/// The bit at a place, x past the end.
pub(crate) fn bit_in(bits: &[Bit], at: usize) -> Bit
    ensures value { result ≡ slice_index_or bits.now at Bit.X }
{
    if at < bits.len() { bits[at] } else { Bit::X }
}

/// Whether the bit of a number has a value.
pub(crate) fn has_value(bits: &[Bit], at: u32) -> bool
    ensures value { result ≡ not (is_x (slice_index_or bits.now at Bit.X)) }
{
    bit_at(bits, at) != Bit::X
}

/// What a point has.
pub(crate) fn read(values: &[Bit], point: Point) -> Bit
    ensures value { result ≡ number_read values.now point }
{
    match point {
        Point::Constant(bit) => bit,
        Point::At(number) => bit_at(values, number),
    }
}

/// What the points of a word have.
pub(crate) fn read_all(alloc: Global, values: &[Bit], points: &[Point]) -> Result<Bits, Memory>
    ensures value { IfOk result (λ word. word ≡ map (number_read values.now) points.now) }
{
    let mut word = Seq::make(alloc);
    for point in points {
        word.push(read(values, *point))?;
    }
    Ok(word)
}

/// The bits of these numbers.
pub(crate) fn bits_of(alloc: Global, values: &[Bit], numbers: &[u32]) -> Result<Bits, Memory>
    ensures value { IfOk result (λ bits. bits ≡ map (λ number. slice_index_or values.now number Bit.X) numbers.now) }
{
    let mut bits = Seq::make(alloc);
    for number in numbers {
        bits.push(bit_at(values, *number))?;
    }
    Ok(bits)
}

/// What a connection passes on of a bit.
pub(crate) fn passed(bit: Bit) -> Bit
    ensures value { result ≡ passed_of bit }
{
    match bit {
        Bit::S0 | Bit::S1 | Bit::Z => bit,
        _ => Bit::X,
    }
}

/// Gives the bit of a number its value, where it had none so far. Answers whether it got one.
#[tactic(auto, using(crate::proofs::Taking::fewer_gained, crate::proofs::Taking::fewer_same))]
pub(crate) fn put(now: &mut [Bit], number: u32, value: Bit) -> bool
    ensures value { now.new ≡ put_of now.old number value }
    ensures gains { result ≡ gains now.old number value }
    ensures fewer { AreFewer now.old now.new result }
{
    if !gains(now, number, value) {
        return false;
    }
    now[number as usize] = value;
    true
}

/// Whether a bit has no value and would get one.
fn gains(now: &[Bit], number: u32, value: Bit) -> bool
    ensures value { result ≡ gains now.now number value }
    ensures within { IsTrue result → number < length now.now }
{
    let number = number as usize;
    number < now.len() && now[number] == Bit::X && value != Bit::X
}
