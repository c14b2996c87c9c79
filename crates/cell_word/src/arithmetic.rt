//! The cells that compute with integers.

ghost use Rattle.std.specs.Prelude.{◌≡◌, ◌<◌, ◌≤◌, IfOk, length, ℤ, ◌+ℤ◌, ◌*ℤ◌, neg_ℤ, int_div, int_rem, int_lt};
ghost use Rattle.cell_word.specs.Arithmetic.{arith_of, division_of, floor_div, floor_rem, is_ordered, negative_of};
ghost use Rattle.cell_word.specs.Arithmetic.{order_of, quotient_bits_of, quotient_of, result_of, rounds_up};
ghost use Rattle.cell_word.specs.Sizes.{IsProper, StandsFor, integer_value};

use crate::integer::{Integer, bits_of, read_integer};
use crate::words::unknown;
use cell_types::{ArithKind, DivisionKind, OrderKind};
use rtl_bits::{Bit, Bits, Memory};
use std::alloc::Global;

/// The two's complement, all x where a bit is unknown.
pub(crate) fn negative(alloc: Global, signed: bool, a: &Bits, width: u32) -> Result<Bits, Memory>
    requires a_width { length a.now ≤ 128 }
    requires width { width ≤ 128 }
    ensures value { IfOk result (λ bits. bits ≡ negative_of signed a.now width) }
{
    match read_integer(signed, a) {
        Some(a) => bits_of(alloc, negated(a), width),
        None => unknown(alloc, width),
    }
}

/// The result modulo 2 to the width, all x where an operand bit is unknown.
pub(crate) fn arith(
    alloc: Global,
    kind: ArithKind,
    signed: bool,
    a: &Bits,
    b: &Bits,
    width: u32,
) -> Result<Bits, Memory>
    requires a_width { length a.now ≤ 128 }
    requires b_width { length b.now ≤ 128 }
    requires width { width ≤ 128 }
    ensures value { IfOk result (λ bits. bits ≡ arith_of kind signed a.now b.now width) }
{
    match (read_integer(signed, a), read_integer(signed, b)) {
        (Some(a), Some(b)) => bits_of(alloc, computed(kind, a, b), width),
        _ => unknown(alloc, width),
    }
}

/// The quotient or the remainder, all x where an operand bit is unknown or the divisor is 0.

pub(crate) fn division(
    alloc: Global,
    kind: DivisionKind,
    signed: bool,
    a: &Bits,
    b: &Bits,
    width: u32,
) -> Result<Bits, Memory>
    requires a_width { length a.now ≤ 128 }
    requires b_width { length b.now ≤ 128 }
    requires width { width ≤ 128 }
    ensures value { IfOk result (λ bits. bits ≡ division_of kind signed a.now b.now width) }
{
    match (read_integer(signed, a), read_integer(signed, b)) {
        (Some(a), Some(b)) => quotient_bits(alloc, kind, a, b, width),
        _ => unknown(alloc, width),
    }
}

/// The bits of the quotient or the remainder, all x where the divisor is 0.
#[tactic(auto, using(crate::proofs::Signs::size_of_signed, crate::proofs::Signs::stands))]
fn quotient_bits(
    alloc: Global,
    kind: DivisionKind,
    a: Integer,
    b: Integer,
    width: u32,
) -> Result<Bits, Memory>
    requires a_proper { IsProper a }
    requires b_proper { IsProper b }
    requires width { width ≤ 128 }
    ensures value { IfOk result
        (λ bits. bits ≡ quotient_bits_of kind (integer_value a) (integer_value b) width) }
{
    if b.size == 0 {
        unknown(alloc, width)
    } else {
        bits_of(alloc, divided(kind, a, b), width)
    }
}

/// The bit of an order, x where an operand bit is unknown.
pub(crate) fn order(kind: OrderKind, signed: bool, a: &Bits, b: &Bits) -> Bit
    requires a_width { length a.now ≤ 128 }
    requires b_width { length b.now ≤ 128 }
    ensures value { result ≡ order_of kind signed a.now b.now }
{
    match (read_integer(signed, a), read_integer(signed, b)) {
        (Some(a), Some(b)) => {
            if is_ordered(kind, a, b) {
                Bit::S1
            } else {
                Bit::S0
            }
        }
        _ => Bit::X,
    }
}

fn negated(a: Integer) -> Integer
    ensures value { integer_value result ≡ neg_ℤ (integer_value a) }
{
    Integer {
        negative: !a.negative,
        size: a.size,
    }
}

/// The sum. Of two integers of one sign it may wrap.
#[tactic(auto, using(crate::proofs::Signs::sum_of_less, crate::proofs::Signs::sum_of_more, crate::proofs::Signs::stands))]
fn sum(a: Integer, b: Integer) -> Integer
    ensures value { StandsFor result (integer_value a +ℤ integer_value b) }
{
    if a.negative == b.negative {
        Integer {
            negative: a.negative,
            size: a.size.wrapping_add(b.size),
        }
    } else if a.size < b.size {
        Integer {
            negative: b.negative,
            size: b.size - a.size,
        }
    } else {
        Integer {
            negative: a.negative,
            size: a.size - b.size,
        }
    }
}

/// The product, which may wrap.
fn product(a: Integer, b: Integer) -> Integer
    ensures value { StandsFor result (integer_value a *ℤ integer_value b) }
{
    Integer {
        negative: a.negative != b.negative,
        size: a.size.wrapping_mul(b.size),
    }
}

/// Whether a quotient rounded toward zero lies above the exact one.
#[tactic(auto, using(crate::proofs::Signs::rounds_up_by_signs))]
fn rounds_up(a: Integer, b: Integer) -> bool
    requires divisor { 0 < b.size }
    requires a_proper { IsProper a }
    requires b_proper { IsProper b }
    ensures value { result ≡ rounds_up (integer_value a) (integer_value b) }
{
    a.size % b.size != 0 && a.negative != b.negative
}

/// The quotient rounded toward zero.
#[tactic(auto, using(crate::proofs::Signs::quotient_of_signs))]
fn quotient(a: Integer, b: Integer) -> Integer
    requires divisor { 0 < b.size }
    ensures value { integer_value result ≡ int_div (integer_value a) (integer_value b) }
{
    Integer {
        negative: a.negative != b.negative,
        size: a.size / b.size,
    }
}

/// The remainder with the sign of the dividend.
#[tactic(auto, using(crate::proofs::Signs::remainder_of_signs))]
fn remainder(a: Integer, b: Integer) -> Integer
    requires divisor { 0 < b.size }
    ensures value { integer_value result ≡ int_rem (integer_value a) (integer_value b) }
{
    Integer {
        negative: a.negative,
        size: a.size % b.size,
    }
}

/// The quotient rounded down.
#[tactic(auto, using(crate::proofs::Signs::raised_fits, crate::proofs::Signs::floor_of_quotient))]
fn floor_quotient(a: Integer, b: Integer) -> Integer
    requires divisor { 0 < b.size }
    requires a_proper { IsProper a }
    requires b_proper { IsProper b }
    ensures value { integer_value result ≡ floor_div (integer_value a) (integer_value b) }
{
    if rounds_up(a, b) {
        Integer {
            negative: true,
            size: a.size / b.size + 1,
        }
    } else {
        quotient(a, b)
    }
}

/// The remainder with the sign of the divisor.
#[tactic(auto, using(crate::proofs::Signs::floor_of_remainder))]
fn floor_remainder(a: Integer, b: Integer) -> Integer
    requires divisor { 0 < b.size }
    requires a_proper { IsProper a }
    requires b_proper { IsProper b }
    ensures value { integer_value result ≡ floor_rem (integer_value a) (integer_value b) }
{
    if rounds_up(a, b) {
        Integer {
            negative: b.negative,
            size: b.size - a.size % b.size,
        }
    } else {
        remainder(a, b)
    }
}

fn divided(kind: DivisionKind, a: Integer, b: Integer) -> Integer
    requires divisor { 0 < b.size }
    requires a_proper { IsProper a }
    requires b_proper { IsProper b }
    ensures value { integer_value result ≡ quotient_of kind (integer_value a) (integer_value b) }
{
    match kind {
        DivisionKind::Div => quotient(a, b),
        DivisionKind::Mod => remainder(a, b),
        DivisionKind::DivFloor => floor_quotient(a, b),
        DivisionKind::ModFloor => floor_remainder(a, b),
    }
}

/// Whether A is less than B.
#[tactic(auto, using(crate::proofs::Signs::less_below, crate::proofs::Signs::less_above, crate::proofs::Signs::less_negative, crate::proofs::Signs::less_positive))]
fn is_less(a: Integer, b: Integer) -> bool
    requires a_proper { IsProper a }
    requires b_proper { IsProper b }
    ensures value { result ≡ int_lt (integer_value a) (integer_value b) }
{
    match (a.negative, b.negative) {
        (false, false) => a.size < b.size,
        (true, true) => b.size < a.size,
        (negative, _) => negative,
    }
}

fn is_ordered(kind: OrderKind, a: Integer, b: Integer) -> bool
    requires a_proper { IsProper a }
    requires b_proper { IsProper b }
    ensures value { result ≡ is_ordered kind (integer_value a) (integer_value b) }
{
    match kind {
        OrderKind::Lt => is_less(a, b),
        OrderKind::Le => !is_less(b, a),
        OrderKind::Ge => !is_less(a, b),
        OrderKind::Gt => is_less(b, a),
    }
}

fn computed(kind: ArithKind, a: Integer, b: Integer) -> Integer
    ensures value { StandsFor result (result_of kind (integer_value a) (integer_value b)) }
{
    match kind {
        ArithKind::Add => sum(a, b),
        ArithKind::Sub => sum(a, negated(b)),
        ArithKind::Mul => product(a, b),
    }
}
