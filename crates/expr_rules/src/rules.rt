//! The rules, in order: what each puts in the place of a cell.

mod arith;
mod compare;
mod constants;
mod fold;
mod logic;
mod mux;
mod parts;
mod shift;
mod wiring;

ghost use Rattle.std.specs.Prelude.{◌≡◌, IfOk, None, Some};
ghost use Rattle.expr_rules.specs.Laws.{IsComputed, Refines};
ghost use Rattle.expr_rules.specs.Operands.{IsMeant, counted_as};
ghost use Rattle.expr_rules.specs.Rules.{change_of, first_of, result_by, result_of, result_of_gate};
ghost use Rattle.expr_rules.specs.declared.change.Change.{Change};

use crate::change::Change;
use crate::operands::{Operands, counted_as};
use crate::rules::arith::{add_zero, divide_by_power, equal_difference, mul_by_bit, mul_by_power};
use crate::rules::compare::compare;
use crate::rules::constants::{constant_inputs, known_value};
use crate::rules::fold::one_bit;
use crate::rules::logic::{
    and_with_ones, double_not, equal_operands, equal_parity, or_with_zeros, xor_with_ones,
};
use crate::rules::mux::{
    equal_arms, equal_words, inverted_select, known_select, known_selects, select_inverse,
    select_itself, unknown_arm,
};
use crate::rules::parts::{known_part, known_place};
use crate::rules::shift::known_shift;
use crate::rules::wiring::{buffer, wiring};
use cell_types::{Shape, WordKind};
use rtl_bits::Memory;
use std::alloc::Global;

/// A rule: where it fits, another cell or a signal says all that a cell says.
#[derive(Clone, Copy, Debug, PartialEq, Eq)]
pub enum Rule {
    /// All inputs are constants.
    ConstantInputs,
    /// The value is wholly known, whatever the bits of wires have.
    KnownValue,
    /// `$pos`, `$buf`, `$_BUF_`.
    Buffer,
    /// `$slice`, `$concat`.
    Wiring,
    /// A `$mux` whose S is known.
    KnownSelect,
    /// A `$mux` of equal arms.
    EqualArms,
    /// A `$mux` with an arm of unknown constants alone.
    UnknownArm,
    /// A `$mux` of one bit with A 0 and B 1.
    SelectItself,
    /// A `$mux` of one bit with A 1 and B 0.
    SelectInverse,
    /// A `$mux` whose S is an inverter's Y.
    InvertedSelect,
    /// An `$and` with an operand of ones.
    AndWithOnes,
    /// An `$or` or `$xor` with an operand of zeros.
    OrWithZeros,
    /// An `$and` or `$or` of equal operands.
    EqualOperands,
    /// An `$xor` or `$xnor` of equal operands.
    EqualParity,
    /// An `$xor` with an operand of ones.
    XorWithOnes,
    /// A `$not` of a `$not`.
    DoubleNot,
    /// An `$add` with a zero operand, a `$sub` of zero.
    AddZero,
    /// A `$sub` of equal operands.
    EqualDifference,
    /// A `$mul` by 0 or 1.
    MulByBit,
    /// A `$mul` by a power of two.
    MulByPower,
    /// A division cell with a constant power of two below.
    DivideByPower,
    /// A shift by a known number of places.
    KnownShift,
    /// A compare of equal operands, or of one bit with a constant.
    Compare,
    /// A fold of one bit, a `$pmux` of one part.
    OneBit,
    /// A `$bwmux`, all bits of whose S are known.
    KnownSelects,
    /// A `$bwmux` of equal words.
    EqualWords,
    /// A `$bmux` whose S is known.
    KnownPart,
    /// A `$demux` whose S is known.
    KnownPlace,
}

/// The order of the rules.
pub const RULES: [Rule; 28] = [
    Rule::ConstantInputs,
    Rule::KnownValue,
    Rule::Buffer,
    Rule::Wiring,
    Rule::KnownSelect,
    Rule::EqualArms,
    Rule::UnknownArm,
    Rule::SelectItself,
    Rule::SelectInverse,
    Rule::InvertedSelect,
    Rule::AndWithOnes,
    Rule::OrWithZeros,
    Rule::EqualOperands,
    Rule::EqualParity,
    Rule::XorWithOnes,
    Rule::DoubleNot,
    Rule::AddZero,
    Rule::EqualDifference,
    Rule::MulByBit,
    Rule::MulByPower,
    Rule::DivideByPower,
    Rule::KnownShift,
    Rule::Compare,
    Rule::OneBit,
    Rule::KnownSelects,
    Rule::EqualWords,
    Rule::KnownPart,
    Rule::KnownPlace,
];

impl Rule {
    /// What comes in the place of a cell of this shape with these operands, where the rule fits.
    #[tactic(auto, using(crate::proofs::RuleLaws::rule_refines))]
    pub fn result(
        self,
        alloc: Global,
        shape: &Shape,
        operands: &Operands,
    ) -> Result<Option<Change>, Memory>
        requires computed { IsComputed shape.now.kind shape.now operands.now }
        ensures exact { IfOk result (λ change. change ≡ result_of self shape.now operands.now) }
        ensures refines { IfOk result (λ found. IsMeant shape.now operands.now →
            (change : Change) → found ≡ Some change → Refines shape.now operands.now change) }
    {
        let found = self.of_cell(alloc, shape, operands)?;
        Ok(found)
    }

    /// What the rule makes of the cell, by its kind.
    fn of_cell(
        self,
        alloc: Global,
        shape: &Shape,
        operands: &Operands,
    ) -> Result<Option<Change>, Memory>
        requires computed { IsComputed shape.now.kind shape.now operands.now }
        ensures exact { IfOk result (λ change. change ≡ result_of self shape.now operands.now) }
    {
        match counted_as(shape.kind) {
            Some(kind) => self.of_word(alloc, kind, shape, operands),
            None => self.of_gate(alloc, shape, operands),
        }
    }

    /// What the rule makes of a cell that counts as a word cell of this kind.
    #[rattlefmt::skip]
    fn of_word(self, alloc: Global, kind: WordKind, shape: &Shape, operands: &Operands)
        -> Result<Option<Change>, Memory>
        requires counted { counted_as shape.now.kind ≡ Some kind }
        requires computed { IsComputed shape.now.kind shape.now operands.now }
        ensures exact { IfOk result (λ change. change ≡ result_by self kind shape.now operands.now) }
    {
        match self {
            Rule::ConstantInputs => constant_inputs(alloc, shape, operands),
            Rule::KnownValue => known_value(alloc, shape, operands),
            Rule::Buffer => buffer(kind, operands),
            Rule::Wiring => wiring(alloc, kind, shape, operands),
            Rule::KnownSelect => known_select(kind, operands),
            Rule::EqualArms => equal_arms(kind, operands),
            Rule::UnknownArm => unknown_arm(kind, operands),
            Rule::SelectItself => select_itself(kind, operands),
            Rule::SelectInverse => select_inverse(alloc, kind, shape.kind, operands),
            Rule::InvertedSelect => inverted_select(alloc, kind, shape.kind, operands),
            Rule::AndWithOnes => and_with_ones(kind, operands),
            Rule::OrWithZeros => or_with_zeros(kind, operands),
            Rule::EqualOperands => equal_operands(kind, operands),
            Rule::EqualParity => equal_parity(alloc, kind, shape, operands),
            Rule::XorWithOnes => xor_with_ones(alloc, kind, shape.kind, operands),
            Rule::DoubleNot => double_not(kind, shape, operands),
            Rule::AddZero => add_zero(kind, operands),
            Rule::EqualDifference => equal_difference(alloc, kind, shape, operands),
            Rule::MulByBit => mul_by_bit(alloc, kind, shape, operands),
            Rule::MulByPower => mul_by_power(alloc, kind, operands),
            Rule::DivideByPower => divide_by_power(alloc, kind, shape, operands),
            Rule::KnownShift => known_shift(alloc, kind, shape, operands),
            Rule::Compare => compare(alloc, kind, shape, operands),
            Rule::OneBit => one_bit(alloc, kind, shape, operands),
            Rule::KnownSelects => known_selects(alloc, kind, shape, operands),
            Rule::EqualWords => equal_words(kind, operands),
            Rule::KnownPart => known_part(alloc, kind, shape, operands),
            Rule::KnownPlace => known_place(alloc, kind, shape, operands),
        }
    }

    /// What the rule makes of a gate that counts as no word cell.
    fn of_gate(
        self,
        alloc: Global,
        shape: &Shape,
        operands: &Operands,
    ) -> Result<Option<Change>, Memory>
        requires computed { IsComputed shape.now.kind shape.now operands.now }
        ensures exact { IfOk result (λ change. change ≡ result_of_gate self shape.now operands.now) }
    {
        match self {
            Rule::ConstantInputs => constant_inputs(alloc, shape, operands),
            Rule::KnownValue => known_value(alloc, shape, operands),
            _ => Ok(None),
        }
    }
}

/// By the first of these rules that fits.
fn first_of(
    alloc: Global,
    rules: &[Rule],
    shape: &Shape,
    operands: &Operands,
) -> Result<Option<Change>, Memory>
    requires computed { IsComputed shape.now.kind shape.now operands.now }
    ensures exact { IfOk result (λ change. change ≡ first_of rules.now shape.now operands.now) }
{
    for rule in rules {
        if let Some(change) = rule.result(alloc, shape, operands)? {
            return Ok(Some(change));
        }
    }
    Ok(None)
}

/// What comes in the place of a combinational cell of this shape with these operands, by the first rule that fits. A
/// signal that it gives is as wide as Y. In the Yosys manual, "opt_expr".
#[tactic(auto, using(crate::proofs::RuleLaws::change_refines))]
pub fn first_fit(
    alloc: Global,
    shape: &Shape,
    operands: &Operands,
) -> Result<Option<Change>, Memory>
    requires computed { IsComputed shape.now.kind shape.now operands.now }
    ensures exact { IfOk result (λ change. change ≡ change_of shape.now operands.now) }
    ensures refines { IfOk result (λ found. IsMeant shape.now operands.now →
        (change : Change) → found ≡ Some change → Refines shape.now operands.now change) }
{
    match first_of(alloc, &RULES, shape, operands)? {
        Some(change) => Ok(Some(change.fitted(shape.widths.y)?)),
        None => Ok(None),
    }
}
