//! The operands of a cell, as they stand and as the rules mean them.

ghost use Rattle.std.specs.Prelude.{◌≡◌, IfOk};
ghost use Rattle.expr_rules.specs.Operands.{IsMeant, counted_as, counted_gate, meant_of, meant_signed, meant_width};
ghost use Rattle.expr_rules.specs.Operands.{operands_of};

use cell_types::{BitwiseKind, CellKind, GateKind, Shape, UnaryKind, WordKind};
use rtl_bits::Memory;
use rtl_sig::{SigBit, SigSpec, extended};
use std::alloc::Global;

/// The operands of a combinational cell. A pin that its kind lacks has no bits.
#[derive(Drop)]
pub struct Operands {
    /// The signals at A, B and S.
    pub a: SigSpec,
    pub b: SigSpec,
    pub s: SigSpec,
    /// A and B as they are meant: of compares extended to the greater width of the two, of division cells to the
    /// greatest of the three widths, else to the width of Y.
    pub left: SigSpec,
    pub right: SigSpec,
    /// The A of an inverter of one bit whose Y is S: a `$not` or `$logic_not` with A_WIDTH and Y_WIDTH 1, or a
    /// `$_NOT_`.
    pub inverted: Option<SigBit>,
    /// The A of another `$not` or `$_NOT_` whose whole Y is A, as it stands in that cell now.
    pub inner: Option<SigSpec>,
}

/// The signals that lead to a cell through inverters.
#[derive(Drop)]
pub struct Inverters {
    /// The A of an inverter of one bit whose Y is S.
    pub inverted: Option<SigBit>,
    /// The A of another `$not` or `$_NOT_` whose whole Y is A.
    pub inner: Option<SigSpec>,
}

impl Operands {
    /// The operands of a cell of a shape, with these signals at A, B and S, and these signals of inverters below it.
    #[tactic(auto, using(crate::proofs::Meant::operands_meant))]
    pub fn of(
        alloc: Global,
        shape: &Shape,
        a: SigSpec,
        b: SigSpec,
        s: SigSpec,
        inverters: Inverters,
    ) -> Result<Operands, Memory>
        ensures value { IfOk result (λ o. o ≡ operands_of shape.now a b s inverters.inverted inverters.inner) }
        ensures meant { IfOk result (IsMeant shape.now) }
    {
        let left = meant(alloc, shape, &a, &b, &a)?;
        let right = meant(alloc, shape, &a, &b, &b)?;
        let Inverters { inverted, inner } = inverters;
        Ok(Operands {
            a,
            b,
            s,
            left,
            right,
            inverted,
            inner,
        })
    }
}

/// The word cell of width 1 that a gate counts as; those with an inverse at an input or at the output count as none.
fn counted_gate(kind: GateKind) -> Option<WordKind>
    ensures value { result ≡ counted_gate kind }
{
    match kind {
        GateKind::Buf => Some(WordKind::Unary(UnaryKind::Pos)),
        GateKind::Not => Some(WordKind::Unary(UnaryKind::Not)),
        GateKind::And => Some(WordKind::Bitwise(BitwiseKind::And)),
        GateKind::Or => Some(WordKind::Bitwise(BitwiseKind::Or)),
        GateKind::Xor => Some(WordKind::Bitwise(BitwiseKind::Xor)),
        GateKind::Xnor => Some(WordKind::Bitwise(BitwiseKind::Xnor)),
        GateKind::Mux => Some(WordKind::Mux),
        _ => None,
    }
}

/// The word cell that a cell counts as.
pub(crate) fn counted_as(kind: CellKind) -> Option<WordKind>
    ensures value { result ≡ counted_as kind }
{
    match kind {
        CellKind::Word(kind) => Some(kind),
        CellKind::Gate(kind) => counted_gate(kind),
        _ => None,
    }
}

/// An operand as it is meant, of a cell with these operands.
fn meant(
    alloc: Global,
    shape: &Shape,
    a: &SigSpec,
    b: &SigSpec,
    operand: &SigSpec,
) -> Result<SigSpec, Memory>
    ensures value { IfOk result (λ word. word ≡ meant_of shape.now a.now b.now operand.now) }
{
    match counted_as(shape.kind) {
        Some(kind) => {
            let (wide, high) = (a.as_slice().len(), b.as_slice().len());
            let width = meant_width(kind, wide, high, shape.widths.y as usize);
            extended(alloc, operand.as_slice(), width, meant_signed(kind, shape))
        }
        None => Ok(SigSpec::make(alloc)),
    }
}

/// The width to which operands are extended, by their own widths and that of Y.
fn meant_width(kind: WordKind, a: usize, b: usize, y: usize) -> usize
    ensures value { result ≡ meant_width kind a b y }
{
    match kind {
        WordKind::Equal(_) => a.max(b),
        WordKind::Order(_) => a.max(b),
        WordKind::Division(_) => a.max(b).max(y),
        _ => y,
    }
}

/// Whether they are extended with their top bits.
fn meant_signed(kind: WordKind, shape: &Shape) -> bool
    ensures value { result ≡ meant_signed kind shape.now }
{
    match kind {
        WordKind::Unary(_) => shape.signs.a,
        _ => shape.signs.a && shape.signs.b,
    }
}
