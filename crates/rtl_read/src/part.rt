//! The part of a signal that was read last.

ghost use Rattle.std.specs.Prelude.{◌≡◌, ◌<◌, ◌≤◌, ◌+◌, ◌-◌, ◌++◌, IfOk, OnOk, drop, length, take};
ghost use Rattle.rtl_read.specs.Part.{range_bits};
ghost use Rattle.rtl_read.specs.Signal.{wire_bits};

use crate::stack::Stack;
use rtl_bits::Memory;
use rtl_sig::{SigBit, SigSpec, WireBit};
use std::alloc::Global;
use std::marker::Model;

/// How a part is kept.
#[derive(Drop)]
pub enum Piece {
    /// Bits one by one.
    Bits(SigSpec),
    /// The bits of a wire from one place up to another, which is not among them.
    Range { wire: u32, from: u32, to: u32 },
}

/// Bits of a signal, the least significant first. The bits of one wire are kept as their places alone, so that a bit
/// of a wide wire is read without the others. Contracts see the bits.
#[derive(Drop)]
pub struct Part {
    piece: Piece,
}

impl Model for Part {
    ghost use Rattle.std.specs.Prelude.{List};
    ghost use Rattle.rtl_sig.specs.declared.sig.SigBit.{SigBit};
    ghost use Rattle.rtl_read.specs.Part.{piece_bits};

    ghost Value = { List SigBit };

    ghost view = { λ p. piece_bits p.piece };
}

/// The bits of a wire from one place up to another, as a list.
#[tactic(auto, using(crate::proofs::Parts::range_last, crate::proofs::Parts::range_none))]
fn range_list(alloc: Global, wire: u32, from: u32, to: u32) -> Result<Vec<SigBit>, Memory>
    ensures { IfOk result (λ bits. bits.items ≡ range_bits wire from (to - from)) }
{
    let width = to.saturating_sub(from);
    let mut bits = Vec::with_capacity(alloc, width as usize)?;
    for above in 0..width {
        let at = from + above;
        bits.push(SigBit::Wire(WireBit { wire, at }))?;
    }
    Ok(bits)
}

/// The bits of a wire from one place up to another. One bit takes no memory.
#[tactic(auto, using(crate::proofs::Parts::range_one))]
fn range_bits(alloc: Global, wire: u32, from: u32, to: u32) -> Result<SigSpec, Memory>
    ensures { IfOk result (λ sig. sig ≡ range_bits wire from (to - from)) }
{
    if to.saturating_sub(from) == 1 {
        return SigSpec::from_slice(alloc, &[SigBit::Wire(WireBit { wire, at: from })]);
    }
    SigSpec::from_vec(range_list(alloc, wire, from, to)?)
}

/// The bits of a wire from one place up to another go on top, the lowest last.
#[tactic(auto, using(crate::proofs::Parts::range_first, crate::proofs::Parts::range_none))]
fn cover_range(brace: &mut Stack<SigBit>, wire: u32, from: u32, to: u32) -> Result<(), Memory>
    ensures { OnOk result (brace.new ≡ range_bits wire from (to - from) ++ brace.old) }
{
    let width = to.saturating_sub(from);
    for above in (0..width).rev() {
        let at = from + above;
        brace.push(SigBit::Wire(WireBit { wire, at }))?;
    }
    Ok(())
}

/// The bits from place `low` up to place `high` of those of a wire from one place up to another.
#[tactic(auto, using(crate::proofs::Parts::range_between))]
fn range_between(wire: u32, from: u32, to: u32, low: usize, high: usize) -> Part
    requires order { low ≤ high }
    requires within { high < to - from }
    ensures { result ≡ take (high + 1 - low) (drop low (range_bits wire from (to - from))) }
{
    let above = from + high as u32;
    Part {
        piece: Piece::Range {
            wire,
            from: from + low as u32,
            to: above + 1,
        },
    }
}

impl Part {
    /// The bits of a signal.
    pub(crate) fn of(sig: SigSpec) -> Part
        ensures { result ≡ sig }
    {
        Part {
            piece: Piece::Bits(sig),
        }
    }

    /// All bits of a wire of this width.
    #[tactic(auto, using(crate::proofs::Parts::whole_wire))]
    pub(crate) fn whole(wire: u32, width: u32) -> Part
        ensures { result ≡ wire_bits wire width }
    {
        Part {
            piece: Piece::Range {
                wire,
                from: 0,
                to: width,
            },
        }
    }

    /// How many bits there are.
    #[tactic(auto, using(crate::proofs::Parts::range_length))]
    pub(crate) fn len(&self) -> usize
        ensures { result ≡ length self.now }
    {
        match &self.piece {
            Piece::Bits(sig) => sig.as_slice().len(),
            Piece::Range { from, to, .. } => to.saturating_sub(*from) as usize,
        }
    }

    /// The bits from place `low` up to place `high`.
    #[tactic(auto, using(crate::proofs::Parts::range_length))]
    pub(crate) fn between(&self, alloc: Global, low: usize, high: usize) -> Result<Part, Memory>
        requires order { low ≤ high }
        requires within { high < length self.now }
        ensures { IfOk result (λ part. part ≡ take (high + 1 - low) (drop low self.now)) }
    {
        match &self.piece {
            Piece::Bits(sig) => Ok(Part::of(SigSpec::from_slice(
                alloc,
                &sig.as_slice()[low..high + 1],
            )?)),
            Piece::Range { wire, from, to } => Ok(range_between(*wire, *from, *to, low, high)),
        }
    }

    /// The bits as a signal.
    pub(crate) fn into_sig(self, alloc: Global) -> Result<SigSpec, Memory>
        ensures { IfOk result (λ sig. sig ≡ self) }
    {
        match self.piece {
            Piece::Bits(sig) => Ok(sig),
            Piece::Range { wire, from, to } => range_bits(alloc, wire, from, to),
        }
    }

    /// The bits go on top, the lowest last.
    pub(crate) fn cover(&self, brace: &mut Stack<SigBit>) -> Result<(), Memory>
        ensures { OnOk result (brace.new ≡ self.now ++ brace.old) }
    {
        match &self.piece {
            Piece::Bits(sig) => brace.cover(sig.as_slice()),
            Piece::Range { wire, from, to } => cover_range(brace, *wire, *from, *to),
        }
    }
}
