//! What leaves come to.

ghost use Rattle.std.specs.Prelude.{◌≡◌, ◌∷◌, List, [], Option};
ghost use Rattle.rtl_sig.specs.declared.sig.WireBit.{WireBit};
ghost use Rattle.rtl_sig.specs.declared.sig.SigBit.{SigBit};
ghost use Rattle.rtl_ir.specs.EventTests as tests;
ghost use Rattle.rtl_ir.specs.Decisions.{Decision, leaves_of};
ghost use Rattle.rtl_ir.specs.Faults.TwoEdges.{are_all, are_one_constant};
ghost use Rattle.process_trees.specs.Leaves.{both, is_asked, joined, summary_of};

use rtl_sig::{SigBit, WireBit};

/// What the leaves of a value come to. A value that is missing is the constant x, as one that is written.
#[derive(Clone, Copy, Debug, PartialEq, Eq)]
pub struct Summary {
    /// The one constant or bit that all leaves are, where they are one.
    pub only: Option<SigBit>,
    /// Whether the bit that was asked for is among them.
    pub asked: bool,
}

impl Summary {
    /// Of one leaf, where this bit is asked for, if one is.
    pub(crate) fn of(asked: Option<WireBit>, leaf: SigBit) -> Summary
        ensures value { result ≡ summary_of asked (leaf ∷ []) }
    {
        Summary {
            only: Some(leaf),
            asked: is_asked(asked, leaf),
        }
    }

    /// Of both together.
    pub(crate) fn joined(self, other: Summary) -> Summary
        ensures value { result ≡ joined self other }
    {
        Summary {
            only: both(self.only, other.only),
            asked: self.asked || other.asked,
        }
    }

    /// Whether all leaves are one constant.
    pub fn is_one_constant(self) -> bool
        ensures value { (asked : Option WireBit) (leaves : List SigBit) → self ≡ summary_of asked leaves →
            result ≡ are_one_constant leaves }
    {
        matches!(self.only, Some(SigBit::Fixed(_)))
    }

    /// Whether all leaves are the bit.
    pub fn are_all(self, bit: WireBit) -> bool
        ensures value { (asked : Option WireBit) (d : Decision) → self ≡ summary_of asked (leaves_of d) →
            result ≡ are_all bit (leaves_of d) }
    {
        match self.only {
            Some(leaf) => is_bit(bit, leaf),
            None => false,
        }
    }
}

/// Whether the leaf is the bit that is asked for, if one is.
fn is_asked(asked: Option<WireBit>, leaf: SigBit) -> bool
    ensures value { result ≡ is_asked asked leaf }
{
    match asked {
        Some(bit) => is_bit(bit, leaf),
        None => false,
    }
}

/// Whether the leaf is the bit.
pub(crate) fn is_bit(bit: WireBit, leaf: SigBit) -> bool
    ensures value { result ≡ tests.is_bit bit leaf }
{
    match leaf {
        SigBit::Wire(other) => other == bit,
        SigBit::Fixed(_) => false,
    }
}

/// The one leaf of both, where each has one.
fn both(one: Option<SigBit>, other: Option<SigBit>) -> Option<SigBit>
    ensures value { result ≡ both one other }
{
    match (one, other) {
        (Some(s), Some(t)) if s == t => Some(s),
        _ => None,
    }
}
