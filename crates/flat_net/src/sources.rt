//! The bits that rules update, each with the source of its value.

ghost use Rattle.std.specs.Prelude.{◌≡◌, ◌<◌, Some, IfOk, OnOk, length, slice_get};
ghost use Rattle.rtl_bits.specs.declared.bit.Bit.{Bit};
ghost use Rattle.rtl_sig.specs.declared.sig.SigBit.{SigBit};
ghost use Rattle.rtl_ir.specs.Flat.Place.{Path};
ghost use Rattle.flat_net.specs.Known.{Extends};
ghost use Rattle.flat_net.specs.Sources.{AreHeldBits, IsHeldBit};
ghost use Rattle.flat_net.specs.Starts.{IsStart};
ghost use Rattle.flat_net.specs.Trees.{IsSource};

use crate::leaves::{HeldBit, Source};
use crate::places::Places;
use crate::scope::Scope;
use crate::tree_bits::TreeBits;
use rtl_bits::{Memory, Seq};
use rtl_ir::Join;
use rtl_sig::SigBit;

impl Places {
    /// What a line reads, over these tree bits.
    fn source(&mut self, scope: &Scope, bits: &TreeBits, bit: SigBit) -> Result<Source, Memory>
        requires in_range { scope.now.path < length self.old.paths }
        ensures grows { OnOk result (Extends self.old self.new) }
        ensures value { (p : Path) → slice_get self.old.paths scope.now.path ≡ Some p →
            IfOk result (λ source. IsSource self.new.places p scope.now.wires.now bits.now source bit) }
    {
        let from = self.point(scope, bit)?;
        let tree = bits.place(bit)?;
        Ok(Source { from, tree })
    }

    /// The bits that these places update.
    pub(crate) fn held_bits(
        &mut self,
        scope: &Scope,
        bits: &TreeBits,
        lines: &[Join],
    ) -> Result<Seq<HeldBit>, Memory>
        requires in_range { scope.now.path < length self.old.paths }
        ensures grows { OnOk result (Extends self.old self.new) }
        ensures value { (p : Path) → slice_get self.old.paths scope.now.path ≡ Some p → (start : SigBit → Bit) →
            IsStart scope.now.starts.now start →
            IfOk result (λ held. AreHeldBits self.new.places start p scope.now.wires.now bits.now held lines.now) }
    {
        let mut held = Vec::with_capacity(scope.alloc, lines.len())?;
        for line in lines {
            held.push(self.held_bit(scope, bits, *line)?)?;
        }
        Ok(Seq::from_vec(held))
    }

    /// The bit that a place updates.
    fn held_bit(&mut self, scope: &Scope, bits: &TreeBits, line: Join) -> Result<HeldBit, Memory>
        requires in_range { scope.now.path < length self.old.paths }
        ensures grows { OnOk result (Extends self.old self.new) }
        ensures value { (p : Path) → slice_get self.old.paths scope.now.path ≡ Some p → (start : SigBit → Bit) →
            IsStart scope.now.starts.now start →
            IfOk result (λ held. IsHeldBit self.new.places start p scope.now.wires.now bits.now held line) }
    {
        let source = self.source(scope, bits, line.source)?;
        Ok(HeldBit {
            number: self.bit(scope, line.bit)?,
            start: scope.starts.at(SigBit::Wire(line.bit)),
            source,
        })
    }
}
