//! The parts of rules that always act.

ghost use Rattle.std.specs.Prelude.{◌≡◌, ◌<◌, ◌∷◌, [], Some, true, OnOk, length, map, reverse, slice_get};
ghost use Rattle.rtl_bits.specs.declared.bit.Bit.{Bit};
ghost use Rattle.rtl_sig.specs.declared.sig.SigBit.{SigBit};
ghost use Rattle.rtl_ir.specs.Flat.Driver.{Joined};
ghost use Rattle.rtl_ir.specs.Flat.Place.{Path};
ghost use Rattle.rtl_ir.specs.Flat.Point.{bit_place, point};
ghost use Rattle.rtl_ir.specs.Flat.Process.{always_row, may_hold};
ghost use Rattle.flat_net.specs.Adds.{Adds};
ghost use Rattle.flat_net.specs.Known.{Extends};
ghost use Rattle.flat_net.specs.Starts.{IsStart};

use crate::builder::Builder;
use crate::leaves::Held;
use crate::net;
use crate::net::Part;
use crate::rooted::Rooted;
use crate::scope::Scope;
use process_trees::Reaching;
use rtl_bits::Memory;
use rtl_ir::Join;

impl Builder {
    /// A rule that always acts.
    pub(crate) fn add_always(
        &mut self,
        scope: &Scope,
        rooted: &Rooted,
        lines: &[Join],
    ) -> Result<(), Memory>
        requires in_range { scope.now.path < length self.old.places.paths }
        ensures grows { OnOk result (Extends self.old.places self.new.places) }
        ensures rows { (p : Path) → slice_get self.old.places.paths scope.now.path ≡ Some p → (start : SigBit → Bit) →
            IsStart scope.now.starts.now start →
            OnOk result (Adds self.old self.new (map (always_row start p scope.now.wires.now rooted.now.root
            (reverse rooted.now.bits)) lines.now)) }
    {
        let bits = rooted.bits.list(scope.alloc)?;
        let reaching = Reaching::of(scope.alloc, &rooted.root, bits.as_slice())?;
        for line in lines {
            let holds = reaching.may_hold(scope.alloc, bits.as_slice(), line.bit, line.source)?;
            self.add_always_bit(scope, rooted, holds, *line)?;
        }
        Ok(())
    }

    /// A place of a rule that always acts. A bit to which its own value may come is held, and any other is its value.
    fn add_always_bit(
        &mut self,
        scope: &Scope,
        rooted: &Rooted,
        holds: bool,
        line: Join,
    ) -> Result<(), Memory>
        requires in_range { scope.now.path < length self.old.places.paths }
        ensures grows { OnOk result (Extends self.old.places self.new.places) }
        ensures rows { (p : Path) → slice_get self.old.places.paths scope.now.path ≡ Some p → (start : SigBit → Bit) →
            IsStart scope.now.starts.now start →
            holds ≡ may_hold rooted.now.root (reverse rooted.now.bits) line →
            OnOk result (Adds self.old self.new (always_row start p scope.now.wires.now rooted.now.root
            (reverse rooted.now.bits) line ∷ [])) }
    {
        if holds {
            self.add_held(scope, rooted, line)
        } else {
            self.add_value(scope, line)
        }
    }

    /// A bit that may hold.
    fn add_held(&mut self, scope: &Scope, rooted: &Rooted, line: Join) -> Result<(), Memory>
        requires in_range { scope.now.path < length self.old.places.paths }
        ensures grows { OnOk result (Extends self.old.places self.new.places) }
        ensures rows { (p : Path) → slice_get self.old.places.paths scope.now.path ≡ Some p → (start : SigBit → Bit) →
            IsStart scope.now.starts.now start →
            may_hold rooted.now.root (reverse rooted.now.bits) line ≡ true →
            OnOk result (Adds self.old self.new (always_row start p scope.now.wires.now rooted.now.root
            (reverse rooted.now.bits) line ∷ [])) }
    {
        let tree = self.places.root(scope, None, rooted)?;
        let bits = self.places.held_bits(scope, &rooted.bits, &[line])?;
        let held = Box::new(scope.alloc, Held { tree, bits })?;
        self.parts.push(Part::Held(held))?;
        Ok(())
    }

    /// A bit that is its value.
    fn add_value(&mut self, scope: &Scope, line: Join) -> Result<(), Memory>
        requires in_range { scope.now.path < length self.old.places.paths }
        ensures grows { OnOk result (Extends self.old.places self.new.places) }
        ensures rows { (p : Path) → slice_get self.old.places.paths scope.now.path ≡ Some p →
            OnOk result (Adds self.old self.new (record {
              place = bit_place p scope.now.wires.now line.bit;
              driver = Joined (point p scope.now.wires.now line.source);
            } ∷ [])) }
    {
        let from = self.places.point(scope, line.source)?;
        let to = self.places.bit(scope, line.bit)?;
        self.parts.push(Part::Joined(net::Join { to, from }))?;
        Ok(())
    }
}
