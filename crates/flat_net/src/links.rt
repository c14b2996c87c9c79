//! The parts of connections.

ghost use Rattle.std.specs.Prelude.{◌≡◌, ◌<◌, List, [], ◌∷◌, Some, OnOk, length, slice_get};
ghost use Rattle.rtl_ir.specs.Flat.Link.{joins, link_rows};
ghost use Rattle.rtl_ir.specs.Flat.Place.{Path};
ghost use Rattle.rtl_ir.specs.Flat.Point as rtl;
ghost use Rattle.rtl_ir.specs.Flat.Point.{points};
ghost use Rattle.flat_net.specs.Adds.{Adds, Joins};
ghost use Rattle.flat_net.specs.Known.{Extends};
ghost use Rattle.flat_net.specs.Reads.{ArePoints};

use crate::builder::Builder;
use crate::net::{Join, Part, Point};
use crate::scope::Scope;
use rtl_bits::Memory;
use rtl_ir::Link;

impl Builder {
    /// The connections of a module.
    pub(crate) fn add_links(&mut self, scope: &Scope, links: &[Link]) -> Result<(), Memory>
        requires in_range { scope.now.path < length self.old.places.paths }
        ensures grows { OnOk result (Extends self.old.places self.new.places) }
        ensures rows { (p : Path) → slice_get self.old.places.paths scope.now.path ≡ Some p →
            OnOk result (Adds self.old self.new (link_rows p scope.now.wires.now links.now)) }
    {
        for link in links {
            self.add_link(scope, link)?;
        }
        Ok(())
    }

    /// A connection.
    fn add_link(&mut self, scope: &Scope, link: &Link) -> Result<(), Memory>
        requires in_range { scope.now.path < length self.old.places.paths }
        ensures grows { OnOk result (Extends self.old.places self.new.places) }
        ensures rows { (p : Path) → slice_get self.old.places.paths scope.now.path ≡ Some p →
            OnOk result (Adds self.old self.new (joins (points p scope.now.wires.now link.now.left)
            (points p scope.now.wires.now link.now.right))) }
    {
        let left = self.places.points(scope, link.left.as_slice())?;
        let right = self.places.points(scope, link.right.as_slice())?;
        self.join(left.as_slice(), right.as_slice())
    }

    /// The right drives the left, bit by bit, as far as both go.
    pub(crate) fn join(&mut self, left: &[Point], right: &[Point]) -> Result<(), Memory>
        ensures places { self.new.places ≡ self.old.places }
        ensures rows { (lefts rights : List rtl.Point) → ArePoints self.old.places.places left.now lefts →
            ArePoints self.old.places.places right.now rights →
            OnOk result (Adds self.old self.new (joins lefts rights)) }
    {
        for at in 0..left.len().min(right.len()) {
            self.join_bit(left[at], right[at])?;
        }
        Ok(())
    }

    /// The right drives the left, where that is no constant.
    fn join_bit(&mut self, left: Point, right: Point) -> Result<(), Memory>
        ensures places { self.new.places ≡ self.old.places }
        ensures joins { OnOk result (Joins self.old.parts.items self.new.parts.items (left ∷ []) (right ∷ [])) }
    {
        if let Point::At(to) = left {
            let join = Join { to, from: right };
            self.parts.push(Part::Joined(join))?;
        }
        Ok(())
    }
}
