//! The inputs and outputs of the module that is run.

ghost use Rattle.std.specs.Prelude.{◌≡◌, ◌<◌, List, [], ◌∷◌, Some, IfOk, OnOk, length, map, slice_get};
ghost use Rattle.rtl_ir.specs.Flat.Place.{Path, Place};
ghost use Rattle.rtl_ir.specs.Flat.Point.{wire_points};
ghost use Rattle.rtl_ir.specs.Flat.Tree.{given_rows, if_role, places, role_points};
ghost use Rattle.rtl_ir.specs.Ports.{line_of};
ghost use Rattle.flat_net.specs.Adds.{Adds, PutsNumbers};
ghost use Rattle.flat_net.specs.Known.{Extends};
ghost use Rattle.flat_net.specs.Reads.{AreNumbers, ArePoints};
ghost use Rattle.flat_net.specs.Tables.{all_now};

use crate::builder::Builder;
use crate::net::{Output, Part, Point};
use crate::places::{Places, number_at};
use rtl_bits::{Memory, Seq};
use rtl_ir::{Role, Wire};
use std::alloc::Global;

impl Builder {
    /// The input vector drives the bits of these numbers, each place of it one.
    pub(crate) fn give(&mut self, numbers: &[u32]) -> Result<(), Memory>
        ensures places { self.new.places ≡ self.old.places }
        ensures rows { (qs : List Place) → AreNumbers self.old.places.places numbers.now qs →
            OnOk result (Adds self.old self.new (given_rows qs 0)) }
    {
        for at in 0..numbers.len() {
            let place = number_at(at)?;
            self.parts.push(Part::Given(Output {
                number: numbers[at],
                at: place,
            }))?;
        }
        Ok(())
    }
}

impl Places {
    /// The numbers of the bits of the ports of a role, in order.
    pub(crate) fn role_numbers(
        &mut self,
        alloc: Global,
        path: u32,
        ports: &[&Wire],
        role: Role,
    ) -> Result<Seq<u32>, Memory>
        requires in_range { path < length self.old.paths }
        ensures grows { OnOk result (Extends self.old self.new) }
        ensures value { (p : Path) → slice_get self.old.paths path ≡ Some p →
            IfOk result (λ numbers.
            AreNumbers self.new.places numbers (places (role_points role p (map line_of (all_now ports.now))))) }
    {
        let points = self.role_points(alloc, path, ports, role)?;
        numbers_in(alloc, points.as_slice())
    }

    /// The bits of the ports of a role, in order.
    fn role_points(
        &mut self,
        alloc: Global,
        path: u32,
        ports: &[&Wire],
        role: Role,
    ) -> Result<Seq<Point>, Memory>
        requires in_range { path < length self.old.paths }
        ensures grows { OnOk result (Extends self.old self.new) }
        ensures value { (p : Path) → slice_get self.old.paths path ≡ Some p →
            IfOk result (λ they.
            ArePoints self.new.places they (role_points role p (map line_of (all_now ports.now)))) }
    {
        let mut points = Seq::make(alloc);
        for port in ports {
            let here = self.port_points(alloc, path, port, role)?;
            points.extend(here.as_slice())?;
        }
        Ok(points)
    }

    /// The bits of a port, where it has this role.
    fn port_points(
        &mut self,
        alloc: Global,
        path: u32,
        port: &Wire,
        role: Role,
    ) -> Result<Seq<Point>, Memory>
        requires in_range { path < length self.old.paths }
        ensures grows { OnOk result (Extends self.old self.new) }
        ensures value { (p : Path) → slice_get self.old.paths path ≡ Some p →
            IfOk result (λ they. ArePoints self.new.places they (if_role role port.now.role
            (wire_points p port.now.name 0 port.now.width))) }
    {
        if port.role == role {
            self.wire_points(alloc, path, port.name.as_slice(), port.width)
        } else {
            Ok(Seq::make(alloc))
        }
    }
}

/// The numbers among the points.
fn numbers_in(alloc: Global, points: &[Point]) -> Result<Seq<u32>, Memory>
    ensures value { IfOk result (λ numbers. PutsNumbers [] numbers points.now) }
{
    let mut numbers = Vec::with_capacity(alloc, points.len())?;
    for point in points {
        put_number(&mut numbers, *point)?;
    }
    Ok(Seq::from_vec(numbers))
}

/// The number of a point, where it is no constant.
fn put_number(numbers: &mut Vec<u32>, point: Point) -> Result<(), Memory>
    ensures value { OnOk result (PutsNumbers numbers.old.items numbers.new.items (point ∷ [])) }
{
    if let Point::At(number) = point {
        numbers.push(number)?;
    }
    Ok(())
}
