//! A module that is added to.

ghost use Rattle.std.specs.Prelude.{◌≡◌, ◌≤◌, ◌<◌, ◌^◌, [], Err, IfOk, OnErr, OnOk, length};
ghost use Rattle.rtl_ir.specs.Build.{building_of, fresh_wire, new_cell, new_driver, new_link, whole};
ghost use Rattle.net_index.specs.Builder.{HasRoom, IsInLimits, PassesLimit, building_from, new_params};
ghost use Rattle.net_index.specs.BuilderNames.{name_of};

use crate::builder_fault::PassFault;
use crate::builder_items::{copied_pins, new_cell, new_wire, put_driver, whole, with_output};
use crate::fresh::first_number;
use crate::limits::count_bits;
use cell_types::{CellKind, Param};
use rtl_bits::{Copied, Memory, Seq};
use rtl_ir::limits::{MAX_BITS, MAX_CELLS, MAX_FRESH};
use rtl_ir::{Attribute, Link, Module, Pin};
use rtl_sig::SigSpec;
use std::alloc::Global;
use std::marker::Model;

/// A module that is added to. Fresh names go on from the greatest number that a name of the module has.
#[derive(Drop)]
pub struct Builder {
    alloc: Global,
    body: Module,
    /// The number of the next fresh name.
    next: u32,
    /// How many bits the wires have.
    bits: u128,
}

impl Model for Builder {
    ghost use Rattle.std.specs.Prelude.{◌≡◌, ◌≤◌, ◌<◌, ◌^◌};
    ghost use Rattle.rtl_ir.specs.Build.{Building};
    ghost use Rattle.net_index.specs.BuilderCode.{building_code};
    ghost use Rattle.net_index.specs.Numbering.{bit_count, widths_of};

    ghost Value = { Building };

    ghost coded = { building_code };

    ghost view = { λ b. record { body = b.body; next = b.next } };

    ghost invariant = { λ b. (b.next ≤ 1000000000) × (b.bits < 2 ^ 127)
        × (b.bits ≡ bit_count (widths_of b.body.wires)) };
}

impl Builder {
    /// The module, to which nothing is added yet. Where there is no memory the module is given up.
    pub fn of(alloc: Global, module: Module) -> Result<Builder, Memory>
        ensures value { IfOk result (λ builder. builder ≡ building_of «module») }
    {
        let next = first_number(&module);
        Ok(Builder::numbered_from(alloc, next, module))
    }

    /// The module, to which nothing is added yet, where fresh names go on from this number: that of a module of which
    /// this one is a part, say. It takes no memory.
    pub fn numbered_from(alloc: Global, next: u32, module: Module) -> Builder
        requires in_range { next ≤ 1000000000 }
        ensures value { result ≡ building_from next «module» }
    {
        let bits = count_bits(module.wires.as_slice());
        Builder {
            alloc,
            body: module,
            next,
            bits,
        }
    }

    /// The allocator that the builder keeps. No clause speaks of it, since it is no part of what is built.
    pub fn allocator(&self) -> Global {
        self.alloc
    }

    /// `Over` where the module is past a limit on cells, on bits of wires or on fresh names as it is.
    pub fn check_limits(&self) -> Result<(), PassFault>
        ensures over { result ≡ Err PassFault.Over → PassesLimit self.now }
        ensures ok { OnOk result (IsInLimits self.now) }
    {
        self.room(0, 0, 0)
    }

    /// `Over` where so many new cells, bits of wires and fresh names would together pass a limit.
    fn room(&self, cells: usize, bits: u32, names: u32) -> Result<(), PassFault>
        requires few { names ≤ 2 }
        ensures over { result ≡ Err PassFault.Over → HasRoom self.now cells bits names → ⊥ }
        ensures ok { OnOk result (HasRoom self.now cells bits names) }
    {
        let cells_left = MAX_CELLS.checked_sub(self.body.cells.as_slice().len());
        if cells_left.is_none_or(|left| left < cells)
            || self.bits + u128::from(bits) > MAX_BITS as u128
            || self.next + names > MAX_FRESH + 1
        {
            return Err(PassFault::Over);
        }
        Ok(())
    }

    /// A fresh wire of this width goes last, under the next fresh name. The answer is its place in the list
    /// of wires.
    pub fn fresh_wire(&mut self, width: u32) -> Result<u32, PassFault>
        ensures exact { IfOk result (λ wire. (whole wire width, self.new) ≡ fresh_wire width [] self.old) }
        ensures place { IfOk result (λ wire. wire ≡ length self.old.body.wires) }
        ensures over { result ≡ Err PassFault.Over → PassesLimit (fresh_wire width [] self.old).1 }
        ensures within { OnOk result (IsInLimits self.new) }
        ensures err { OnErr result (self.new ≡ self.old) }
    {
        let attributes = Seq::make(self.alloc);
        self.fresh_wire_with(width, attributes)
    }

    /// A fresh wire with attributes, as `fresh_wire` puts one without.
    #[tactic(auto, using(crate::proofs::Rooms::wire_rooms))]
    pub fn fresh_wire_with(
        &mut self,
        width: u32,
        attributes: Seq<Attribute>,
    ) -> Result<u32, PassFault>
        ensures exact { IfOk result (λ wire. (whole wire width, self.new) ≡ fresh_wire width attributes self.old) }
        ensures place { IfOk result (λ wire. wire ≡ length self.old.body.wires) }
        ensures over { result ≡ Err PassFault.Over → PassesLimit (fresh_wire width attributes self.old).1 }
        ensures within { OnOk result (IsInLimits self.new) }
        ensures err { OnErr result (self.new ≡ self.old) }
    {
        self.room(0, width, 1)?;
        let place = place_of(self.body.wires.as_slice().len())?;
        let wire = new_wire(self.alloc, self.next, width, attributes)?;
        self.body.wires.push(wire)?;
        self.next += 1;
        self.bits += u128::from(width);
        Ok(place)
    }

    /// A fresh wire with attributes, as the signal of all its bits. A width of 2^32 or more is answered with `Memory`.
    pub fn fresh_signal(
        &mut self,
        width: usize,
        attributes: Seq<Attribute>,
    ) -> Result<SigSpec, PassFault>
        ensures exact { IfOk result (λ signal. (signal, self.new) ≡ fresh_wire width attributes self.old) }
        ensures over { result ≡ Err PassFault.Over → PassesLimit (fresh_wire width attributes self.old).1 }
        ensures within { OnOk result (IsInLimits self.new) }
    {
        let bits = u32::try_from(width).map_err(|_| Memory)?;
        let wire = self.fresh_wire_with(bits, attributes)?;
        Ok(whole(self.alloc, wire, bits)?)
    }

    /// A cell of this kind goes last, under the next fresh name. The answer is its place in the list of
    /// cells.
    #[tactic(auto, using(crate::proofs::Rooms::cell_fits, crate::proofs::Rooms::cell_room))]
    pub fn add_cell(
        &mut self,
        kind: CellKind,
        params: &[Param],
        pins: &[Pin],
    ) -> Result<u32, PassFault>
        ensures exact { OnOk result (self.new ≡ new_cell (name_of kind) (new_params params.now) pins.now self.old) }
        ensures place { IfOk result (λ cell. cell ≡ length self.old.body.cells) }
        ensures over { result ≡ Err PassFault.Over →
            PassesLimit (new_cell (name_of kind) (new_params params.now) pins.now self.old) }
        ensures within { OnOk result (IsInLimits self.new) }
        ensures err { OnErr result (self.new ≡ self.old) }
    {
        self.room(1, 0, 1)?;
        let place = place_of(self.body.cells.as_slice().len())?;
        let same = copied_pins(self.alloc, pins)?;
        let cell = new_cell(self.alloc, self.next, kind, params, same)?;
        self.body.cells.push(cell)?;
        self.next += 1;
        Ok(place)
    }

    /// A cell of this kind goes last, and a fresh wire at its output, which is its last pin. The cell takes
    /// the next fresh name, and the wire the one behind it. The answer is the wire's place in the list of
    /// wires.
    #[tactic(auto, using(crate::proofs::Rooms::driver_rooms))]
    pub fn add_driver(
        &mut self,
        kind: CellKind,
        params: &[Param],
        pins: &[Pin],
        output: &[u8],
        width: u32,
    ) -> Result<u32, PassFault>
        ensures exact { IfOk result (λ wire.
            (whole wire width, self.new) ≡
            new_driver (name_of kind) (new_params params.now) pins.now output.now width self.old) }
        ensures place { IfOk result (λ wire. wire ≡ length self.old.body.wires) }
        ensures over { result ≡ Err PassFault.Over →
            PassesLimit (new_driver (name_of kind) (new_params params.now) pins.now output.now width self.old).1 }
        ensures within { OnOk result (IsInLimits self.new) }
        ensures err { OnErr result (self.new ≡ self.old) }
    {
        self.room(1, width, 2)?;
        let place = place_of(self.body.wires.as_slice().len())?;
        let all = with_output(self.alloc, pins, output, place, width)?;
        let cell = new_cell(self.alloc, self.next, kind, params, all)?;
        let wire = new_wire(self.alloc, self.next + 1, width, Seq::make(self.alloc))?;
        put_driver(&mut self.body, cell, wire)?;
        self.next += 2;
        self.bits += u128::from(width);
        Ok(place)
    }

    /// A connection goes last: the right drives the left, bit by bit.
    pub fn connect(&mut self, left: &SigSpec, right: &SigSpec) -> Result<(), Memory>
        ensures exact { OnOk result (self.new ≡ new_link left.now right.now self.old) }
        ensures err { OnErr result (self.new ≡ self.old) }
    {
        let link = Link {
            left: left.copy()?,
            right: right.copy()?,
        };
        self.body.links.push(link)
    }

    /// How many cells there are.
    pub fn cell_count(&self) -> usize
        ensures value { result ≡ length self.now.body.cells }
    {
        self.body.cells.as_slice().len()
    }

    /// The module with all that was added. It takes no memory.
    pub fn finish(self) -> Module
        ensures value { result ≡ self.body }
    {
        self.body
    }
}

/// The place behind so many items. More than 2^32 of them are taken for want of memory.
fn place_of(count: usize) -> Result<u32, Memory>
    ensures value { IfOk result (λ place. place ≡ count) }
{
    u32::try_from(count).ok().ok_or(Memory)
}
