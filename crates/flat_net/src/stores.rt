//! The parts of storage cells.

ghost use Rattle.std.specs.Prelude.{◌≡◌, ◌<◌, ℕ, [], ◌∷◌, Some, IfOk, OnOk, length, slice_get};
ghost use Rattle.rtl_bits.specs.declared.bit.Bit.{Bit};
ghost use Rattle.rtl_sig.specs.declared.sig.SigBit.{SigBit};
ghost use Rattle.rtl_ir.specs.Flat.Cell.{cell_shape, stored_rows};
ghost use Rattle.rtl_ir.specs.Flat.Driver.{StorePoints};
ghost use Rattle.rtl_ir.specs.Flat.Place.{Path};
ghost use Rattle.flat_net.specs.Adds.{Adds};
ghost use Rattle.flat_net.specs.Cells.{AreReads, PutsStores};
ghost use Rattle.flat_net.specs.Known.{Extends};
ghost use Rattle.flat_net.specs.Starts.{IsStart};

use crate::builder::Builder;
use crate::net::{Part, Point, Storage, StoreBit};
use crate::reads::Reads;
use crate::scope::Scope;
use cell_types::{CellKind, PinName};
use rtl_bits::{Bit, Memory, Seq};
use rtl_ir::{Cell, fitting_shape, pin_signal};
use rtl_sig::SigBit;

impl Builder {
    /// A storage cell of this kind, of which the bits read this.
    pub(crate) fn add_store(
        &mut self,
        scope: &Scope,
        cell: &Cell,
        kind: CellKind,
        reads: &Reads,
    ) -> Result<(), Memory>
        requires in_range { scope.now.path < length self.old.places.paths }
        ensures grows { OnOk result (Extends self.old.places self.new.places) }
        ensures rows { (p : Path) → slice_get self.old.places.paths scope.now.path ≡ Some p → (start : SigBit → Bit) →
            IsStart scope.now.starts.now start →
            (they : ℕ → StorePoints) → AreReads self.old.places.places reads.now they →
            OnOk result (Adds self.old self.new (stored_rows start p scope.now.wires.now cell.now.pins
            (cell_shape kind cell.now.params) they)) }
    {
        let signal = pin_signal(cell.pins.as_slice(), PinName::Q);
        let points = self.places.points(scope, signal)?;
        let storage = Storage {
            shape: fitting_shape(scope.alloc, kind, cell)?,
            bits: store_bits(scope, signal, points.as_slice(), reads)?,
        };
        self.parts
            .push(Part::Storage(Box::new(scope.alloc, storage)?))?;
        Ok(())
    }
}

/// The bits that a storage cell keeps. More than 2^32 are taken for want of memory.
fn store_bits(
    scope: &Scope,
    signal: &[SigBit],
    points: &[Point],
    reads: &Reads,
) -> Result<Seq<StoreBit>, Memory>
    ensures value { (start : SigBit → Bit) → IsStart scope.now.starts.now start →
        IfOk result (λ bits. PutsStores start reads.now 0 [] bits signal.now points.now) }
{
    let mut bits = Vec::with_capacity(scope.alloc, signal.len())?;
    for at in 0..signal.len().min(points.len()) {
        let start = scope.starts.at(signal[at]);
        put_store(&mut bits, start, points[at], at, reads)?;
    }
    Ok(Seq::from_vec(bits))
}

/// The bit at a place of a storage cell, where it is no constant.
fn put_store(
    bits: &mut Vec<StoreBit>,
    start: Bit,
    point: Point,
    at: usize,
    reads: &Reads,
) -> Result<(), Memory>
    ensures value { (begins : SigBit → Bit) (bit : SigBit) → start ≡ begins bit →
        OnOk result (PutsStores begins reads.now at bits.old.items bits.new.items (bit ∷ []) (point ∷ [])) }
{
    if let Point::At(number) = point {
        bits.push(StoreBit {
            number,
            at: u32::try_from(at).ok().ok_or(Memory)?,
            start,
            pins: reads.at(at),
        })?;
    }
    Ok(())
}
