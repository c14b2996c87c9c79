//! The numbers of the bits of a flat netlist.

ghost use Rattle.std.specs.Prelude.{suc, ◌≡◌, ◌<◌, ◌∷◌, Some, IfOk, OnOk, length, slice_get};
ghost use Rattle.rtl_ir.specs.Flat.Place.{Path, frame, wire_place, word_place};
ghost use Rattle.flat_net.specs.Known.{Extends, nothing};
ghost use Rattle.flat_net.specs.Points.{AreApart};

use indexmap::IndexSet;
use rtl_bits::Memory;
use rtl_sig::Names;
use std::alloc::Global;
use std::marker::Model;

/// An instance: the number of the path around it, and the numbers of its name and of its module's.
#[derive(Clone, Copy, Debug, PartialEq, Eq, Hash)]
pub(crate) struct FrameKey {
    pub(crate) around: u32,
    pub(crate) name: usize,
    pub(crate) module_name: usize,
}

/// A bit of a wire, or of the word of a memory at an address: the number of its path, the number of the name, and its
/// place.
#[derive(Clone, Copy, Debug, PartialEq, Eq, Hash)]
pub(crate) struct SpotKey {
    pub(crate) path: u32,
    pub(crate) name: usize,
    pub(crate) address: Option<u32>,
    pub(crate) at: u32,
}

/// The number of this place. More than 2^32 are taken for want of memory.
pub(crate) fn number_at(at: usize) -> Result<u32, Memory>
    ensures value { IfOk result (λ number. number ≡ at) }
{
    u32::try_from(at).ok().ok_or(Memory)
}

/// The number behind this place.
fn number_behind(at: usize) -> Result<u32, Memory>
    ensures value { IfOk result (λ number. number ≡ suc at) }
{
    number_at(at)?.checked_add(1).ok_or(Memory)
}

/// The paths and bits that have a number. The empty path has number 0.
#[derive(Drop)]
pub(crate) struct Places {
    names: Names,
    frames: IndexSet<FrameKey>,
    spots: IndexSet<SpotKey>,
}

impl Model for Places {
    ghost use Rattle.flat_net.specs.Known.{Known};
    ghost use Rattle.flat_net.specs.Keys.{Fits, known_of};

    ghost Value = { Known };

    ghost view = { λ p. known_of p.names p.frames.keys p.spots.keys };

    ghost invariant = { λ p. Fits p.names p.frames.keys p.spots.keys };
}

impl Places {
    /// No bits. It takes no memory.
    pub(crate) fn make(alloc: Global) -> Places
        ensures value { result ≡ nothing }
    {
        Places {
            names: Names::make(alloc),
            frames: IndexSet::new(alloc),
            spots: IndexSet::new(alloc),
        }
    }

    /// The number of the path of an instance in this path. More than 2^32 paths are taken for want of memory.
    pub(crate) fn enter(
        &mut self,
        path: u32,
        name: &[u8],
        module_name: &[u8],
    ) -> Result<u32, Memory>
        requires in_range { path < length self.old.paths }
        ensures grows { OnOk result (Extends self.old self.new) }
        ensures value { (p : Path) → slice_get self.old.paths path ≡ Some p →
            IfOk result (λ number. slice_get self.new.paths number ≡ Some (frame name.now module_name.now ∷ p)) }
    {
        let name = self.names.intern(name)?.index;
        let module_name = self.names.intern(module_name)?.index;
        let (index, _) = self.frames.insert_full(FrameKey {
            around: path,
            name,
            module_name,
        })?;
        number_behind(index)
    }

    /// The number of a bit of the wire of this name in this path. More than 2^32 bits are taken for want of memory.
    pub(crate) fn number(&mut self, path: u32, name: &[u8], at: u32) -> Result<u32, Memory>
        requires in_range { path < length self.old.paths }
        ensures grows { OnOk result (Extends self.old self.new) }
        ensures value { (p : Path) → slice_get self.old.paths path ≡ Some p →
            IfOk result (λ number. slice_get self.new.places number ≡ Some (wire_place p name.now at)) }
    {
        let name = self.names.intern(name)?.index;
        let (index, _) = self.spots.insert_full(SpotKey {
            path,
            name,
            address: None,
            at,
        })?;
        number_at(index)
    }

    /// The number of a bit of the word at an address, of the memory of this name in this path. More than 2^32 bits are
    /// taken for want of memory.
    pub(crate) fn word_number(
        &mut self,
        path: u32,
        name: &[u8],
        address: u32,
        at: u32,
    ) -> Result<u32, Memory>
        requires in_range { path < length self.old.paths }
        ensures grows { OnOk result (Extends self.old self.new) }
        ensures value { (p : Path) → slice_get self.old.paths path ≡ Some p →
            IfOk result (λ number. slice_get self.new.places number ≡ Some (word_place p name.now address at)) }
    {
        let name = self.names.intern(name)?.index;
        let (index, _) = self.spots.insert_full(SpotKey {
            path,
            name,
            address: Some(address),
            at,
        })?;
        number_at(index)
    }

    /// How many bits have a number.
    pub(crate) fn count(&self) -> Result<u32, Memory>
        ensures value { IfOk result (λ count. length self.now.places ≡ count) }
        ensures apart { AreApart self.now.places }
    {
        number_at(self.spots.len())
    }
}
