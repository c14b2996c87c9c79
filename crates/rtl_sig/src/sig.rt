//! Signals.

ghost use Rattle.std.specs.Prelude.{
  ◌≡◌,
  ◌<◌,
  ◌≤◌,
  ◌+◌,
  List,
  [],
  ◌∷◌,
  ◌++◌,
  IfOk,
  OnErr,
  OnOk,
  length,
  map,
  take,
  drop,
  Err,
};
ghost use Rattle.rtl_sig.specs.declared.sig.SigBit.TheVariants.{Fixed};
ghost use Rattle.rtl_sig.specs.Signal.{extended, fill_of};

use crate::fault::SigFault;
use rtl_bits::{Bit, Copied, Memory};
use std::alloc::Global;
use std::marker::Model;

/// The most bits of one signal.
pub const MAX_WIDTH: usize = 4_194_304;

/// A bit of a wire: the wire's place in its module's list, and the bit's place in the wire, from 0.
#[derive(Clone, Copy, Debug, PartialEq, Eq, PartialOrd, Ord, Hash)]
pub struct WireBit {
    pub wire: u32,
    pub at: u32,
}

/// A bit of a signal: a constant, or a bit of a wire.
#[derive(Clone, Copy, Debug, PartialEq, Eq)]
pub enum SigBit {
    Fixed(Bit),
    Wire(WireBit),
}

impl Copied for SigBit {
    fn copy(&self) -> Result<SigBit, Memory> {
        Ok(*self)
    }

    fn copy_all(items: &[SigBit], alloc: Global) -> Result<Vec<SigBit>, Memory> {
        Ok(Vec::from_slice(alloc, items)?)
    }
}

/// A signal: a list of bits, the least significant first. One bit lies in the value itself, more on the heap. It keeps
/// the allocator that it was made with.
#[derive(Drop)]
pub struct SigSpec {
    alloc: Global,
    storage: Storage,
}

/// Where the bits of a signal lie.
#[derive(Drop)]
enum Storage {
    Nothing,
    Inline([SigBit; 1]),
    Heap(Box<Vec<SigBit>>),
}

impl Model for SigSpec {
    ghost use Rattle.std.specs.Prelude.{List};
    ghost use Rattle.rtl_sig.specs.declared.sig.SigBit.{SigBit};

    ghost Value = { List SigBit };

    ghost use Rattle.rtl_sig.specs.Storage.{stored_bits};

    ghost view = { λ s. stored_bits s.storage };
}

impl Copied for SigSpec {
    fn copy(&self) -> Result<SigSpec, Memory> {
        match &self.storage {
            Storage::Nothing => Ok(SigSpec::make(self.alloc)),
            Storage::Inline(bits) => Ok(SigSpec {
                alloc: self.alloc,
                storage: Storage::Inline(*bits),
            }),
            Storage::Heap(bits) => SigSpec::heap(
                self.alloc,
                Vec::from_slice(self.alloc, bits.as_slice())?,
            ),
        }
    }
}

/// The signal of the bits below, and the bits above on top of them.
fn joined(alloc: Global, below: &[SigBit], above: &[SigBit]) -> Result<SigSpec, Memory>
    requires room { length below.now + length above.now ≤ MAX_WIDTH }
    ensures value { IfOk result (λ whole. whole ≡ below.now ++ above.now) }
{
    let mut bits = Vec::with_capacity(alloc, below.len() + above.len())?;
    bits.extend_from_slice(below)?;
    bits.extend_from_slice(above)?;
    SigSpec::from_vec(bits)
}

/// The signal of the bits below, and one bit on top of them, on the heap.
fn with_top(alloc: Global, below: &[SigBit], top: SigBit) -> Result<SigSpec, Memory>
    ensures value { IfOk result (λ whole. whole ≡ below.now ++ top ∷ []) }
{
    let mut bits = Vec::with_capacity(alloc, 2)?;
    bits.extend_from_slice(below)?;
    bits.push(top)?;
    SigSpec::heap(alloc, bits)
}

impl SigSpec {
    /// The signal of no bits. It takes no memory.
    pub fn make(alloc: Global) -> SigSpec
        ensures value { result ≡ [] }
    {
        SigSpec {
            alloc,
            storage: Storage::Nothing,
        }
    }

    /// The signal of no bits, with room for so many.
    pub fn with_capacity(alloc: Global, count: usize) -> Result<SigSpec, Memory>
        ensures value { IfOk result (λ sig. sig ≡ []) }
    {
        if count <= 1 {
            return Ok(SigSpec::make(alloc));
        }
        SigSpec::heap(alloc, Vec::with_capacity(alloc, count)?)
    }

    /// The signal of one bit. It takes no memory.
    fn one(alloc: Global, bit: SigBit) -> SigSpec
        ensures value { result ≡ bit ∷ [] }
    {
        SigSpec {
            alloc,
            storage: Storage::Inline([bit]),
        }
    }

    /// The signal of these bits, on the heap.
    fn heap(alloc: Global, bits: Vec<SigBit>) -> Result<SigSpec, Memory>
        ensures value { IfOk result (λ sig. sig ≡ bits.items) }
    {
        Ok(SigSpec {
            alloc,
            storage: Storage::Heap(Box::new(alloc, bits)?),
        })
    }

    /// The signal of these bits, which stay where they are if there are more than one.
    pub fn from_vec(bits: Vec<SigBit>) -> Result<SigSpec, Memory>
        ensures value { IfOk result (λ sig. sig ≡ bits.items) }
    {
        let alloc = *bits.allocator();
        if bits.len() <= 1 {
            return SigSpec::from_slice(alloc, bits.as_slice());
        }
        SigSpec::heap(alloc, bits)
    }

    /// The bits. A signal of more than one bit takes no memory for that.
    pub fn into_vec(self) -> Result<Vec<SigBit>, Memory>
        ensures value { IfOk result (λ bits. bits.items ≡ self) }
    {
        let SigSpec { alloc, storage } = self;
        match storage {
            Storage::Nothing => Ok(Vec::new(alloc)),
            Storage::Inline(bits) => Ok(Vec::from_slice(alloc, bits.as_slice())?),
            Storage::Heap(bits) => Ok(Box::into_inner(bits)),
        }
    }

    /// The signal of these bits.
    pub fn from_slice(alloc: Global, bits: &[SigBit]) -> Result<SigSpec, Memory>
        ensures value { IfOk result (λ sig. sig ≡ bits.now) }
    {
        match bits {
            [] => Ok(SigSpec::make(alloc)),
            [bit] => Ok(SigSpec::one(alloc, *bit)),
            _ => SigSpec::heap(alloc, Vec::from_slice(alloc, bits)?),
        }
    }

    /// Puts the bit on top. After an error the signal is as before.
    pub fn push(&mut self, bit: SigBit) -> Result<(), Memory>
        ensures ok { OnOk result (self.new ≡ self.old ++ bit ∷ []) }
        ensures err { OnErr result (self.new ≡ self.old) }
    {
        match &mut self.storage {
            Storage::Nothing => self.storage = Storage::Inline([bit]),
            Storage::Inline(below) => *self = with_top(self.alloc, below.as_slice(), bit)?,
            Storage::Heap(bits) => bits.push(bit)?,
        }
        Ok(())
    }

    /// The bits, the least significant first.
    pub fn as_slice(&self) -> &[SigBit]
        ensures value { result.now ≡ self.now }
    {
        match &self.storage {
            Storage::Nothing => &[],
            Storage::Inline(bits) => bits.as_slice(),
            Storage::Heap(bits) => bits.as_slice(),
        }
    }

    /// The part of `width` bits from bit `at` on.
    pub fn slice(&self, at: u32, width: u32) -> Result<SigSpec, SigFault>
        ensures ok { IfOk result (λ part. part ≡ take width (drop at self.now)) }
        ensures within { OnOk result (at + width ≤ length self.now) }
        ensures range { result ≡ Err SigFault.Range → length self.now < at + width }
        ensures never { result ≡ Err SigFault.Width → ⊥ }
    {
        let bits = self.as_slice();
        let at = at as usize;
        let width = width as usize;
        if bits.len() < at + width {
            return Err(SigFault::Range);
        }
        Ok(SigSpec::from_slice(self.alloc, &bits[at..at + width])?)
    }

    /// This signal with another one on top of it.
    pub fn concat(&self, above: &SigSpec) -> Result<SigSpec, SigFault>
        ensures ok { IfOk result (λ whole. whole ≡ self.now ++ above.now) }
        ensures within { OnOk result (length self.now + length above.now ≤ MAX_WIDTH) }
        ensures width { result ≡ Err SigFault.Width → MAX_WIDTH < length self.now + length above.now }
        ensures never { result ≡ Err SigFault.Range → ⊥ }
    {
        let below = self.as_slice();
        let above = above.as_slice();
        if below.len() > MAX_WIDTH || above.len() > MAX_WIDTH - below.len() {
            return Err(SigFault::Width);
        }
        Ok(joined(self.alloc, below, above)?)
    }

    /// This signal cut to `width` bits, or filled up with its top bit where `signed`, else with
    /// zeros. A signal of no bits is filled with zeros.
    pub fn extend(&self, width: u32, signed: bool) -> Result<SigSpec, Memory>
        ensures value { IfOk result (λ sig. sig ≡ extended self.now width signed) }
    {
        extended(self.alloc, self.as_slice(), width as usize, signed)
    }
}

/// The signal of these constants.
pub fn fixed(alloc: Global, bits: &[Bit]) -> Result<SigSpec, Memory>
    ensures value { IfOk result (λ sig. sig ≡ map Fixed bits.now) }
{
    let mut sig = SigSpec::with_capacity(alloc, bits.len())?;
    for bit in bits {
        sig.push(SigBit::Fixed(*bit))?;
    }
    Ok(sig)
}

/// What fills a signal up: its top bit where it is signed, else 0.
pub fn fill_of(bits: &[SigBit], signed: bool) -> SigBit
    ensures value { result ≡ fill_of bits.now signed }
{
    match bits.last() {
        Some(top) if signed => *top,
        _ => SigBit::Fixed(Bit::S0),
    }
}

/// A signal cut to a width, or filled up with its top bit where it is signed, else with zeros. A signal of no bits is
/// filled with zeros.
pub fn extended(
    alloc: Global,
    bits: &[SigBit],
    width: usize,
    signed: bool,
) -> Result<SigSpec, Memory>
    ensures value { IfOk result (λ sig. sig ≡ extended bits.now width signed) }
{
    let mut wide = Vec::from_slice(alloc, bits)?;
    wide.resize(width, fill_of(bits, signed))?;
    SigSpec::from_vec(wide)
}
