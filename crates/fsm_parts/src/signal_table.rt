//! Places of a list by signals.

ghost use Rattle.std.specs.Prelude.{◌≡◌, ◌++◌, ℕ, List, IfOk, None, Some, OnOk, if◌then◌else◌};
ghost use Rattle.std.specs.Option.{option_or};
ghost use Rattle.std.specs.Str.{bytes_eq};
ghost use Rattle.rtl_sig.specs.declared.sig.SigBit.{SigBit};
ghost use Rattle.rtl_ir.specs.Signals.{same_signal};
ghost use Rattle.fsm_parts.specs.SignalTable.{at_key, bit_number, key_of, place_in, place_numbers};

use rtl_bits::{Bit, Memory};
use rtl_sig::SigBit;
use std::alloc::Global;
use std::collections::HashMap;

/// A place for some signals, each as a whole.
#[derive(Drop)]
pub struct SignalTable {
    places: HashMap<Vec<u64>, usize>,
}

impl SignalTable {
    /// No signal has a place.
    pub fn none(alloc: Global) -> SignalTable
        ensures none { (signal : List SigBit) → place_in result signal ≡ None }
    {
        SignalTable {
            places: HashMap::new(alloc),
        }
    }

    /// The signal has this place.
    pub fn put(&mut self, alloc: Global, signal: &[SigBit], at: usize) -> Result<(), Memory>
        ensures ok { OnOk result ((other : List SigBit) →
            place_in self.new other ≡ (if same_signal signal.now other then Some at else place_in self.old other)) }
    {
        let key = key_of(alloc, signal)?;
        self.put_key(key, at)?;
        Ok(())
    }

    /// The signal has this place, where it had none.
    pub fn put_first(&mut self, alloc: Global, signal: &[SigBit], at: usize) -> Result<(), Memory>
        ensures ok { OnOk result ((other : List SigBit) →
            place_in self.new other ≡ option_or (place_in self.old other) (if same_signal signal.now other then Some at
            else None)) }
    {
        let key = key_of(alloc, signal)?;
        match self.find_key(key.as_slice()) {
            Some(_) => Ok(()),
            None => {
                self.put_key(key, at)?;
                Ok(())
            }
        }
    }

    /// The key has this place.
    fn put_key(&mut self, key: Vec<u64>, at: usize) -> Result<(), Memory>
        ensures ok { OnOk result ((other : List ℕ) →
            at_key self.new other ≡ (if bytes_eq key.items other then Some at else at_key self.old other)) }
    {
        self.places.insert(key, at)?;
        Ok(())
    }

    /// The place of the signal, where it has one.
    pub fn find(&self, alloc: Global, signal: &[SigBit]) -> Result<Option<usize>, Memory>
        ensures value { IfOk result (λ at. at ≡ place_in self.now signal.now) }
    {
        let key = key_of(alloc, signal)?;
        Ok(self.find_key(key.as_slice()))
    }

    /// The place of the key, where it has one.
    fn find_key(&self, key: &[u64]) -> Option<usize>
        ensures value { result ≡ at_key self.now key.now }
    {
        self.places.get(key).copied()
    }
}

/// The signal as numbers, two for each bit.
fn key_of(alloc: Global, signal: &[SigBit]) -> Result<Vec<u64>, Memory>
    ensures value { IfOk result (λ key. key.items ≡ key_of signal.now) }
{
    let mut key = Vec::with_capacity(alloc, signal.len())?;
    for bit in signal {
        push_place(&mut key, *bit)?;
    }
    Ok(key)
}

/// A bit of a signal as two numbers.
fn push_place(key: &mut Vec<u64>, bit: SigBit) -> Result<(), Memory>
    ensures ok { OnOk result (key.new.items ≡ key.old.items ++ place_numbers bit) }
{
    match bit {
        SigBit::Fixed(bit) => {
            key.push(0)?;
            key.push(bit_number(bit))?;
        }
        SigBit::Wire(bit) => {
            key.push(u64::from(bit.wire) + 1)?;
            key.push(u64::from(bit.at))?;
        }
    }
    Ok(())
}

/// One of the six values as a number.
fn bit_number(bit: Bit) -> u64
    ensures value { result ≡ bit_number bit }
{
    match bit {
        Bit::S0 => 0,
        Bit::S1 => 1,
        Bit::X => 2,
        Bit::Z => 3,
        Bit::M => 4,
        Bit::Dash => 5,
    }
}
