//! The words of error lines.

ghost use Rattle.std.specs.Prelude.{◌≡◌, ◌++◌, IfOk, OnOk};
ghost use Rattle.std.specs.Fmt.{decimal};
ghost use Rattle.rtl_check.specs.Words.{fault_number, fault_words, spot_words, wire_words};

use crate::fault::{CheckFault, Item, Spot, WireSpot};
use rtl_bits::{Copied, Memory, Text};
use std::alloc::Global;

impl CheckFault {
    /// The digits of the error's number. Want of memory has none.
    pub fn number(&self) -> &'static [u8]
        ensures value { result.now ≡ fault_number self.now }
    {
        match self {
            CheckFault::Width(_) => b"7",
            CheckFault::UnknownCell(_) => b"8",
            CheckFault::UnsupportedCell(_) => b"9",
            CheckFault::BadParameterOrPort(_) => b"10",
            CheckFault::TooWide(_) => b"11",
            CheckFault::TwoDrivers(_) => b"12",
            CheckFault::BadPort(_) => b"13",
            CheckFault::BadProcess(_) => b"14",
            CheckFault::BadMemory(_) => b"15",
            CheckFault::Recursion(_) => b"16",
            CheckFault::Memory => b"",
        }
    }

    /// The words of the error's line: the module, and what is at fault in it. Want of memory has none.
    pub fn words(&self, alloc: Global) -> Result<Text, Memory>
        ensures value { IfOk result (λ words. words ≡ fault_words self.now) }
    {
        match self {
            CheckFault::Width(spot)
            | CheckFault::UnknownCell(spot)
            | CheckFault::UnsupportedCell(spot)
            | CheckFault::BadParameterOrPort(spot)
            | CheckFault::TooWide(spot)
            | CheckFault::BadPort(spot)
            | CheckFault::BadProcess(spot)
            | CheckFault::BadMemory(spot) => spot_words(alloc, spot),
            CheckFault::TwoDrivers(spot) => wire_words(alloc, spot),
            CheckFault::Recursion(id) => id.copy(),
            CheckFault::Memory => Ok(Text::make(alloc)),
        }
    }
}

/// A module and an item of it.
fn spot_words(alloc: Global, spot: &Spot) -> Result<Text, Memory>
    ensures value { IfOk result (λ words. words ≡ spot_words spot.now) }
{
    let mut words = spot.id.copy()?;
    words.extend(b" ")?;
    match &spot.item {
        Item::Named(name) => words.extend(name.as_slice())?,
        Item::Connect(number) => {
            words.extend(b"connect ")?;
            put_number(&mut words, alloc, *number)?;
        }
    }
    Ok(words)
}

/// A module, a wire of it and the number of a bit.
fn wire_words(alloc: Global, spot: &WireSpot) -> Result<Text, Memory>
    ensures value { IfOk result (λ words. words ≡ wire_words spot.now) }
{
    let mut words = spot.id.copy()?;
    words.extend(b" ")?;
    words.extend(spot.wire.as_slice())?;
    words.extend(b" ")?;
    put_number(&mut words, alloc, u64::from(spot.at))?;
    Ok(words)
}

/// Puts the digits of a number behind the words.
fn put_number(words: &mut Text, alloc: Global, number: u64) -> Result<(), Memory>
    ensures value { OnOk result (words.new ≡ words.old ++ decimal number) }
{
    let digits = number.to_string(alloc)?;
    words.extend(digits.as_bytes())
}
