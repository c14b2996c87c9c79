//! The names of storage gates: what the letters of each family mean.

ghost use Rattle.std.specs.Prelude.{◌≡◌};
ghost use Rattle.cell_types.specs.Letters.{aldff_with, aldffe_with, dff_with, dffe_with, dffsr_with, dffsre_with};
ghost use Rattle.cell_types.specs.Letters.{dlatch_with, dlatchsr_with, ff_with, sdff_with, sdffce_with, sdffe_with};
ghost use Rattle.cell_types.specs.Letters.{sr_with};
ghost use Rattle.cell_types.specs.Letters.{level_of, value_of, gate_with, storage_gate_of};

use crate::level::Level;
use crate::names::find_prefixed;
use crate::storage_gate::StorageGate;

/// What the names of storage gates begin with.
#[derive(Clone, Copy)]
enum Family {
    Ff,
    Dff,
    Dffe,
    Sdff,
    Sdffe,
    Sdffce,
    Dffsr,
    Dffsre,
    Aldff,
    Aldffe,
    Dlatch,
    Dlatchsr,
    Sr,
}

#[rattlefmt::skip]
const FAMILIES: [(&[u8], Family); 13] = [
    (b"$_FF", Family::Ff),
    (b"$_DFF_", Family::Dff),
    (b"$_DFFE_", Family::Dffe),
    (b"$_SDFF_", Family::Sdff),
    (b"$_SDFFE_", Family::Sdffe),
    (b"$_SDFFCE_", Family::Sdffce),
    (b"$_DFFSR_", Family::Dffsr),
    (b"$_DFFSRE_", Family::Dffsre),
    (b"$_ALDFF_", Family::Aldff),
    (b"$_ALDFFE_", Family::Aldffe),
    (b"$_DLATCH_", Family::Dlatch),
    (b"$_DLATCHSR_", Family::Dlatchsr),
    (b"$_SR_", Family::Sr),
];

/// The storage gate of this name.
pub(crate) fn storage_gate_named(name: &[u8]) -> Option<StorageGate>
    ensures value { result ≡ storage_gate_of name.now }
{
    let body = name.strip_suffix(b"_")?;
    let (family, letters) = find_prefixed(&FAMILIES, body)?;
    gate_with(family, letters)
}

/// The gate of the family with these letters.
fn gate_with(family: Family, letters: &[u8]) -> Option<StorageGate>
    ensures value { result ≡ gate_with family letters.now }
{
    match family {
        Family::Ff => ff_with(letters),
        Family::Dff => dff_with(letters),
        Family::Dffe => dffe_with(letters),
        Family::Sdff => sdff_with(letters),
        Family::Sdffe => sdffe_with(letters),
        Family::Sdffce => sdffce_with(letters),
        Family::Dffsr => dffsr_with(letters),
        Family::Dffsre => dffsre_with(letters),
        Family::Aldff => aldff_with(letters),
        Family::Aldffe => aldffe_with(letters),
        Family::Dlatch => dlatch_with(letters),
        Family::Dlatchsr => dlatchsr_with(letters),
        Family::Sr => sr_with(letters),
    }
}

fn level_of(letter: u8) -> Option<Level>
    ensures value { result ≡ level_of letter }
{
    match letter {
        b'N' => Some(Level::Low),
        b'P' => Some(Level::High),
        _ => None,
    }
}

fn value_of(digit: u8) -> Option<bool>
    ensures value { result ≡ value_of digit }
{
    match digit {
        b'0' => Some(false),
        b'1' => Some(true),
        _ => None,
    }
}

fn ff_with(letters: &[u8]) -> Option<StorageGate>
    ensures value { result ≡ ff_with letters.now }
{
    match letters {
        [] => Some(StorageGate::Ff),
        _ => None,
    }
}

fn dff_with(letters: &[u8]) -> Option<StorageGate>
    ensures value { result ≡ dff_with letters.now }
{
    match letters {
        [clk] => Some(StorageGate::Dff {
            clk: level_of(*clk)?,
        }),
        [clk, arst, value] => Some(StorageGate::Adff {
            clk: level_of(*clk)?,
            arst: level_of(*arst)?,
            value: value_of(*value)?,
        }),
        _ => None,
    }
}

fn dffe_with(letters: &[u8]) -> Option<StorageGate>
    ensures value { result ≡ dffe_with letters.now }
{
    match letters {
        [clk, en] => Some(StorageGate::Dffe {
            clk: level_of(*clk)?,
            en: level_of(*en)?,
        }),
        [clk, arst, value, en] => Some(StorageGate::Adffe {
            clk: level_of(*clk)?,
            arst: level_of(*arst)?,
            value: value_of(*value)?,
            en: level_of(*en)?,
        }),
        _ => None,
    }
}

fn sdff_with(letters: &[u8]) -> Option<StorageGate>
    ensures value { result ≡ sdff_with letters.now }
{
    match letters {
        [clk, srst, value] => Some(StorageGate::Sdff {
            clk: level_of(*clk)?,
            srst: level_of(*srst)?,
            value: value_of(*value)?,
        }),
        _ => None,
    }
}

fn sdffe_with(letters: &[u8]) -> Option<StorageGate>
    ensures value { result ≡ sdffe_with letters.now }
{
    match letters {
        [clk, srst, value, en] => Some(StorageGate::Sdffe {
            clk: level_of(*clk)?,
            srst: level_of(*srst)?,
            value: value_of(*value)?,
            en: level_of(*en)?,
        }),
        _ => None,
    }
}

fn sdffce_with(letters: &[u8]) -> Option<StorageGate>
    ensures value { result ≡ sdffce_with letters.now }
{
    match letters {
        [clk, srst, value, en] => Some(StorageGate::Sdffce {
            clk: level_of(*clk)?,
            srst: level_of(*srst)?,
            value: value_of(*value)?,
            en: level_of(*en)?,
        }),
        _ => None,
    }
}

fn dffsr_with(letters: &[u8]) -> Option<StorageGate>
    ensures value { result ≡ dffsr_with letters.now }
{
    match letters {
        [clk, set, clr] => Some(StorageGate::Dffsr {
            clk: level_of(*clk)?,
            set: level_of(*set)?,
            clr: level_of(*clr)?,
        }),
        _ => None,
    }
}

fn dffsre_with(letters: &[u8]) -> Option<StorageGate>
    ensures value { result ≡ dffsre_with letters.now }
{
    match letters {
        [clk, set, clr, en] => Some(StorageGate::Dffsre {
            clk: level_of(*clk)?,
            set: level_of(*set)?,
            clr: level_of(*clr)?,
            en: level_of(*en)?,
        }),
        _ => None,
    }
}

fn aldff_with(letters: &[u8]) -> Option<StorageGate>
    ensures value { result ≡ aldff_with letters.now }
{
    match letters {
        [clk, aload] => Some(StorageGate::Aldff {
            clk: level_of(*clk)?,
            aload: level_of(*aload)?,
        }),
        _ => None,
    }
}

fn aldffe_with(letters: &[u8]) -> Option<StorageGate>
    ensures value { result ≡ aldffe_with letters.now }
{
    match letters {
        [clk, aload, en] => Some(StorageGate::Aldffe {
            clk: level_of(*clk)?,
            aload: level_of(*aload)?,
            en: level_of(*en)?,
        }),
        _ => None,
    }
}

fn dlatch_with(letters: &[u8]) -> Option<StorageGate>
    ensures value { result ≡ dlatch_with letters.now }
{
    match letters {
        [en] => Some(StorageGate::Dlatch { en: level_of(*en)? }),
        [en, arst, value] => Some(StorageGate::Adlatch {
            en: level_of(*en)?,
            arst: level_of(*arst)?,
            value: value_of(*value)?,
        }),
        _ => None,
    }
}

fn dlatchsr_with(letters: &[u8]) -> Option<StorageGate>
    ensures value { result ≡ dlatchsr_with letters.now }
{
    match letters {
        [en, set, clr] => Some(StorageGate::Dlatchsr {
            en: level_of(*en)?,
            set: level_of(*set)?,
            clr: level_of(*clr)?,
        }),
        _ => None,
    }
}

fn sr_with(letters: &[u8]) -> Option<StorageGate>
    ensures value { result ≡ sr_with letters.now }
{
    match letters {
        [set, clr] => Some(StorageGate::Sr {
            set: level_of(*set)?,
            clr: level_of(*clr)?,
        }),
        _ => None,
    }
}
