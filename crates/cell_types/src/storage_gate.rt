//! Storage gates.

ghost use Rattle.std.specs.Prelude.{◌≡◌, ◌++◌, [], Some, IfOk, codes};
ghost use Rattle.cell_types.specs.Kind.{kind_of};
ghost use Rattle.cell_types.specs.Letters.{value_of};
ghost use Rattle.cell_types.specs.StorageGate.{kind_of_gate};

use crate::kind::CellKind;
use crate::level::Level;
use crate::storage::StorageKind;
use rtl_bits::{Memory, Text};
use std::alloc::Global;

/// A storage cell of one bit. The letters of its name are the levels at which its pins act, and
/// the value that its reset gives. In the Yosys manual, "Gate-level cells", the sections
/// "Flip-flop cells" and "Latch cells".
#[derive(Clone, Copy, Debug, PartialEq, Eq)]
#[rattlefmt::skip]
pub enum StorageGate {
    /// `$_FF_`: as `$ff`.
    Ff,
    /// `$_DFF_[NP]_`: as `$dff`.
    Dff { clk: Level },
    /// `$_DFFE_[NP][NP]_`: as `$dffe`.
    Dffe { clk: Level, en: Level },
    /// `$_DFF_[NP][NP][01]_`: as `$adff`.
    Adff { clk: Level, arst: Level, value: bool },
    /// `$_DFFE_[NP][NP][01][NP]_`: as `$adffe`.
    Adffe { clk: Level, arst: Level, value: bool, en: Level },
    /// `$_SDFF_[NP][NP][01]_`: as `$sdff`.
    Sdff { clk: Level, srst: Level, value: bool },
    /// `$_SDFFE_[NP][NP][01][NP]_`: as `$sdffe`.
    Sdffe { clk: Level, srst: Level, value: bool, en: Level },
    /// `$_SDFFCE_[NP][NP][01][NP]_`: as `$sdffce`.
    Sdffce { clk: Level, srst: Level, value: bool, en: Level },
    /// `$_DFFSR_[NP][NP][NP]_`: as `$dffsr`.
    Dffsr { clk: Level, set: Level, clr: Level },
    /// `$_DFFSRE_[NP][NP][NP][NP]_`: as `$dffsre`.
    Dffsre { clk: Level, set: Level, clr: Level, en: Level },
    /// `$_ALDFF_[NP][NP]_`: as `$aldff`.
    Aldff { clk: Level, aload: Level },
    /// `$_ALDFFE_[NP][NP][NP]_`: as `$aldffe`.
    Aldffe { clk: Level, aload: Level, en: Level },
    /// `$_DLATCH_[NP]_`: as `$dlatch`.
    Dlatch { en: Level },
    /// `$_DLATCH_[NP][NP][01]_`: as `$adlatch`.
    Adlatch { en: Level, arst: Level, value: bool },
    /// `$_DLATCHSR_[NP][NP][NP]_`: as `$dlatchsr`.
    Dlatchsr { en: Level, set: Level, clr: Level },
    /// `$_SR_[NP][NP]_`: as `$sr`.
    Sr { set: Level, clr: Level },
}

impl StorageGate {
    /// The name of the cell.
    #[rattlefmt::skip]
    pub fn name(self, alloc: Global) -> Result<Text, Memory>
        ensures value { IfOk result (λ name. kind_of name ≡ Some (CellKind.StorageGate self)) }
    {
        match self {
            StorageGate::Ff => lettered(alloc, b"$_FF", &[]),
            StorageGate::Dff { clk } => lettered(alloc, b"$_DFF_", &[clk.letter()]),
            StorageGate::Dffe { clk, en } => lettered(alloc, b"$_DFFE_", &[clk.letter(), en.letter()]),
            StorageGate::Adff { clk, arst, value } =>
                lettered(alloc, b"$_DFF_", &[clk.letter(), arst.letter(), digit_of(value)]),
            StorageGate::Adffe { clk, arst, value, en } =>
                lettered(alloc, b"$_DFFE_", &[clk.letter(), arst.letter(), digit_of(value), en.letter()]),
            StorageGate::Sdff { clk, srst, value } =>
                lettered(alloc, b"$_SDFF_", &[clk.letter(), srst.letter(), digit_of(value)]),
            StorageGate::Sdffe { clk, srst, value, en } =>
                lettered(alloc, b"$_SDFFE_", &[clk.letter(), srst.letter(), digit_of(value), en.letter()]),
            StorageGate::Sdffce { clk, srst, value, en } =>
                lettered(alloc, b"$_SDFFCE_", &[clk.letter(), srst.letter(), digit_of(value), en.letter()]),
            StorageGate::Dffsr { clk, set, clr } =>
                lettered(alloc, b"$_DFFSR_", &[clk.letter(), set.letter(), clr.letter()]),
            StorageGate::Dffsre { clk, set, clr, en } =>
                lettered(alloc, b"$_DFFSRE_", &[clk.letter(), set.letter(), clr.letter(), en.letter()]),
            StorageGate::Aldff { clk, aload } =>
                lettered(alloc, b"$_ALDFF_", &[clk.letter(), aload.letter()]),
            StorageGate::Aldffe { clk, aload, en } =>
                lettered(alloc, b"$_ALDFFE_", &[clk.letter(), aload.letter(), en.letter()]),
            StorageGate::Dlatch { en } => lettered(alloc, b"$_DLATCH_", &[en.letter()]),
            StorageGate::Adlatch { en, arst, value } =>
                lettered(alloc, b"$_DLATCH_", &[en.letter(), arst.letter(), digit_of(value)]),
            StorageGate::Dlatchsr { en, set, clr } =>
                lettered(alloc, b"$_DLATCHSR_", &[en.letter(), set.letter(), clr.letter()]),
            StorageGate::Sr { set, clr } => lettered(alloc, b"$_SR_", &[set.letter(), clr.letter()]),
        }
    }

    /// The storage cell on words that keeps a bit in the same way.
    #[rattlefmt::skip]
    pub fn kind(self) -> StorageKind
        ensures value { result ≡ kind_of_gate self }
    {
        match self {
            StorageGate::Ff => StorageKind::Ff,
            StorageGate::Dff { .. } => StorageKind::Dff,
            StorageGate::Dffe { .. } => StorageKind::Dffe,
            StorageGate::Adff { .. } => StorageKind::Adff,
            StorageGate::Adffe { .. } => StorageKind::Adffe,
            StorageGate::Sdff { .. } => StorageKind::Sdff,
            StorageGate::Sdffe { .. } => StorageKind::Sdffe,
            StorageGate::Sdffce { .. } => StorageKind::Sdffce,
            StorageGate::Dffsr { .. } => StorageKind::Dffsr,
            StorageGate::Dffsre { .. } => StorageKind::Dffsre,
            StorageGate::Aldff { .. } => StorageKind::Aldff,
            StorageGate::Aldffe { .. } => StorageKind::Aldffe,
            StorageGate::Dlatch { .. } => StorageKind::Dlatch,
            StorageGate::Adlatch { .. } => StorageKind::Adlatch,
            StorageGate::Dlatchsr { .. } => StorageKind::Dlatchsr,
            StorageGate::Sr { .. } => StorageKind::Sr,
        }
    }
}

fn lettered(alloc: Global, family: &[u8], letters: &[u8]) -> Result<Text, Memory>
    ensures value { IfOk result (λ name. name ≡ family.now ++ letters.now ++ codes "_") }
{
    let mut name = Text::from_slice(alloc, family)?;
    name.extend(letters)?;
    name.push(b'_')?;
    Ok(name)
}

fn digit_of(value: bool) -> u8
    ensures value { value_of result ≡ Some value }
{
    if value { b'1' } else { b'0' }
}
