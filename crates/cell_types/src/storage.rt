//! Storage cells on words.

ghost use Rattle.std.specs.Prelude.{◌≡◌, Some};
ghost use Rattle.cell_types.specs.Storage.{storage_of};
ghost use Rattle.cell_types.specs.Kind.{kind_of};

use crate::kind::CellKind;
use crate::names::find_named;

/// A storage cell of any width: in the Yosys manual, "Word-level cells", the section "Registers".
#[derive(Clone, Copy, Debug, PartialEq, Eq)]
pub enum StorageKind {
    /// `$ff`: D of the step before.
    Ff,
    /// `$dff`: with a clock.
    Dff,
    /// `$dffe`: with a clock and an enable.
    Dffe,
    /// `$sdff`: with a clock and a synchronous reset.
    Sdff,
    /// `$sdffe`: with a clock, a synchronous reset and an enable that the reset passes.
    Sdffe,
    /// `$sdffce`: with a clock, a synchronous reset and an enable of both.
    Sdffce,
    /// `$adff`: with a clock and an asynchronous reset.
    Adff,
    /// `$adffe`: with a clock, an asynchronous reset and an enable.
    Adffe,
    /// `$aldff`: with a clock and an asynchronous load.
    Aldff,
    /// `$aldffe`: with a clock, an asynchronous load and an enable.
    Aldffe,
    /// `$dffsr`: with a clock, and a set and a clear for each bit.
    Dffsr,
    /// `$dffsre`: with a clock, a set and a clear for each bit, and an enable.
    Dffsre,
    /// `$dlatch`: open while enabled.
    Dlatch,
    /// `$adlatch`: open while enabled, with an asynchronous reset.
    Adlatch,
    /// `$dlatchsr`: open while enabled, with a set and a clear for each bit.
    Dlatchsr,
    /// `$sr`: a set and a clear for each bit.
    Sr,
}

#[rattlefmt::skip]
const STORAGES_OF_3: [(&[u8], StorageKind); 2] = [
    (b"$ff", StorageKind::Ff),
    (b"$sr", StorageKind::Sr),
];

#[rattlefmt::skip]
const STORAGES_OF_4: [(&[u8], StorageKind); 1] = [
    (b"$dff", StorageKind::Dff),
];

#[rattlefmt::skip]
const STORAGES_OF_5: [(&[u8], StorageKind); 3] = [
    (b"$dffe", StorageKind::Dffe),
    (b"$sdff", StorageKind::Sdff),
    (b"$adff", StorageKind::Adff),
];

#[rattlefmt::skip]
const STORAGES_OF_6: [(&[u8], StorageKind); 4] = [
    (b"$sdffe", StorageKind::Sdffe),
    (b"$adffe", StorageKind::Adffe),
    (b"$aldff", StorageKind::Aldff),
    (b"$dffsr", StorageKind::Dffsr),
];

#[rattlefmt::skip]
const STORAGES_OF_7: [(&[u8], StorageKind); 4] = [
    (b"$sdffce", StorageKind::Sdffce),
    (b"$aldffe", StorageKind::Aldffe),
    (b"$dffsre", StorageKind::Dffsre),
    (b"$dlatch", StorageKind::Dlatch),
];

#[rattlefmt::skip]
const STORAGES_OF_8: [(&[u8], StorageKind); 1] = [
    (b"$adlatch", StorageKind::Adlatch),
];

#[rattlefmt::skip]
const STORAGES_OF_9: [(&[u8], StorageKind); 1] = [
    (b"$dlatchsr", StorageKind::Dlatchsr),
];

/// The storage cell of this name.
pub(crate) fn storage_named(name: &[u8]) -> Option<StorageKind>
    ensures value { result ≡ storage_of name.now }
{
    match name.len() {
        3 => find_named(&STORAGES_OF_3, name),
        4 => find_named(&STORAGES_OF_4, name),
        5 => find_named(&STORAGES_OF_5, name),
        6 => find_named(&STORAGES_OF_6, name),
        7 => find_named(&STORAGES_OF_7, name),
        8 => find_named(&STORAGES_OF_8, name),
        9 => find_named(&STORAGES_OF_9, name),
        _ => None,
    }
}

impl StorageKind {
    /// The name of the cell.
    pub fn name(self) -> &'static [u8]
        ensures value { kind_of result.now ≡ Some (CellKind.Storage self) }
    {
        match self {
            StorageKind::Ff => b"$ff",
            StorageKind::Dff => b"$dff",
            StorageKind::Dffe => b"$dffe",
            StorageKind::Sdff => b"$sdff",
            StorageKind::Sdffe => b"$sdffe",
            StorageKind::Sdffce => b"$sdffce",
            StorageKind::Adff => b"$adff",
            StorageKind::Adffe => b"$adffe",
            StorageKind::Aldff => b"$aldff",
            StorageKind::Aldffe => b"$aldffe",
            StorageKind::Dffsr => b"$dffsr",
            StorageKind::Dffsre => b"$dffsre",
            StorageKind::Dlatch => b"$dlatch",
            StorageKind::Adlatch => b"$adlatch",
            StorageKind::Dlatchsr => b"$dlatchsr",
            StorageKind::Sr => b"$sr",
        }
    }
}
