//! The kinds of cells that a machine is made of.

ghost use Rattle.std.specs.Prelude.{◌≡◌};
ghost use Rattle.net_model.specs.Fsm.Find.{has_reset, is_compare, is_flop, is_fork};

use cell_types::{CellKind, EqualKind, StorageKind, WordKind};

/// Whether it is a `$dff` or an `$adff`.
pub fn is_flop(kind: Option<CellKind>) -> bool
    ensures value { result ≡ is_flop kind }
{
    match kind {
        Some(CellKind::Storage(StorageKind::Dff | StorageKind::Adff)) => true,
        _ => false,
    }
}

/// Whether it is an `$adff`.
pub fn has_reset(kind: Option<CellKind>) -> bool
    ensures value { result ≡ has_reset kind }
{
    match kind {
        Some(CellKind::Storage(StorageKind::Adff)) => true,
        _ => false,
    }
}

/// Whether it is a `$mux` or a `$pmux`.
pub fn is_fork(kind: Option<CellKind>) -> bool
    ensures value { result ≡ is_fork kind }
{
    match kind {
        Some(CellKind::Word(WordKind::Mux | WordKind::Pmux)) => true,
        _ => false,
    }
}

/// Whether it is an `$eq` or a `$ne`.
pub fn is_compare(kind: Option<CellKind>) -> bool
    ensures value { result ≡ is_compare kind }
{
    match kind {
        Some(CellKind::Word(WordKind::Equal(EqualKind::Eq | EqualKind::Ne))) => true,
        _ => false,
    }
}
