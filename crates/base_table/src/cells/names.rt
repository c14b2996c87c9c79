//! The names of the cells.

use cell_types::{is_unsupported, kind_of};
use rtl_bits::Memory;
use std::alloc::Global;

/// Whether the name is one that cells have, and is written back so.
fn is_accepted(alloc: Global, name: &[u8]) -> Result<bool, Memory> {
    match kind_of(name) {
        Some(kind) => Ok(kind.name(alloc)?.as_slice() == name && !is_unsupported(name)),
        None => Ok(false),
    }
}

/// Whether the name is accepted, known but not accepted, or unknown.
pub fn is_known(alloc: Global, fields: &[&[u8]]) -> Result<bool, Memory> {
    match fields {
        [name, b"accepted"] => is_accepted(alloc, name),
        [name, b"known"] => Ok(kind_of(name).is_none() && is_unsupported(name)),
        [name, b"unknown"] => Ok(kind_of(name).is_none() && !is_unsupported(name)),
        _ => Ok(false),
    }
}
