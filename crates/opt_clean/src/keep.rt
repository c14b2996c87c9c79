//! What the outside sees, and what may not go.

ghost use Rattle.std.specs.Prelude.{◌≡◌, IfOk, map};
ghost use Rattle.opt_clean.specs.Keep.{is_shown};

use rtl_bits::Memory;
use rtl_ir::{Role, Wire, is_kept};
use std::alloc::Global;

/// Which of the wires the outside sees: output ports, and wires with `\keep`.
pub(crate) fn shown_wires(alloc: Global, wires: &[Wire]) -> Result<Vec<bool>, Memory>
    ensures value { IfOk result (λ shown. shown.items ≡ map is_shown wires.now) }
{
    let mut shown = Vec::with_capacity(alloc, wires.len())?;
    for wire in wires {
        shown.push(is_shown(alloc, wire)?)?;
    }
    Ok(shown)
}

/// Whether the outside sees the wire.
fn is_shown(alloc: Global, wire: &Wire) -> Result<bool, Memory>
    ensures value { IfOk result (λ shown. shown ≡ is_shown wire.now) }
{
    if matches!(wire.role, Role::Output) {
        return Ok(true);
    }
    is_kept(alloc, wire.attributes.as_slice())
}
