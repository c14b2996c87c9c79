//! The ports of a module, in order of number.

ghost use Rattle.std.specs.Prelude.{◌≡◌, IfOk};
ghost use Rattle.sim_text.specs.Ports.{port_widths, same_role};

use rtl_bits::Memory;
use rtl_ir::{Module, Role, port_wires};
use std::alloc::Global;

/// The widths of the ports of a role, in order of number.
pub fn port_widths(alloc: Global, role: Role, module: &Module) -> Result<Vec<u32>, Memory>
    ensures value { IfOk result (λ widths. widths.items ≡ port_widths role «module».now) }
{
    let mut widths = Vec::new(alloc);
    for wire in &port_wires(alloc, module.wires.as_slice())? {
        if same_role(role, wire.role) {
            widths.push(wire.width)?;
        }
    }
    Ok(widths)
}

/// Whether the two roles are one.
fn same_role(a: Role, b: Role) -> bool
    ensures value { result ≡ same_role a b }
{
    matches!(
        (a, b),
        (Role::Inner, Role::Inner)
            | (Role::Input, Role::Input)
            | (Role::Output, Role::Output)
            | (Role::Inout, Role::Inout)
    )
}
