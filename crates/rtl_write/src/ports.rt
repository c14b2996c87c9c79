//! Tables of ports.

ghost use Rattle.std.specs.Prelude.{◌≡◌, ◌++◌, OnOk, IfOk};
ghost use Rattle.std.specs.List.{flat_map};
ghost use Rattle.rtl_write.specs.Ports.{role_word, port_text, ports_by_module_text, ports_text};

use crate::constant::{put_integer, put_number};
use rtl_bits::{Memory, Text};
use rtl_ir::{ModulePorts, PortLine, PortTable, Role};
use std::alloc::Global;

/// Writes the word of a role, and the blank behind it.
#[tactic(auto, unfolding(crate::specs::Ports::role_word))]
fn put_role_word(out: &mut Text, role: Role) -> Result<(), Memory>
    ensures ok { OnOk result (out.new ≡ out.old ++ role_word role) }
{
    match role {
        Role::Inner => out.extend(b"inner "),
        Role::Input => out.extend(b"input "),
        Role::Output => out.extend(b"output "),
        Role::Inout => out.extend(b"inout "),
    }
}

/// Writes the line of a port.
#[tactic(auto, unfolding(crate::specs::Ports::port_text))]
fn put_port(out: &mut Text, port: &PortLine) -> Result<(), Memory>
    ensures ok { OnOk result (out.new ≡ out.old ++ port_text port.now) }
{
    put_role_word(out, port.role)?;
    put_integer(out, port.number)?;
    out.push(b' ')?;
    put_number(out, u64::from(port.width))?;
    out.push(b' ')?;
    out.extend(port.name.as_slice())?;
    out.push(b'\n')
}

fn put_ports(out: &mut Text, ports: &[PortLine]) -> Result<(), Memory>
    ensures ok { OnOk result (out.new ≡ out.old ++ flat_map port_text ports.now) }
{
    for port in ports {
        put_port(out, port)?;
    }
    Ok(())
}

/// Writes the lines of a module.
#[tactic(auto, unfolding(crate::specs::Ports::ports_by_module_text))]
fn put_module_ports(out: &mut Text, module: &ModulePorts) -> Result<(), Memory>
    ensures ok { OnOk result (out.new ≡ out.old ++ ports_by_module_text «module».now) }
{
    out.extend(module.id.as_slice())?;
    out.push(b'\n')?;
    put_ports(out, module.ports.as_slice())
}

/// The text of the table: a line with the name of each module, and behind it a line for each of its
/// ports with the role, the number, the width and the name.
pub fn ports_text(alloc: Global, ports: &PortTable) -> Result<Text, Memory>
    ensures exact { IfOk result (λ text. text ≡ ports_text ports.now) }
{
    let mut out = Text::make(alloc);
    for module in ports.modules.as_slice() {
        put_module_ports(&mut out, module)?;
    }
    Ok(out)
}
