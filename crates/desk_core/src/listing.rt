//! Commands that are answered with a list: the version, the modules, the ports of a module.

ghost use Rattle.std.specs.Prelude.{◌≡◌, ◌++◌, [], List, IfOk, OnOk};
ghost use Rattle.std.specs.List.{flat_map};
ghost use Rattle.rtl_ir.specs.Ports.{line_of, ports_of};
ghost use Rattle.desk_core.specs.Answers.{
  direction,
  modules_answer,
  names_text,
  port_line,
  ports_answer,
  printed_reply,
  version_answer,
};
ghost use Rattle.desk_core.specs.Present.{state_with};
ghost use Rattle.desk_core.specs.State.{KeptKey, answer};

use crate::present::Present;
use design_edit::place_named;
use reply_lines::{Reply, counted, put_number, text_reply, told_reply};
use rtl_bits::{Memory, Text};
use rtl_ir::{Module, Role, Wire, port_wires};
use std::alloc::Global;

/// The name and the version of the program, with its LF.
const VERSION: &[u8] = b"rtlsyn 2026.12\n";

impl Present {
    /// The version of the program.
    pub fn version(&self) -> Result<Reply, Memory>
        ensures ok { (kept : List KeptKey) → IfOk result (λ reply.
            answer reply (state_with kept self.now) ≡ version_answer (state_with kept self.now)) }
    {
        listed(self.alloc, Text::from_slice(self.alloc, VERSION)?)
    }

    /// The names of the modules of the present design, in its order.
    pub fn modules(&self) -> Result<Reply, Memory>
        ensures ok { (kept : List KeptKey) → IfOk result (λ reply.
            answer reply (state_with kept self.now) ≡ modules_answer (state_with kept self.now)) }
    {
        let names = names_text(self.alloc, self.design.design().modules.as_slice())?;
        listed(self.alloc, names)
    }

    /// The ports of the module of this name.
    pub fn ports(&self, name: &[u8]) -> Result<Reply, Memory>
        ensures ok { (kept : List KeptKey) → IfOk result (λ reply.
            answer reply (state_with kept self.now) ≡ ports_answer (state_with kept self.now) name.now) }
    {
        let modules = self.design.design().modules.as_slice();
        let Some(at) = place_named(modules, name) else {
            return told_reply(self.alloc, b"18 ", name);
        };
        listed(
            self.alloc,
            ports_text(self.alloc, modules[at].wires.as_slice())?,
        )
    }
}

/// The reply of a text, behind a line that counts its bytes.
pub fn listed(alloc: Global, text: Text) -> Result<Reply, Memory>
    ensures value { IfOk result (λ reply. reply ≡ printed_reply [] text) }
{
    let words = counted(alloc, b"bytes", text.as_slice().len())?;
    text_reply(alloc, words.as_slice(), text)
}

/// The names of the modules, each ended by one LF.
fn names_text(alloc: Global, modules: &[Module]) -> Result<Text, Memory>
    ensures value { IfOk result (λ text. text ≡ names_text modules.now) }
{
    let mut text = Text::make(alloc);
    for module in modules {
        text.extend(module.id.as_slice())?;
        text.push(b'\n')?;
    }
    Ok(text)
}

/// The lines of the ports among the wires, in the order of their numbers.
fn ports_text(alloc: Global, wires: &[Wire]) -> Result<Text, Memory>
    ensures value { IfOk result (λ text. text ≡ flat_map port_line (ports_of wires.now)) }
{
    let mut text = Text::make(alloc);
    for wire in port_wires(alloc, wires)?.as_slice() {
        put_port(&mut text, wire)?;
    }
    Ok(text)
}

/// Puts the line of a port last.
fn put_port(text: &mut Text, wire: &Wire) -> Result<(), Memory>
    ensures ok { OnOk result (text.new ≡ text.old ++ port_line (line_of wire.now)) }
{
    text.extend(wire.name.as_slice())?;
    text.push(b' ')?;
    text.extend(direction(wire.role))?;
    text.push(b' ')?;
    put_number(text, wire.width as usize)?;
    text.push(b'\n')
}

/// The word of the role of a port.
fn direction(role: Role) -> &'static [u8]
    ensures value { result.now ≡ direction role }
{
    match role {
        Role::Inner => b"inner",
        Role::Input => b"input",
        Role::Output => b"output",
        Role::Inout => b"inout",
    }
}
