//! Tables of ports.

use rtl_bits::{Copied, Memory, Seq, Text};
use rtl_ir::{Cell, Design, Module, PortLine, PortTable, Role, Wire, port_table};
use std::alloc::Global;
use table_rows::str_of;

fn digit(byte: Option<&u8>) -> u8 {
    match byte {
        Some(byte) if byte.is_ascii_digit() => *byte - b'0',
        _ => 0,
    }
}

fn role(letter: u8) -> Option<Role> {
    match letter {
        b'>' => Some(Role::Input),
        b'<' => Some(Role::Output),
        b'=' => Some(Role::Inout),
        b'.' => Some(Role::Inner),
        _ => None,
    }
}

fn wire(alloc: Global, role: Role, word: &[u8]) -> Result<Wire, Memory> {
    let name = match word.get(1) {
        Some(name) => *name,
        None => b'?',
    };
    Ok(Wire {
        name: Text::from_slice(alloc, [name].as_slice())?,
        width: digit(word.get(3)) as u32,
        offset: 0,
        upto: false,
        signed: false,
        role,
        number: digit(word.get(2)) as i32,
        attributes: Seq::make(alloc),
    })
}

fn cell(alloc: Global, kind_name: &[u8]) -> Result<Cell, Memory> {
    Ok(Cell {
        kind_name: Text::from_slice(alloc, kind_name)?,
        name: Text::from_slice(alloc, b"u".as_slice())?,
        params: Seq::make(alloc),
        pins: Seq::make(alloc),
        attributes: Seq::make(alloc),
    })
}

/// Puts the wire or cell of a word last.
fn put_item(alloc: Global, module: &mut Module, word: &[u8]) -> Result<(), Memory> {
    let Some(first) = word.first() else {
        return Ok(());
    };
    match role(*first) {
        Some(role) => module.wires.push(wire(alloc, role, word)?),
        None => module.cells.push(cell(alloc, &word[1..])?),
    }
}

/// Puts the items of the words behind the first one last.
fn put_items(alloc: Global, module: &mut Module, text: &str) -> Result<(), Memory> {
    for word in text.split(' ').skip(1) {
        put_item(alloc, module, word.as_bytes())?;
    }
    Ok(())
}

fn module(alloc: Global, text: &str) -> Result<Module, Memory> {
    let id = text.split(' ').next().unwrap_or("");
    let mut module = Module::empty(alloc, id.as_bytes())?;
    put_items(alloc, &mut module, text)?;
    Ok(module)
}

fn design(alloc: Global, text: &str) -> Result<Design, Memory> {
    let mut modules = Seq::make(alloc);
    for part in text.split(';') {
        modules.push(module(alloc, part)?)?;
    }
    Ok(Design { modules })
}

fn role_letter(role: Role) -> u8 {
    match role {
        Role::Input => b'>',
        Role::Output => b'<',
        Role::Inout => b'=',
        Role::Inner => b'.',
    }
}

/// Puts a port last, as a row has it.
fn put_port(text: &mut Text, port: &PortLine) -> Result<(), Memory> {
    text.push(b' ')?;
    text.push(role_letter(port.role))?;
    text.extend(port.name.as_slice())?;
    let digits = format!(in text.allocator(); "{}{}", port.number, port.width)?;
    text.extend(digits.as_bytes())
}

/// Puts a module and its ports last.
fn put_ports(text: &mut Text, id: &Text, ports: &[PortLine]) -> Result<(), Memory> {
    if !text.as_slice().is_empty() {
        text.push(b';')?;
    }
    text.extend(id.as_slice())?;
    for port in ports {
        put_port(text, port)?;
    }
    Ok(())
}

/// The table as a row has it.
fn spelled(alloc: Global, table: &PortTable) -> Result<Text, Memory> {
    let mut text = Text::make(alloc);
    for module in table.modules.as_slice() {
        put_ports(&mut text, &module.id, module.ports.as_slice())?;
    }
    Ok(text)
}

/// Whether the table of the module at this place is as wanted, and so is its copy.
fn is_table(alloc: Global, design: &Design, at: u32, wanted: &[u8]) -> Result<bool, Memory> {
    if design.modules.as_slice().len() <= at as usize {
        return Ok(false);
    }
    let table = port_table(alloc, design, at)?.copy()?;
    Ok(spelled(alloc, &table)?.as_slice() == wanted)
}

/// Whether a module of a design has this table.
pub fn has_table(alloc: Global, fields: &[&[u8]]) -> Result<bool, Memory> {
    let [_, text, at, wanted] = fields else {
        return Ok(false);
    };
    let design = design(alloc, str_of(text))?;
    match str_of(at).parse::<u32>() {
        Ok(at) => is_table(alloc, &design, at, wanted),
        Err(_) => Ok(false),
    }
}
