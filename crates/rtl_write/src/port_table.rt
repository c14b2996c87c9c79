//! Tables of ports, read from their text.

ghost use Rattle.std.specs.Prelude.{◌≡◌, OnOk, IfOk, map, unwrap_or, pos};
ghost use Rattle.rtl_lex.specs.Numbers.{int_of};
ghost use Rattle.rtl_ir.specs.declared.ports.PortTable.{PortTable};
ghost use Rattle.rtl_write.specs.Ports.{ports_text};
ghost use Rattle.rtl_write.specs.PortTables.{
  ArePorts,
  parts_of,
  role_of,
  natural_of,
  port_of,
  add_port,
  with_line,
  modules_of,
};

use rtl_bits::{Memory, Seq, Text};
use rtl_ir::{ModulePorts, PortLine, PortTable, Role};
use rtl_lex::int_of;
use std::alloc::{AllocError, Global};

/// The parts of the bytes between bytes of this value.
fn parts_of(alloc: Global, mark: u8, bytes: &[u8]) -> Result<Vec<&[u8]>, AllocError>
    ensures value { IfOk result (λ parts. map (λ part. part.now) parts.items ≡ parts_of mark bytes.now) }
{
    bytes.split(|b| *b == mark).collect(alloc)
}

/// The role of a word.
fn role_of(word: &[u8]) -> Role
    ensures value { result ≡ role_of word.now }
{
    if word == b"input".as_slice() {
        Role::Input
    } else if word == b"output".as_slice() {
        Role::Output
    } else if word == b"inout".as_slice() {
        Role::Inout
    } else {
        Role::Inner
    }
}

/// The integer of a word, or 0.
fn integer(word: &[u8]) -> i32
    ensures value { result ≡ unwrap_or (int_of word.now) (pos 0) }
{
    int_of(word).unwrap_or(0)
}

/// The number of a word that is no less than 0, or 0.
fn natural(word: &[u8]) -> u32
    ensures value { result ≡ natural_of (int_of word.now) }
{
    match int_of(word) {
        Some(number) if number >= 0 => number.unsigned_abs(),
        _ => 0,
    }
}

/// The port of a line of four words.
fn port_of(alloc: Global, words: &[&[u8]]) -> Result<Option<PortLine>, Memory>
    ensures value { IfOk result (λ port. port ≡ port_of (map (λ word. word.now) words.now)) }
{
    match words {
        [role, number, width, name] => Ok(Some(PortLine {
            name: Text::from_slice(alloc, name)?,
            role: role_of(role),
            width: natural(width),
            number: integer(number),
        })),
        _ => Ok(None),
    }
}

/// Gives the last module one port more.
#[tactic(auto, using(crate::proofs::PortLemmas::add_port_last))]
fn add_port(modules: &mut Vec<ModulePorts>, port: PortLine) -> Result<(), Memory>
    ensures ok { OnOk result (modules.new.items ≡ add_port port modules.old.items) }
{
    if let Some(mut last) = modules.pop() {
        last.ports.push(port)?;
        modules.push(last)?;
    }
    Ok(())
}

/// Takes a line: the name of a module, or a port of the last one.
fn take_line(alloc: Global, modules: &mut Vec<ModulePorts>, line: &[u8]) -> Result<(), Memory>
    ensures ok { OnOk result (modules.new.items ≡ with_line modules.old.items line.now) }
{
    match line {
        [] => Ok(()),
        [b'\\' | b'$', ..] => {
            modules.push(ModulePorts {
                id: Text::from_slice(alloc, line)?,
                ports: Seq::make(alloc),
            })?;
            Ok(())
        }
        _ => {
            let words = parts_of(alloc, b' ', line)?;
            if let Some(port) = port_of(alloc, words.as_slice())? {
                add_port(modules, port)?;
            }
            Ok(())
        }
    }
}

/// The modules of the text.
fn modules_of(alloc: Global, text: &[u8]) -> Result<Vec<ModulePorts>, Memory>
    ensures value { IfOk result (λ modules. modules.items ≡ modules_of text.now) }
{
    let lines = parts_of(alloc, b'\n', text)?;
    let mut modules = Vec::new(alloc);
    for line in &lines {
        take_line(alloc, &mut modules, line)?;
    }
    Ok(modules)
}

/// The table whose text this is. Of any other text it answers some table.
pub fn read_ports(alloc: Global, text: &[u8]) -> Result<PortTable, Memory>
    ensures round_trip { IfOk result (λ read. (table : PortTable) → ArePorts table → text.now ≡ ports_text table →
        read ≡ table) }
{
    Ok(PortTable {
        modules: Seq::from_vec(modules_of(alloc, text)?),
    })
}
