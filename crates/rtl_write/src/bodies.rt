//! Modules, read from the text of their bodies.

ghost use Rattle.std.specs.Prelude.{◌≡◌, ◌≤◌, true, [], ◌∷◌, IfOk, length};
ghost use Rattle.rtl_ir.specs.declared.module.Module.{Module};
ghost use Rattle.rtl_read.specs.declared.read_fault.ReadFault.TheVariants as faults;
ghost use Rattle.rtl_write.specs.Text.{body_text};
ghost use Rattle.rtl_readable.specs.Readable.{IsReadableModule};
ghost use Rattle.rtl_write.specs.Bodies.{line_at, with_name};

use rtl_bits::{Memory, Text};
use rtl_ir::{Design, Module};
use rtl_read::{ReadFault, read};
use std::alloc::Global;

/// How many bytes stand before the first line that begins with this byte.
fn line_at(first: u8, text: &[u8]) -> usize
    ensures value { result ≡ line_at first true text.now }
    ensures within { result ≤ length text.now }
{
    let mut start = true;
    for (at, byte) in text.iter().enumerate() {
        if start && *byte == first {
            return at;
        }
        start = *byte == b'\n';
    }
    text.len()
}

/// The text with the name behind the word of the first line that begins with `m`.
fn with_name(alloc: Global, name: &[u8], text: &[u8]) -> Result<Vec<u8>, Memory>
    ensures value { IfOk result (λ named. named.items ≡ with_name name.now text.now) }
{
    let at = text.len().min(line_at(b'm', text) + 6);
    let room = text.len().saturating_add(name.len()).saturating_add(1);
    let mut named = Vec::with_capacity(alloc, room)?;
    named.extend_from_slice(&text[..at])?;
    named.push(b' ')?;
    named.extend_from_slice(name)?;
    named.extend_from_slice(&text[at..])?;
    Ok(named)
}

/// The first module of the design, under this name; where there is none, the empty one.
fn first_under(alloc: Global, design: Design, id: &[u8]) -> Result<Module, Memory>
    ensures value { («module» : Module) → design.modules ≡ «module» ∷ [] →
        IfOk result (λ read. read ≡ record «module» { id = id.now }) }
{
    match design.modules.into_vec().pop() {
        Some(mut module) => {
            module.id = Text::from_slice(alloc, id)?;
            Ok(module)
        }
        None => Module::empty(alloc, id),
    }
}

/// What is answered for a text that is of no design: the empty module of this name, unless memory ran
/// out while it was read.
fn unread(alloc: Global, fault: ReadFault, id: &[u8]) -> Result<Module, Memory>
    ensures { IfOk result (λ _. ¬ (fault ≡ faults.Memory)) }
{
    match fault {
        ReadFault::Memory => Err(Memory),
        _ => Module::empty(alloc, id),
    }
}

/// The module, under this name, whose body has this text. Of any other text it answers some module
/// of this name.
pub fn read_body(alloc: Global, text: &[u8], id: &[u8]) -> Result<Module, Memory>
    ensures round_trip { («module» : Module) → IsReadableModule «module» → text.now ≡ body_text «module» →
        IfOk result (λ read. read ≡ record «module» { id = id.now }) }
{
    // Some name has to stand there, and `id` may be none.
    let named = with_name(alloc, b"\\m", text)?;
    match read(alloc, named.as_slice()) {
        Ok(design) => first_under(alloc, design, id),
        Err(fault) => unread(alloc, fault, id),
    }
}
