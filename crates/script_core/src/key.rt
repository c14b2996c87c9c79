//! What the result of a script over a module depends on.

ghost use Rattle.std.specs.Prelude.{◌≡◌, ◌<◌, ◌^◌, ◌++◌, ℕ, List, IfOk, OnOk, length, map};
ghost use Rattle.rtl_ir.specs.Faults.{faults_within};
ghost use Rattle.rtl_write.specs.Text.{text_of};
ghost use Rattle.rtl_readable.specs.Readable.{IsReadable};
ghost use Rattle.script_core.specs.Built.{IsAcceptedKey};
ghost use Rattle.script_core.specs.Keys.{IsThere, KeyParts, below_text_at, key_of, key_text, part_text};
ghost use Rattle.script_core.specs.Words.{letter_of};

use crate::key_table::KeyTable;
use crate::script::Script;
use crate::word::Word;
use rtl_bits::{Copied, Memory, Text};
use rtl_check::Checked;
use rtl_ir::{Design, Module};
use rtl_write::{body_text, module_text, ports_text};
use std::alloc::Global;
use std::marker::Model;

/// Where a part of a text stands: from one byte up to another.
#[derive(Clone, Copy)]
struct Span {
    from: usize,
    to: usize,
}

/// All that the result of a script over a module depends on: the text of the module without its name, the
/// text of the ports of the modules that it instantiates, the script, and where that flattens the text of the modules
/// that it reaches, in order of their names. All of it stands in one text, which its copies share.
#[derive(Drop)]
pub struct Key {
    text: Text,
    body: Span,
    ports: Span,
    below: Span,
    script: Script,
}

impl Model for Key {
    ghost use Rattle.script_core.specs.Keys.{IsWhole, KeyParts, parts_of};

    ghost Value = { KeyParts };

    ghost view = { λ key. parts_of key.text key.body key.ports key.below key.script };

    ghost invariant = { λ key. IsWhole key.text key.body key.ports key.below key.script };
}

impl Copied for Key {
    fn copy(&self) -> Result<Key, Memory> {
        Ok(Key {
            text: self.text.copy()?,
            body: self.body,
            ports: self.ports,
            below: self.below,
            script: self.script.copy()?,
        })
    }
}

/// The key of the module at this place of the design, under the script. For several modules of a design `key_by` looks
/// their types up in one table.
pub fn key_of(alloc: Global, design: &Checked, module: u32, script: &Script) -> Result<Key, Memory>
    requires in_range { «module» < length design.now.design.modules }
    ensures exact { IfOk result (λ key. key ≡ key_of design.now.design.modules «module» script.now) }
    ensures accepted { IsReadable design.now.design → IfOk result IsAcceptedKey }
{
    let table = KeyTable::of(alloc, design.design())?;
    key_by(alloc, design, &table, module, script)
}

/// The key of the module at this place of the design, under the script, by the table of the design's modules.
pub fn key_by(
    alloc: Global,
    design: &Checked,
    table: &KeyTable,
    module: u32,
    script: &Script,
) -> Result<Key, Memory>
    requires in_range { «module» < length design.now.design.modules }
    requires table { table.now.modules.now ≡ design.now.design.modules }
    ensures exact { IfOk result (λ key. key ≡ key_of design.now.design.modules «module» script.now) }
    ensures accepted { IsReadable design.now.design → IfOk result IsAcceptedKey }
{
    key_in(alloc, design.design(), table, module, script)
}

/// The key of the module at this place of any design, by the table of its modules.
fn key_in(
    alloc: Global,
    design: &Design,
    table: &KeyTable,
    module: u32,
    script: &Script,
) -> Result<Key, Memory>
    requires in_range { «module» < length design.now.modules }
    requires table { table.now.modules.now ≡ design.now.modules }
    ensures exact { IfOk result (λ key. key ≡ key_of design.now.modules «module» script.now) }
{
    let body = body_text(alloc, &design.modules.as_slice()[module as usize])?;
    let ports = ports_text(alloc, &table.ports_of(alloc, module)?)?;
    let below = below_text(alloc, table, module, script)?;
    Key::of(
        alloc,
        body.as_slice(),
        ports.as_slice(),
        below.as_slice(),
        script.copy()?,
    )
}

/// The text of the modules that the module at this place reaches, where the script flattens, else no text.
pub fn below_text(
    alloc: Global,
    table: &KeyTable,
    module: u32,
    script: &Script,
) -> Result<Text, Memory>
    requires in_range { «module» < length table.now.modules.now }
    ensures exact { IfOk result (λ text. text ≡ below_text_at script.now table.now.modules.now «module») }
{
    if script.flattens() {
        modules_text(alloc, table.reached(alloc, module)?.as_slice())
    } else {
        Ok(Text::make(alloc))
    }
}

/// The text of these modules, one after another.
fn modules_text(alloc: Global, modules: &[&Module]) -> Result<Text, Memory>
    ensures exact { IfOk result (λ text. text ≡ text_of (record { modules = map (λ m. m.now) modules.now })) }
{
    let mut out = Text::make(alloc);
    for module in modules {
        out.extend(module_text(alloc, module)?.as_slice())?;
    }
    Ok(out)
}

/// Appends how long a part is, and the part: where that stands, whatever comes after it.
#[tactic(auto, unfolding(crate::specs::Keys::part_text))]
fn put_part(out: &mut Vec<u8>, part: &[u8]) -> Result<Span, Memory>
    ensures text { OnOk result (out.new.items ≡ out.old.items ++ part_text part.now) }
    ensures there { IfOk result (λ span. (rest : List ℕ) → IsThere span (out.new.items ++ rest) part.now) }
{
    let length = part.len() as u64;
    let digits = length.to_string(*out.allocator())?;
    out.extend_from_slice(digits.as_bytes())?;
    out.push(b' ')?;
    let from = out.len();
    out.extend_from_slice(part)?;
    Ok(Span {
        from,
        to: out.len(),
    })
}

/// Appends the letters of the words.
fn put_words(out: &mut Vec<u8>, words: &[Word]) -> Result<(), Memory>
    ensures ok { OnOk result (out.new.items ≡ out.old.items ++ map letter_of words.now) }
{
    for word in words {
        out.push(word.letter())?;
    }
    Ok(())
}

/// A text, which is shorter than 2^64: so the lengths in it can be told from one another.
fn whole(text: &Text) -> &Text
    ensures value { result.now ≡ text.now }
    ensures short { length result.now < 2 ^ 64 }
{
    let _length = text.as_slice().len();
    text
}

/// The room for a part with its length before it.
fn room_of(part: &[u8]) -> usize {
    let digits = part.len().checked_ilog10().unwrap_or(0).saturating_add(1);
    part.len().saturating_add(digits as usize).saturating_add(1)
}

/// The room for a text of the parts and the words.
fn room_for(body: &[u8], ports: &[u8], below: &[u8], words: &[Word]) -> usize {
    let parts = room_of(body).saturating_add(room_of(ports));
    let rest = room_of(below).saturating_add(words.len());
    parts.saturating_add(rest)
}

impl Key {
    /// The key of these parts.
    #[tactic(auto, using(crate::proofs::KeyLemmas::parts_are))]
    fn of(
        alloc: Global,
        body: &[u8],
        ports: &[u8],
        below: &[u8],
        script: Script,
    ) -> Result<Key, Memory>
        ensures exact { IfOk result (λ key. key ≡
            record { body = body.now; ports = ports.now; script = script; below = below.now }) }
    {
        let room = room_for(body, ports, below, script.as_slice());
        let mut out = Vec::with_capacity(alloc, room)?;
        let body = put_part(&mut out, body)?;
        let ports = put_part(&mut out, ports)?;
        let below = put_part(&mut out, below)?;
        put_words(&mut out, script.as_slice())?;
        Ok(Key {
            text: Text::from_vec(out)?,
            body,
            ports,
            below,
            script,
        })
    }

    /// The text of the module without its name.
    pub fn body(&self) -> &[u8]
        ensures value { result.now ≡ self.now.body }
    {
        &self.text.as_slice()[self.body.from..self.body.to]
    }

    /// The text of the ports of the modules that the module instantiates.
    pub fn ports(&self) -> &[u8]
        ensures value { result.now ≡ self.now.ports }
    {
        &self.text.as_slice()[self.ports.from..self.ports.to]
    }

    /// The text of the modules that the module reaches, where the script flattens, else no text.
    pub fn below(&self) -> &[u8]
        ensures value { result.now ≡ self.now.below }
    {
        &self.text.as_slice()[self.below.from..self.below.to]
    }

    /// The script.
    pub fn script(&self) -> &Script
        ensures value { result.now ≡ self.now.script }
    {
        &self.script
    }

    /// The key as one text, which no other key has. The key shares it.
    #[tactic(auto, using(crate::proofs::KeyLemmas::key_once))]
    pub fn text(&self) -> Result<Text, Memory>
        ensures exact { IfOk result (λ text. text ≡ key_text self.now) }
        ensures only { IfOk result (λ text. (other : KeyParts) → key_text other ≡ text → other ≡ self.now) }
    {
        whole(&self.text).copy()
    }
}
