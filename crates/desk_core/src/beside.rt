//! The results beside the modules of a design that changes.

ghost use Rattle.std.specs.Prelude.{◌≡◌, ◌<◌, ◌≤◌, ◌-◌, ◌++◌, ℕ, List, None, IfOk, IfSome, IsTrue, OnOk, length};
ghost use Rattle.std.specs.Prelude.{replicate};
ghost use Rattle.rtl_ir.specs.Ports.{port_table_of};
ghost use Rattle.rtl_ir.specs.declared.module.Module.{Module};
ghost use Rattle.rtl_readable.specs.Readable.{IsReadable};
ghost use Rattle.rtl_write.specs.Ports.{ports_text};
ghost use Rattle.design_edit.specs.Modules.{has_module};
ghost use Rattle.design_edit.specs.Table.{ArePlaces};
ghost use Rattle.script_core.specs.Keys.{below_text_at};
ghost use Rattle.desk_core.specs.Beside.{AreSeen, SeesOwn, unedited, unless_edited};

use crate::kept::Kept;
use design_edit::{Places, places_of};
use result_cache::Keyed;
use rtl_bits::{Memory, Text};
use rtl_check::Checked;
use rtl_ir::Module;
use rtl_write::ports_text;
use script_core::{KeyTable, below_text};
use std::alloc::Global;

/// Whether a module of this name is among the edits.
fn is_edited(edits: &Places, name: &[u8]) -> bool
    ensures value { (modules : List Module) → ArePlaces edits.now modules → result ≡ has_module modules name.now }
{
    edits.get(name).is_some()
}

/// The result of a module, for one more that holds it, unless one of these edits has the module's name.
fn unless_edited(
    edits: &Places,
    module: &Module,
    found: &Option<Kept>,
) -> Result<Option<Kept>, Memory>
    ensures value { IfOk result (λ kept. (modules : List Module) → ArePlaces edits.now modules →
        kept ≡ unless_edited modules «module».now found.now) }
{
    if is_edited(edits, module.id.as_slice()) {
        return Ok(None);
    }
    match found {
        Some(kept) => Ok(Some(kept.share()?)),
        None => Ok(None),
    }
}

/// The results beside modules, for one more that holds them, but of those modules that are edited.
#[tactic(auto, using(crate::proofs::Staying::unedited_next))]
pub fn unedited(
    alloc: Global,
    edits: &[Module],
    modules: &[Module],
    found: &[Option<Kept>],
) -> Result<Vec<Option<Kept>>, Memory>
    ensures value { IfOk result (λ rest. rest.items ≡ unedited edits.now modules.now found.now) }
{
    let places = places_of(alloc, edits)?;
    let mut rest = Vec::with_capacity(alloc, found.len())?;
    for at in 0..modules.len().min(found.len()) {
        rest.push(unless_edited(&places, &modules[at], &found[at])?)?;
    }
    Ok(rest)
}

/// Puts nothing beside further modules, so that there are so many.
pub fn fill_up(found: &mut Vec<Option<Kept>>, count: usize) -> Result<(), Memory>
    requires few { length found.old.items ≤ count }
    ensures ok { OnOk result (found.new.items ≡ found.old.items ++ replicate (count - length found.old.items) None) }
{
    for _at in 0..count - found.len() {
        found.push(None)?;
    }
    Ok(())
}

/// The text of the ports that the module at this place of a design sees.
fn ports_seen(alloc: Global, table: &KeyTable, at: u32) -> Result<Text, Memory>
    requires in_range { at < length table.now.modules.now }
    ensures value { IfOk result (λ text. text ≡
        ports_text (record { modules = port_table_of table.now.modules.now at })) }
{
    let ports = table.ports_of(alloc, at)?;
    ports_text(alloc, &ports)
}

/// Whether the module at this place sees the ports that are in the key of the result. Without memory to look it is
/// taken for one that does not.
fn sees_ports(alloc: Global, table: &KeyTable, at: u32, kept: &Kept) -> bool
    requires in_range { at < length table.now.modules.now }
    ensures own { IsTrue result →
        kept.now.key.ports ≡ ports_text (record { modules = port_table_of table.now.modules.now at }) }
{
    match ports_seen(alloc, table, at) {
        Ok(text) => text.as_slice() == kept.built().key().ports(),
        Err(Memory) => false,
    }
}

/// Whether the module at this place reaches the modules that are in the key of the result. Without memory to look it is
/// taken for one that does not.
fn reaches_own(alloc: Global, table: &KeyTable, at: u32, kept: &Kept) -> bool
    requires in_range { at < length table.now.modules.now }
    ensures own { IsTrue result → kept.now.key.below ≡ below_text_at kept.now.key.script table.now.modules.now at }
{
    let key = kept.built().key();
    match below_text(alloc, table, at, key.script()) {
        Ok(text) => text.as_slice() == key.below(),
        Err(Memory) => false,
    }
}

/// Whether the module at this place sees what is in the key of the result. Where there was no memory for the table it
/// is taken for one that does not.
fn sees_own(alloc: Global, table: &Option<KeyTable>, at: u32, kept: &Kept) -> bool
    requires in_range { IfSome table.now (λ known. at < length known.modules.now) }
    ensures own { (modules : List Module) → IfSome table.now (λ known. known.modules.now ≡ modules) → IsTrue result →
        SeesOwn modules at kept.now }
{
    match table {
        Some(table) => sees_ports(alloc, table, at, kept) && reaches_own(alloc, table, at, kept),
        None => false,
    }
}

/// Whether there is no result, or its module sees what is in its key.
fn stays(alloc: Global, table: &Option<KeyTable>, at: u32, found: &Option<Kept>) -> bool
    requires in_range { IfSome table.now (λ known. at < length known.modules.now) }
    ensures own { (modules : List Module) → IfSome table.now (λ known. known.modules.now ≡ modules) → IsTrue result →
        IfSome found.now (SeesOwn modules at) }
{
    match found {
        Some(kept) => sees_own(alloc, table, at, kept),
        None => true,
    }
}

/// Lets go of the results beside modules that see other ports than those in their keys, or reach other modules. Without
/// memory to look, of more.
#[tactic(auto, using(crate::proofs::Staying::seen_none))]
pub fn let_go_unseen(alloc: Global, design: &Checked, found: &mut Vec<Option<Kept>>)
    requires readable { IsReadable design.now.design }
    requires beside { length found.old.items ≡ length design.now.design.modules }
    ensures seen { AreSeen design.now.design.modules found.old.items found.new.items }
{
    let table = KeyTable::of(alloc, design.design()).ok();
    for at in 0..found.len() {
        if !stays(alloc, &table, at as u32, &found[at]) {
            found[at] = None;
        }
    }
}
