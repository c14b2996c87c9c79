//! Builds.

ghost use Rattle.std.specs.Prelude.{◌≡◌, ◌<◌, IfOk, Some, length, map, slice_get};
ghost use Rattle.rtl_bits.specs.Counts.{risen};
ghost use Rattle.rtl_ir.specs.declared.module.Design.{Design};
ghost use Rattle.rtl_ir.specs.declared.module.Module.{Module};
ghost use Rattle.rtl_ir.specs.declared.ports.PortTable.{PortTable};
ghost use Rattle.rtl_write.specs.Ports.{ports_text};
ghost use Rattle.rtl_write.specs.PortTables.{ArePorts};
ghost use Rattle.rtl_readable.specs.Readable.{IsReadable, IsReadableModule};
ghost use Rattle.rtl_write.specs.Text.{body_text, text_of};
ghost use Rattle.script_core.specs.Built.{IsAcceptedKey, IsValueOf, unnamed};
ghost use Rattle.rtl_ir.specs.Ports.{cells_at};
ghost use Rattle.script_core.specs.Keys.{key_of};
ghost use Rattle.script_core.specs.Reached.{below_of};

use crate::built::Built;
use crate::fold::fold;
use crate::key::Key;
use crate::key_table::KeyTable;
use crate::outcome::Outcome;
use crate::script::Script;
use rtl_bits::{Copied, Memory, Seq, Steps, Text};
use rtl_check::Checked;
use rtl_ir::{Design, Module, PortTable};
use rtl_read::read;
use rtl_write::{read_body, read_ports};
use std::alloc::Global;

/// The name that a module has while it is built, since a body has none.
const BODY_NAME: &[u8] = b"\\m";

/// The module of this body.
fn module_of(alloc: Global, body: &[u8]) -> Result<Module, Memory>
    ensures round_trip { («module» : Module) → IsReadableModule «module» → body.now ≡ body_text «module» →
        IfOk result (λ read. read ≡ unnamed «module») }
{
    read_body(alloc, body, BODY_NAME)
}

/// The ports of this text.
fn ports_of(alloc: Global, ports: &[u8]) -> Result<PortTable, Memory>
    ensures round_trip { IfOk result (λ read. (table : PortTable) → ArePorts table → ports.now ≡ ports_text table →
        read ≡ table) }
{
    read_ports(alloc, ports)
}

/// The modules of this text. A text that gives none, which no accepted key has, is taken for want of memory.
fn modules_of(alloc: Global, below: &[u8]) -> Result<Design, Memory>
    ensures round_trip { (design : Design) → IsReadable design → below.now ≡ text_of design →
        IfOk result (λ read. read ≡ design) }
{
    match read(alloc, below) {
        Ok(design) => Ok(design),
        Err(_) => Err(Memory),
    }
}

/// What the passes of the key's script make of the key's module.
fn outcome_of(alloc: Global, key: &Key) -> Result<Outcome, Memory>
    requires accepted { IsAcceptedKey key.now }
    ensures value { IfOk result (λ outcome. IsValueOf key.now outcome) }
{
    let module = module_of(alloc, key.body())?;
    let ports = ports_of(alloc, key.ports())?;
    let below = modules_of(alloc, key.below())?;
    fold(alloc, key.script(), module, &ports, &below)
}

/// Builds the key: its module, read of its texts, is given to the passes of its script, in order. The module
/// of the outcome has no name of its own yet: it is named `\m`. Each call, whatever it answers, is one step.
pub fn build<L>(alloc: Global, key: &Key, meter: &mut Steps<L>) -> Result<Built, Memory>
    requires accepted { IsAcceptedKey key.now }
    ensures key { IfOk result (λ built. built.key ≡ key.now) }
    ensures value { IfOk result (λ built. IsValueOf key.now built.outcome) }
    ensures one_tick { meter.new ≡ risen meter.old 1 }
{
    meter.tick();
    let outcome = outcome_of(alloc, key)?;
    Ok(Built::make(key.copy()?, outcome))
}

/// A copy of the module at this place, under the name that a body is read with.
fn body_at(alloc: Global, design: &Checked, module: u32) -> Result<Module, Memory>
    requires in_range { «module» < length design.now.design.modules }
    ensures value { IfOk result (λ body. (m : Module) →
        slice_get design.now.design.modules «module» ≡ Some m → body ≡ unnamed m) }
{
    let mut body = design.design().modules.as_slice()[module as usize].copy()?;
    body.id = Text::from_slice(alloc, BODY_NAME)?;
    Ok(body)
}

/// Copies of these modules.
fn copies(alloc: Global, modules: &[&Module]) -> Result<Design, Memory>
    ensures value { IfOk result (λ copies. copies.modules ≡ map (λ m. m.now) modules.now) }
{
    let mut all = Seq::make(alloc);
    for module in modules {
        all.push(module.copy()?)?;
    }
    Ok(Design { modules: all })
}

/// Copies of the modules that the module at this place reaches, where the script flattens, else none.
fn below_at(alloc: Global, table: &KeyTable, module: u32, script: &Script) -> Result<Design, Memory>
    requires in_range { «module» < length table.now.modules.now }
    ensures value { IfOk result (λ below. below.modules ≡
        below_of script.now table.now.modules.now (cells_at table.now.modules.now «module»)) }
{
    if script.flattens() {
        copies(alloc, table.reached(alloc, module)?.as_slice())
    } else {
        copies(alloc, &[])
    }
}

/// What the passes of the script make of the module at this place.
fn outcome_at(
    alloc: Global,
    design: &Checked,
    table: &KeyTable,
    module: u32,
    script: &Script,
) -> Result<Outcome, Memory>
    requires in_range { «module» < length design.now.design.modules }
    requires readable { IsReadable design.now.design }
    requires table { table.now.modules.now ≡ design.now.design.modules }
    ensures value { IfOk result (λ outcome.
        IsValueOf (key_of design.now.design.modules «module» script.now) outcome) }
{
    let body = body_at(alloc, design, module)?;
    let ports = table.ports_of(alloc, module)?;
    let below = below_at(alloc, table, module, script)?;
    fold(alloc, script, body, &ports, &below)
}

/// Builds a key, which is that of the module at this place of the design. The module is copied, and no text of it is
/// read. Each call, whatever it answers, is one step, as of `build`.
pub fn build_by<L>(
    alloc: Global,
    design: &Checked,
    table: &KeyTable,
    module: u32,
    key: &Key,
    meter: &mut Steps<L>,
) -> Result<Built, Memory>
    requires in_range { «module» < length design.now.design.modules }
    requires readable { IsReadable design.now.design }
    requires table { table.now.modules.now ≡ design.now.design.modules }
    requires key { key.now ≡ key_of design.now.design.modules «module» key.now.script }
    ensures key { IfOk result (λ built. built.key ≡ key.now) }
    ensures value { IfOk result (λ built. IsValueOf key.now built.outcome) }
    ensures one_tick { meter.new ≡ risen meter.old 1 }
{
    meter.tick();
    let outcome = outcome_at(alloc, design, table, module, key.script())?;
    Ok(Built::make(key.copy()?, outcome))
}
