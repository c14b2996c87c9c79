//! Modules and designs.

ghost use Rattle.std.specs.Prelude.{◌≡◌, ◌++◌, OnOk, IfOk};
ghost use Rattle.std.specs.List.{flat_map};
ghost use Rattle.rtl_write.specs.Text.{
  parameter_text,
  wire_text,
  store_text,
  cell_text,
  process_text,
  link_text,
  inner_text,
  module_text,
  body_text,
  text_of,
};

use crate::process::put_process;
use crate::statement::{put_attributes, put_cell, put_link, put_parameter, put_store, put_wire};
use rtl_bits::{Memory, Text};
use rtl_ir::{Cell, Design, Link, Module, Parameter, Process, Store, Wire};
use std::alloc::Global;

fn put_parameters(out: &mut Text, parameters: &[Parameter]) -> Result<(), Memory>
    ensures ok { OnOk result (out.new ≡ out.old ++ flat_map parameter_text parameters.now) }
{
    for parameter in parameters {
        put_parameter(out, parameter)?;
    }
    Ok(())
}

fn put_wires(out: &mut Text, wires: &[Wire]) -> Result<(), Memory>
    ensures ok { OnOk result (out.new ≡ out.old ++ flat_map wire_text wires.now) }
{
    for wire in wires {
        put_wire(out, wire)?;
    }
    Ok(())
}

fn put_stores(out: &mut Text, stores: &[Store]) -> Result<(), Memory>
    ensures ok { OnOk result (out.new ≡ out.old ++ flat_map store_text stores.now) }
{
    for store in stores {
        put_store(out, store)?;
    }
    Ok(())
}

fn put_cells(out: &mut Text, wires: &[Wire], cells: &[Cell]) -> Result<(), Memory>
    ensures ok { OnOk result (out.new ≡ out.old ++ flat_map (cell_text wires.now) cells.now) }
{
    for cell in cells {
        put_cell(out, wires, cell)?;
    }
    Ok(())
}

fn put_processes(out: &mut Text, wires: &[Wire], processes: &[Process]) -> Result<(), Memory>
    ensures ok { OnOk result (out.new ≡ out.old ++ flat_map (process_text wires.now) processes.now) }
{
    for process in processes {
        put_process(out, wires, process)?;
    }
    Ok(())
}

fn put_links(out: &mut Text, wires: &[Wire], links: &[Link]) -> Result<(), Memory>
    ensures ok { OnOk result (out.new ≡ out.old ++ flat_map (link_text wires.now) links.now) }
{
    for link in links {
        put_link(out, wires, link)?;
    }
    Ok(())
}

/// Writes what stands between the first line of a module and its end.
#[tactic(auto, unfolding(crate::specs::Text::inner_text))]
fn put_inner(out: &mut Text, module: &Module) -> Result<(), Memory>
    ensures ok { OnOk result (out.new ≡ out.old ++ inner_text «module».now) }
{
    put_parameters(out, module.parameters.as_slice())?;
    put_wires(out, module.wires.as_slice())?;
    put_stores(out, module.memories.as_slice())?;
    put_cells(out, module.wires.as_slice(), module.cells.as_slice())?;
    put_processes(out, module.wires.as_slice(), module.processes.as_slice())?;
    put_links(out, module.wires.as_slice(), module.links.as_slice())
}

/// Appends the canonical text of one module, under this name in place of its own.
#[tactic(auto, unfolding(crate::specs::Text::module_text, crate::specs::Text::inner_text))]
pub fn put_named(out: &mut Text, id: &[u8], module: &Module) -> Result<(), Memory>
    ensures ok { OnOk result (out.new ≡ out.old ++ module_text (record «module».now { id = id.now })) }
{
    put_attributes(out, b"", module.attributes.as_slice())?;
    out.extend(b"module ")?;
    out.extend(id)?;
    out.push(b'\n')?;
    put_inner(out, module)?;
    out.extend(b"end\n")
}

fn put_module(out: &mut Text, module: &Module) -> Result<(), Memory>
    ensures ok { OnOk result (out.new ≡ out.old ++ module_text «module».now) }
{
    put_named(out, module.id.as_slice(), module)
}

/// The canonical text of the design: one statement a line, two blanks a level, defaults left out.
pub fn write(alloc: Global, design: &Design) -> Result<Text, Memory>
    ensures exact { IfOk result (λ text. text ≡ text_of design.now) }
{
    let mut out = Text::make(alloc);
    for module in design.modules.as_slice() {
        put_module(&mut out, module)?;
    }
    Ok(out)
}

/// The canonical text of one module.
pub fn module_text(alloc: Global, module: &Module) -> Result<Text, Memory>
    ensures exact { IfOk result (λ text. text ≡ module_text «module».now) }
{
    let mut out = Text::make(alloc);
    put_module(&mut out, module)?;
    Ok(out)
}

/// The canonical text of one module, with its name left out of its `module` line.
#[tactic(auto, unfolding(crate::specs::Text::body_text))]
pub fn body_text(alloc: Global, module: &Module) -> Result<Text, Memory>
    ensures exact { IfOk result (λ text. text ≡ body_text «module».now) }
{
    let mut out = Text::make(alloc);
    put_attributes(&mut out, b"", module.attributes.as_slice())?;
    out.extend(b"module\n")?;
    put_inner(&mut out, module)?;
    out.extend(b"end\n")?;
    Ok(out)
}
