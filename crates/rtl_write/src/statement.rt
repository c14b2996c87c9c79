//! Statements: attributes, parameters, wires, memories, cells, connections.

ghost use Rattle.std.specs.Prelude.{◌≡◌, ◌++◌, OnOk};
ghost use Rattle.std.specs.List.{flat_map};
ghost use Rattle.rtl_write.specs.Text.{
  indent,
  attribute_text,
  attributes_text,
  parameter_text,
  width_option,
  size_option,
  offset_option,
  upto_option,
  signed_option,
  role_option,
  wire_options,
  wire_text,
  store_text,
  cell_param_head,
  cell_param_text,
  pin_head,
  pin_text,
  cell_text,
  link_text,
};

use crate::constant::{put_integer, put_number, put_value};
use crate::signal::put_signal;
use rtl_bits::{Memory, Text};
use rtl_ir::{Attribute, Cell, CellParam, Link, Parameter, Pin, Role, Store, Wire};

/// Writes two blanks for each level.
#[tactic(auto, unfolding(crate::specs::Text::indent))]
pub fn put_indent(out: &mut Text, depth: u32) -> Result<(), Memory>
    ensures ok { OnOk result (out.new ≡ out.old ++ indent depth) }
{
    for _ in 0..2 * u64::from(depth) {
        out.push(b' ')?;
    }
    Ok(())
}

#[tactic(auto, unfolding(crate::specs::Text::attribute_text))]
fn put_attribute(out: &mut Text, blanks: &[u8], attribute: &Attribute) -> Result<(), Memory>
    ensures ok { OnOk result (out.new ≡ out.old ++ attribute_text blanks.now attribute.now) }
{
    out.extend(blanks)?;
    out.extend(b"attribute ")?;
    out.extend(attribute.name.as_slice())?;
    out.push(b' ')?;
    put_value(out, &attribute.value)?;
    out.push(b'\n')
}

/// Writes the attributes of an item behind its blanks.
pub fn put_attributes(out: &mut Text, blanks: &[u8], attributes: &[Attribute]) -> Result<(), Memory>
    ensures ok { OnOk result (out.new ≡ out.old ++ attributes_text blanks.now attributes.now) }
{
    for attribute in attributes {
        put_attribute(out, blanks, attribute)?;
    }
    Ok(())
}

/// Writes a parameter of a module.
#[tactic(auto, unfolding(crate::specs::Text::parameter_text))]
pub fn put_parameter(out: &mut Text, parameter: &Parameter) -> Result<(), Memory>
    ensures ok { OnOk result (out.new ≡ out.old ++ parameter_text parameter.now) }
{
    out.extend(b"  parameter ")?;
    out.extend(parameter.name.as_slice())?;
    if let Some(value) = &parameter.value {
        out.push(b' ')?;
        put_value(out, value)?;
    }
    out.push(b'\n')
}

#[tactic(auto, unfolding(crate::specs::Text::width_option))]
fn put_width(out: &mut Text, width: u32) -> Result<(), Memory>
    ensures ok { OnOk result (out.new ≡ out.old ++ width_option width) }
{
    if width == 1 {
        return Ok(());
    }
    out.extend(b" width ")?;
    put_number(out, u64::from(width))
}

#[tactic(auto, unfolding(crate::specs::Text::size_option))]
fn put_size(out: &mut Text, size: i32) -> Result<(), Memory>
    ensures ok { OnOk result (out.new ≡ out.old ++ size_option size) }
{
    if size == 0 {
        return Ok(());
    }
    out.extend(b" size ")?;
    put_integer(out, size)
}

#[tactic(auto, unfolding(crate::specs::Text::offset_option))]
fn put_offset(out: &mut Text, offset: i32) -> Result<(), Memory>
    ensures ok { OnOk result (out.new ≡ out.old ++ offset_option offset) }
{
    if offset == 0 {
        return Ok(());
    }
    out.extend(b" offset ")?;
    put_integer(out, offset)
}

#[tactic(auto, unfolding(crate::specs::Text::upto_option))]
fn put_upto(out: &mut Text, upto: bool) -> Result<(), Memory>
    ensures ok { OnOk result (out.new ≡ out.old ++ upto_option upto) }
{
    if upto { out.extend(b" upto") } else { Ok(()) }
}

#[tactic(auto, unfolding(crate::specs::Text::signed_option))]
fn put_signed(out: &mut Text, signed: bool) -> Result<(), Memory>
    ensures ok { OnOk result (out.new ≡ out.old ++ signed_option signed) }
{
    if signed {
        out.extend(b" signed")
    } else {
        Ok(())
    }
}

#[tactic(auto, unfolding(crate::specs::Text::role_option))]
fn put_role(out: &mut Text, role: Role, number: i32) -> Result<(), Memory>
    ensures ok { OnOk result (out.new ≡ out.old ++ role_option role number) }
{
    match role {
        Role::Inner => return Ok(()),
        Role::Input => out.extend(b" input ")?,
        Role::Output => out.extend(b" output ")?,
        Role::Inout => out.extend(b" inout ")?,
    }
    put_integer(out, number)
}

#[tactic(auto, unfolding(crate::specs::Text::wire_options))]
fn put_wire_options(out: &mut Text, wire: &Wire) -> Result<(), Memory>
    ensures ok { OnOk result (out.new ≡ out.old ++ wire_options wire.now) }
{
    put_width(out, wire.width)?;
    put_upto(out, wire.upto)?;
    put_offset(out, wire.offset)?;
    put_role(out, wire.role, wire.number)?;
    put_signed(out, wire.signed)
}

/// Writes a wire.
#[tactic(auto, unfolding(crate::specs::Text::wire_text))]
pub fn put_wire(out: &mut Text, wire: &Wire) -> Result<(), Memory>
    ensures ok { OnOk result (out.new ≡ out.old ++ wire_text wire.now) }
{
    put_attributes(out, b"  ", wire.attributes.as_slice())?;
    out.extend(b"  wire")?;
    put_wire_options(out, wire)?;
    out.push(b' ')?;
    out.extend(wire.name.as_slice())?;
    out.push(b'\n')
}

/// Writes a memory.
#[tactic(auto, unfolding(crate::specs::Text::store_text))]
pub fn put_store(out: &mut Text, store: &Store) -> Result<(), Memory>
    ensures ok { OnOk result (out.new ≡ out.old ++ store_text store.now) }
{
    put_attributes(out, b"  ", store.attributes.as_slice())?;
    out.extend(b"  memory")?;
    put_width(out, store.width)?;
    put_size(out, store.size)?;
    put_offset(out, store.offset)?;
    out.push(b' ')?;
    out.extend(store.name.as_slice())?;
    out.push(b'\n')
}

#[tactic(auto, unfolding(crate::specs::Text::cell_param_head))]
fn put_cell_param_head(out: &mut Text, signed: bool) -> Result<(), Memory>
    ensures ok { OnOk result (out.new ≡ out.old ++ cell_param_head signed) }
{
    put_indent(out, 2)?;
    out.extend(b"parameter")?;
    put_signed(out, signed)
}

#[tactic(auto, unfolding(crate::specs::Text::cell_param_text))]
fn put_cell_param(out: &mut Text, param: &CellParam) -> Result<(), Memory>
    ensures ok { OnOk result (out.new ≡ out.old ++ cell_param_text param.now) }
{
    put_cell_param_head(out, param.signed)?;
    out.push(b' ')?;
    out.extend(param.name.as_slice())?;
    out.push(b' ')?;
    put_value(out, &param.value)?;
    out.push(b'\n')
}

fn put_cell_params(out: &mut Text, params: &[CellParam]) -> Result<(), Memory>
    ensures ok { OnOk result (out.new ≡ out.old ++ flat_map cell_param_text params.now) }
{
    for param in params {
        put_cell_param(out, param)?;
    }
    Ok(())
}

#[tactic(auto, unfolding(crate::specs::Text::pin_head))]
fn put_pin_head(out: &mut Text, name: &[u8]) -> Result<(), Memory>
    ensures ok { OnOk result (out.new ≡ out.old ++ pin_head name.now) }
{
    put_indent(out, 2)?;
    out.extend(b"connect ")?;
    out.extend(name)
}

#[tactic(auto, unfolding(crate::specs::Text::pin_text))]
fn put_pin(out: &mut Text, wires: &[Wire], pin: &Pin) -> Result<(), Memory>
    ensures ok { OnOk result (out.new ≡ out.old ++ pin_text wires.now pin.now) }
{
    put_pin_head(out, pin.name.as_slice())?;
    out.push(b' ')?;
    put_signal(out, wires, pin.sig.as_slice())?;
    out.push(b'\n')
}

fn put_pins(out: &mut Text, wires: &[Wire], pins: &[Pin]) -> Result<(), Memory>
    ensures ok { OnOk result (out.new ≡ out.old ++ flat_map (pin_text wires.now) pins.now) }
{
    for pin in pins {
        put_pin(out, wires, pin)?;
    }
    Ok(())
}

/// Writes a cell over the wires of its module.
#[tactic(auto, unfolding(crate::specs::Text::cell_text))]
pub fn put_cell(out: &mut Text, wires: &[Wire], cell: &Cell) -> Result<(), Memory>
    ensures ok { OnOk result (out.new ≡ out.old ++ cell_text wires.now cell.now) }
{
    put_attributes(out, b"  ", cell.attributes.as_slice())?;
    out.extend(b"  cell ")?;
    out.extend(cell.kind_name.as_slice())?;
    out.push(b' ')?;
    out.extend(cell.name.as_slice())?;
    out.push(b'\n')?;
    put_cell_params(out, cell.params.as_slice())?;
    put_pins(out, wires, cell.pins.as_slice())?;
    out.extend(b"  end\n")
}

/// Writes a connection over the wires of its module.
#[tactic(auto, unfolding(crate::specs::Text::link_text))]
pub fn put_link(out: &mut Text, wires: &[Wire], link: &Link) -> Result<(), Memory>
    ensures ok { OnOk result (out.new ≡ out.old ++ link_text wires.now link.now) }
{
    out.extend(b"  connect ")?;
    put_signal(out, wires, link.left.as_slice())?;
    out.push(b' ')?;
    put_signal(out, wires, link.right.as_slice())?;
    out.push(b'\n')
}
