//! The options of wires and memories.

ghost use Rattle.std.specs.Prelude.{◌≡◌};
ghost use Rattle.rtl_lex.specs.Items.{as_seen};
ghost use Rattle.rtl_read.specs.Gives.{Gives, Sets};
ghost use Rattle.rtl_read.specs.Meaning.Wire.{
  some_width,
  plain_wire,
  plain_store,
  with_option,
  with_width,
  with_offset,
  with_number,
  store_width,
  store_size,
  store_offset,
};

use crate::constant::integer;
use crate::read_fault::ReadFault;
use rtl_bits::{Seq, Text};
use rtl_ir::limits::MAX_WIDTH;
use rtl_ir::{Attribute, Role, Store, Wire};
use rtl_lex::{Item, Sort};
use std::alloc::Global;

/// A width is at least 1.
fn some_width(item: &Item<'_>) -> Result<u32, ReadFault>
    ensures { Gives result (some_width item.now.number (as_seen item.now)) }
{
    match item.number {
        Some(number) if number > 0 => Ok(number.unsigned_abs()),
        _ => Err(ReadFault::Int(item.place)),
    }
}

/// A wire without options.
pub(crate) fn plain_wire(alloc: Global, attributes: Seq<Attribute>) -> Wire
    ensures { result ≡ plain_wire attributes }
{
    Wire {
        name: Text::make(alloc),
        width: 1,
        offset: 0,
        upto: false,
        signed: false,
        role: Role::Inner,
        number: 0,
        attributes,
    }
}

/// A memory without options.
pub(crate) fn plain_store(alloc: Global, attributes: Seq<Attribute>) -> Store
    ensures { result ≡ plain_store attributes }
{
    Store {
        name: Text::make(alloc),
        width: 1,
        size: 0,
        offset: 0,
        attributes,
    }
}

/// The word of an option of a wire.
pub(crate) fn set_option(wire: &mut Wire, sort: Sort)
    ensures { wire.new ≡ with_option sort wire.old }
{
    match sort {
        Sort::Input => wire.role = Role::Input,
        Sort::Output => wire.role = Role::Output,
        Sort::Inout => wire.role = Role::Inout,
        Sort::Upto => wire.upto = true,
        Sort::Signed => wire.signed = true,
        _ => {}
    }
}

/// The number of `width` of a wire.
pub(crate) fn set_width(wire: &mut Wire, item: &Item<'_>) -> Result<(), ReadFault>
    ensures { Sets result wire.new (with_width (as_seen item.now) wire.old) }
{
    match some_width(item) {
        Ok(width) if width > MAX_WIDTH => Err(ReadFault::Limit(item.place)),
        Ok(width) => {
            wire.width = width;
            Ok(())
        }
        Err(fault) => Err(fault),
    }
}

/// The number of `offset` of a wire.
pub(crate) fn set_offset(wire: &mut Wire, item: &Item<'_>) -> Result<(), ReadFault>
    ensures { Sets result wire.new (with_offset (as_seen item.now) wire.old) }
{
    match integer(item) {
        Ok(number) => {
            wire.offset = number;
            Ok(())
        }
        Err(fault) => Err(fault),
    }
}

/// The number of a port.
pub(crate) fn set_number(wire: &mut Wire, item: &Item<'_>) -> Result<(), ReadFault>
    ensures { Sets result wire.new (with_number (as_seen item.now) wire.old) }
{
    match integer(item) {
        Ok(number) => {
            wire.number = number;
            Ok(())
        }
        Err(fault) => Err(fault),
    }
}

/// The number of `width` of a memory.
pub(crate) fn set_store_width(store: &mut Store, item: &Item<'_>) -> Result<(), ReadFault>
    ensures { Sets result store.new (store_width (as_seen item.now) store.old) }
{
    match some_width(item) {
        Ok(width) => {
            store.width = width;
            Ok(())
        }
        Err(fault) => Err(fault),
    }
}

/// The number of `size` of a memory.
pub(crate) fn set_store_size(store: &mut Store, item: &Item<'_>) -> Result<(), ReadFault>
    ensures { Sets result store.new (store_size (as_seen item.now) store.old) }
{
    match integer(item) {
        Ok(number) => {
            store.size = number;
            Ok(())
        }
        Err(fault) => Err(fault),
    }
}

/// The number of `offset` of a memory.
pub(crate) fn set_store_offset(store: &mut Store, item: &Item<'_>) -> Result<(), ReadFault>
    ensures { Sets result store.new (store_offset (as_seen item.now) store.old) }
{
    match integer(item) {
        Ok(number) => {
            store.offset = number;
            Ok(())
        }
        Err(fault) => Err(fault),
    }
}
