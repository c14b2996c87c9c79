//! How many numbers of write ports of each memory are taken.

ghost use Rattle.std.specs.Prelude.{◌≡◌, ◌+◌, ◌&&◌, ℕ, List, IfOk, OnOk, if◌then◌else◌, max};
ghost use Rattle.cell_types.specs.Given.{number_in};
ghost use Rattle.cell_types.specs.declared.param_name.ParamName.TheVariants as param;
ghost use Rattle.rtl_ir.specs.Flat.Access.{cell_accesses, next_number};
ghost use Rattle.rtl_ir.specs.Parameters.{given_params, memory_name};
ghost use Rattle.rtl_ir.specs.WritePorts.{is_of_memory, is_write_cell};
ghost use Rattle.proc_sync.specs.Counts.{count_at};

use rtl_bits::Memory;
use rtl_ir::{Cell, is_write_cell, memory_name, port_number};
use std::alloc::Global;
use std::collections::HashMap;

/// By the name of a memory, the number behind those of its write ports.
pub(crate) type Counts<'a> = HashMap<&'a [u8], u32>;

/// The number behind those of the memory's write ports, 0 where it has none.
pub(crate) fn count_of(counts: &Counts<'_>, memory: &[u8]) -> u32
    ensures value { result ≡ count_at counts.now memory.now }
{
    counts.get(memory).copied().unwrap_or(0)
}

/// The numbers behind those of the write cells, memory by memory.
pub(crate) fn counts_of<'a>(alloc: Global, cells: &'a [Cell]) -> Result<Counts<'a>, Memory>
    ensures value { IfOk result (λ counts. (name : List ℕ) →
        count_at counts name ≡ next_number (cell_accesses name cells.now)) }
{
    let mut counts = HashMap::new(alloc);
    for at in (0..cells.len()).rev() {
        put_cell(alloc, &mut counts, &cells[at])?;
    }
    Ok(counts)
}

/// The cell goes before the others. A number of 2^31 or more is taken for want of memory.
fn put_cell<'a>(alloc: Global, counts: &mut Counts<'a>, cell: &'a Cell) -> Result<(), Memory>
    ensures ok { OnOk result ((name : List ℕ) → count_at counts.new name ≡
        (if is_write_cell cell.now.kind_name && is_of_memory name cell.now
        then max (number_in (given_params cell.now.params) param.Portid + 1) (count_at counts.old name)
        else count_at counts.old name)) }
{
    if !is_write_cell(cell.kind_name.as_slice()) {
        return Ok(());
    }
    match memory_name(cell.params.as_slice()) {
        None => Ok(()),
        Some(memory) => {
            let number = port_number(alloc, cell.params.as_slice())?;
            let next = (number + 1).max(count_of(counts, memory));
            counts.insert(memory, next)?;
            Ok(())
        }
    }
}
