//! State wires in their order.

ghost use Rattle.std.specs.Prelude.{◌≡◌, [], IfOk, IfSome, None};
ghost use Rattle.rtl_ir.specs.Types.{table_ports};
ghost use Rattle.fsm_steps.specs.Search.{HasNone, IsNext};

use fsm_find::Finder;
use rtl_bits::Memory;
use rtl_ir::{Machine, Module, PortTable};
use std::alloc::Global;

/// A wire that holds the state of a machine, and the machine.
#[derive(Drop)]
pub(crate) struct Found {
    pub wire: u32,
    pub machine: Machine,
}

/// A place of a list as a number. One of 2^32 or more is taken for want of memory.
pub(crate) fn place_number(at: usize) -> Result<u32, Memory>
    ensures value { IfOk result (λ number. number ≡ at) }
{
    match u32::try_from(at) {
        Ok(number) => Ok(number),
        Err(_) => Err(Memory),
    }
}

/// The first state wire from a place on, up to another. The tables of the search are made once.
pub(crate) fn next_machine(
    alloc: Global,
    module: &Module,
    ports: &PortTable,
    from: u32,
    end: u32,
) -> Result<Option<Found>, Memory>
    requires process_free { «module».now.processes ≡ [] }
    ensures none { IfOk result (λ found. found ≡ None → HasNone (table_ports ports.now.modules) «module».now from end) }
    ensures first { IfOk result (λ found. IfSome found (λ f.
        IsNext (table_ports ports.now.modules) «module».now from end f.wire f.machine)) }
{
    let finder = Finder::of(alloc, module, ports)?;
    for wire in from..end {
        match finder.find(wire)? {
            Some(machine) => return Ok(Some(Found { wire, machine })),
            None => {}
        }
    }
    Ok(None)
}
