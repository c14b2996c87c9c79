//! State wires: machines that a flip-flop holds, with the tree of multiplexers in front of it, the states and the cells
//! that compare them.
#![tactic(auto)]

mod attributes;
mod finder;
mod machine;
mod order;
mod params;
mod reach;
mod readers;
mod starts;
mod states;
mod tree;
mod view;
mod whole_drivers;

ghost use Rattle.std.specs.Prelude.{◌≡◌, [], IfOk};
ghost use Rattle.rtl_ir.specs.Types.{table_ports};
ghost use Rattle.net_model.specs.Fsm.Find.{machine_of};

pub use finder::Finder;
use rtl_bits::Memory;
use rtl_ir::{Machine, Module, PortTable};
use std::alloc::Global;

/// The machine whose state the wire at this place holds, None where it is no state wire. Where many wires are asked
/// for, a `Finder` makes its tables once for all of them. In the Yosys manual, the command `fsm_detect`, with
/// `fsm_extract`.
pub fn find(
    alloc: Global,
    module: &Module,
    ports: &PortTable,
    wire: u32,
) -> Result<Option<Machine>, Memory>
    requires process_free { «module».now.processes ≡ [] }
    ensures exact { IfOk result (λ machine. machine ≡ machine_of (table_ports ports.now.modules) «module».now wire) }
{
    Finder::of(alloc, module, ports)?.find(wire)
}
