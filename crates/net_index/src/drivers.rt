//! What drives each bit of a module, and where its connections lead.

ghost use Rattle.std.specs.Prelude.{◌≡◌, IfOk};
ghost use Rattle.rtl_ir.specs.declared.module.Module.{Module};
ghost use Rattle.rtl_ir.specs.Drivers.{driver_in, drives_of};
ghost use Rattle.rtl_ir.specs.Follow.{follow};
ghost use Rattle.rtl_ir.specs.Types.{Ports, table_ports};
ghost use Rattle.net_index.specs.Driver.{driver_answer};
ghost use Rattle.net_index.specs.Drivers.{AreDrivers};
ghost use Rattle.net_index.specs.Types.{AreTypes};

use crate::driver::Driver;
use crate::driver_fill::drivers_of;
use crate::index_table::BitTable;
use crate::index_ways::Ways;
use crate::types::Types;
use rtl_bits::Memory;
use rtl_ir::{Module, PortTable, all_joins};
use rtl_sig::{SigBit, WireBit};
use std::alloc::Global;

/// The drivers of the bits of a module, and the ends of the ways along its connections. In the Yosys manual, "The RTL
/// Intermediate Language (RTLIL)", the section "RTLIL::Design and RTLIL::Module".
#[derive(Drop)]
pub struct Drivers {
    table: BitTable<Driver>,
    ways: Ways,
}

impl Drivers {
    /// The drivers in the module, whose cells may be instances of the modules of the table.
    pub fn of(alloc: Global, module: &Module, ports: &PortTable) -> Result<Drivers, Memory>
        ensures value { IfOk result (λ drivers. AreDrivers drivers (table_ports ports.now.modules) «module».now) }
    {
        let types = Types::of_table(alloc, ports)?;
        Drivers::by_types(alloc, module, &types)
    }

    /// The drivers in the module, of which these are the types of the cells.
    pub(crate) fn by_types(alloc: Global, module: &Module, types: &Types) -> Result<Drivers, Memory>
        ensures value { IfOk result (λ drivers. (ports : Ports) → AreTypes types.now ports →
            AreDrivers drivers ports «module».now) }
    {
        let joins = all_joins(alloc, module.links.as_slice())?;
        Ok(Drivers {
            table: drivers_of(alloc, module, types, joins.as_slice())?,
            ways: Ways::of(alloc, module.wires.as_slice(), joins.as_slice())?,
        })
    }

    /// What drives the bit. It takes no memory.
    pub fn driver(&self, bit: WireBit) -> Driver
        ensures value { (ports : Ports) (m : Module) → AreDrivers self.now ports m →
            result ≡ driver_answer (driver_in (drives_of ports m) bit) }
    {
        self.table.get(bit).unwrap_or(Driver::Nothing)
    }

    /// The first bit or constant on the way back along the connections that none of them drives, and the bit itself
    /// where the way runs into a loop. It takes no memory.
    pub fn follow(&self, bit: SigBit) -> SigBit
        ensures value { (ports : Ports) (m : Module) → AreDrivers self.now ports m → result ≡ follow m.links bit }
    {
        match bit {
            SigBit::Fixed(_) => bit,
            SigBit::Wire(start) => self.ways.end_of(start).unwrap_or(bit),
        }
    }
}
