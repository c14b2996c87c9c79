//! The bits of a module: their numbers, what drives each, what reads it, and where connections lead from it.

ghost use Rattle.std.specs.Prelude.{◌≡◌, Some, IfOk};
ghost use Rattle.rtl_ir.specs.declared.module.Module.{Module};
ghost use Rattle.rtl_ir.specs.Drivers.{driver_in, drives_of};
ghost use Rattle.rtl_ir.specs.Follow.{follow};
ghost use Rattle.rtl_ir.specs.Types.{Ports, table_ports};
ghost use Rattle.net_index.specs.Driver.{driver_answer};
ghost use Rattle.net_index.specs.Index.{IsIndex};
ghost use Rattle.net_index.specs.Numbering.{HasBit, number_of, widths_of};
ghost use Rattle.net_index.specs.Readers.{readers_of};

use crate::driver::Driver;
use crate::drivers::Drivers;
use crate::reader::Reader;
use crate::readers::Readers;
use crate::types::Types;
use rtl_bits::Memory;
use rtl_ir::{Module, PortTable};
use rtl_sig::{SigBit, WireBit};
use std::alloc::Global;

/// The drivers and the readers of the bits of a module, and the numbers of these bits.
#[derive(Drop)]
pub struct Index {
    drivers: Drivers,
    readers: Readers,
}

impl Index {
    /// The index of the module, whose cells may be instances of the modules of the table.
    pub fn of(alloc: Global, module: &Module, ports: &PortTable) -> Result<Index, Memory>
        ensures value { IfOk result (λ index. IsIndex index (table_ports ports.now.modules) «module».now) }
    {
        let types = Types::of_table(alloc, ports)?;
        Ok(Index {
            drivers: Drivers::by_types(alloc, module, &types)?,
            readers: Readers::of(alloc, module, &types)?,
        })
    }

    /// What drives the bit. It takes no memory.
    pub fn driver(&self, bit: WireBit) -> Driver
        ensures value { (ports : Ports) (m : Module) → IsIndex self.now ports m →
            result ≡ driver_answer (driver_in (drives_of ports m) bit) }
    {
        self.drivers.driver(bit)
    }

    /// The first bit or constant on the way back along the connections that none of them drives, and the bit itself
    /// where the way runs into a loop. It takes no memory.
    pub fn follow(&self, bit: SigBit) -> SigBit
        ensures value { (ports : Ports) (m : Module) → IsIndex self.now ports m → result ≡ follow m.links bit }
    {
        self.drivers.follow(bit)
    }

    /// The number of the bit: how many bits the wires before its own have, and its place. Of a bit that the module does
    /// not have it is 0. It takes no memory.
    pub fn number(&self, bit: WireBit) -> u32
        ensures value { (ports : Ports) (m : Module) → IsIndex self.now ports m → HasBit m.wires bit →
            number_of (widths_of m.wires) bit ≡ Some result }
    {
        self.readers.number(bit).unwrap_or(0)
    }

    /// What reads the bit: the cells' pins in the order of cells, pins and places, then the connections in their order.
    /// A bit that the module does not have has no readers. It takes no memory.
    pub fn readers(&self, bit: WireBit) -> &[Reader]
        ensures value { (ports : Ports) (m : Module) → IsIndex self.now ports m → HasBit m.wires bit →
            result.now ≡ readers_of ports m bit }
    {
        self.readers.of_bit(bit)
    }
}
