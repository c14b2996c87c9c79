//! What the lines of a rule give to bits.

ghost use Rattle.rtl_ir.specs.Sources.{AreSources};

use rtl_bits::Memory;
use rtl_ir::{Join, Link, Sources as Table, all_joins, source_of, sources_of};
use rtl_sig::{SigBit, WireBit};
use std::alloc::Global;
use std::collections::HashMap;

/// What the lines of a rule give to each bit.
#[derive(Drop)]
pub(crate) struct Sources {
    places: Vec<Join>,
    table: Table,
    ghost agree: { AreSources table places.items },
}

impl Sources {
    ghost use Rattle.std.specs.Prelude.{◌≡◌, [], IfOk};
    ghost use Rattle.rtl_ir.specs.Follow.{all_joins};
    ghost use Rattle.net_model.specs.Proc.Sync.{level_side};
    ghost use Rattle.proc_sync.specs.Sources.{Gives, given_at, joins_in};

    /// No line.
    pub(crate) fn none(alloc: Global) -> Sources
        ensures none { Gives result [] }
    {
        Sources {
            places: Vec::new(alloc),
            table: HashMap::new(alloc),
        }
    }

    /// These lines.
    pub(crate) fn of(alloc: Global, lines: &[Link]) -> Result<Sources, Memory>
        ensures value { IfOk result (λ sources. Gives sources (all_joins lines.now)) }
    {
        let places = all_joins(alloc, lines)?;
        let table = sources_of(alloc, places.as_slice())?;
        Ok(Sources { places, table })
    }

    /// What the first place of the bit gives it. It takes no memory.
    pub(crate) fn get(&self, bit: WireBit) -> Option<SigBit>
        ensures value { result ≡ given_at self.now bit }
    {
        source_of(&self.table, bit)
    }

    /// What the lines give these places, where they give something.
    pub(crate) fn level_side(&self, alloc: Global, places: &[Join]) -> Result<Vec<SigBit>, Memory>
        ensures value { IfOk result (λ bits. bits.items ≡ level_side (joins_in self.now) places.now) }
    {
        let mut bits = Vec::with_capacity(alloc, places.len())?;
        for place in places {
            if let Some(source) = self.get(place.bit) {
                bits.push(source)?;
            }
        }
        Ok(bits)
    }
}
