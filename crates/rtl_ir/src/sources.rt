//! What places of connections or lines give to bits, in a table.

ghost use Rattle.std.specs.Prelude.{◌≡◌, List, IfOk};
ghost use Rattle.rtl_ir.specs.Follow.{source_at};
ghost use Rattle.rtl_ir.specs.Sources.{AreSources};
ghost use Rattle.rtl_ir.specs.declared.follow.Join.{Join};

use crate::follow::Join;
use rtl_bits::Memory;
use rtl_sig::{SigBit, WireBit};
use std::alloc::Global;
use std::collections::HashMap;

/// What the first of some places gives to each bit.
pub type Sources = HashMap<WireBit, SigBit>;

/// What the first of these places gives to each bit.
pub fn sources_of(alloc: Global, places: &[Join]) -> Result<Sources, Memory>
    ensures value { IfOk result (λ sources. AreSources sources places.now) }
{
    let mut sources = HashMap::new(alloc);
    for at in (0..places.len()).rev() {
        sources.insert(places[at].bit, places[at].source)?;
    }
    Ok(sources)
}

/// What the first place of the bit gives to it, where there is one. It takes no memory.
pub fn source_of(sources: &Sources, bit: WireBit) -> Option<SigBit>
    ensures value { (js : List Join) → AreSources sources.now js → result ≡ source_at js bit }
{
    sources.get(&bit).copied()
}
