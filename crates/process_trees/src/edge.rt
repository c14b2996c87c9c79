//! The bit of an edge.

ghost use Rattle.std.specs.Prelude.{◌≡◌, option_map};
ghost use Rattle.rtl_ir.specs.Faults.TwoEdges as edges;
ghost use Rattle.process_trees.specs.Edge.{edge_as, one_edge};

use rtl_ir::Event;
use rtl_sig::{SigBit, WireBit};

/// The bit of an edge, and the level after it: true for a rising one.
#[derive(Clone, Copy, Debug, PartialEq, Eq)]
pub struct EdgeBit {
    pub bit: WireBit,
    pub level: bool,
}

/// The bit of an event, where it is an edge of one bit of a wire.
pub fn edge_bit(event: &Event) -> Option<EdgeBit>
    ensures value { option_map edge_as result ≡ edges.edge_bit event.now }
{
    match event {
        Event::Posedge(signal) => one_edge(signal.as_slice(), true),
        Event::Negedge(signal) => one_edge(signal.as_slice(), false),
        _ => None,
    }
}

/// The edge to this level of a signal that is one bit of a wire.
fn one_edge(signal: &[SigBit], level: bool) -> Option<EdgeBit>
    ensures value { option_map edge_as result ≡ one_edge signal.now level }
{
    match signal {
        [SigBit::Wire(bit)] => Some(EdgeBit { bit: *bit, level }),
        _ => None,
    }
}
