//! Connections and lines, place by place.

ghost use Rattle.std.specs.Prelude.{◌≡◌, [], ◌∷◌, ◌++◌, IfOk, OnOk};
ghost use Rattle.rtl_ir.specs.Follow.{all_joins, joins};
ghost use Rattle.rtl_ir.specs.Rules.{init_lines};

use crate::module::Link;
use crate::process::{Event, SyncRule};
use rtl_bits::Memory;
use rtl_sig::{SigBit, WireBit};
use std::alloc::Global;

/// One place of a connection or a line: a bit of a wire, and what is given to it.
#[derive(Clone, Copy, Debug, PartialEq, Eq)]
pub struct Join {
    pub bit: WireBit,
    pub source: SigBit,
}

/// The places that both sides have, where the left is a bit of a wire.
pub fn joins(alloc: Global, left: &[SigBit], right: &[SigBit]) -> Result<Vec<Join>, Memory>
    ensures value { IfOk result (λ found. found.items ≡ joins left.now right.now) }
{
    let mut found = Vec::new(alloc);
    add_joins(&mut found, left, right)?;
    Ok(found)
}

/// The places of connections or lines, in order.
pub fn all_joins(alloc: Global, lines: &[Link]) -> Result<Vec<Join>, Memory>
    ensures value { IfOk result (λ found. found.items ≡ all_joins lines.now) }
{
    let mut found = Vec::new(alloc);
    add_all_joins(&mut found, lines)?;
    Ok(found)
}

/// The places of the lines that give start values.
pub fn init_joins(alloc: Global, rules: &[SyncRule]) -> Result<Vec<Join>, Memory>
    ensures value { IfOk result (λ found. found.items ≡ all_joins (init_lines rules.now)) }
{
    let mut found = Vec::new(alloc);
    for rule in rules {
        if let Event::Init = rule.event {
            add_all_joins(&mut found, rule.updates.as_slice())?;
        }
    }
    Ok(found)
}

/// Appends the places of connections or lines, in order.
pub fn add_all_joins(found: &mut Vec<Join>, lines: &[Link]) -> Result<(), Memory>
    ensures ok { OnOk result (found.new.items ≡ found.old.items ++ all_joins lines.now) }
{
    for line in lines {
        add_joins(found, line.left.as_slice(), line.right.as_slice())?;
    }
    Ok(())
}

/// Appends the places that both sides have, where the left is a bit of a wire.
pub fn add_joins(found: &mut Vec<Join>, left: &[SigBit], right: &[SigBit]) -> Result<(), Memory>
    ensures ok { OnOk result (found.new.items ≡ found.old.items ++ joins left.now right.now) }
{
    for at in 0..left.len().min(right.len()) {
        add_join(found, left[at], right[at])?;
    }
    Ok(())
}

/// Appends the place, where its left is a bit of a wire.
fn add_join(found: &mut Vec<Join>, left: SigBit, source: SigBit) -> Result<(), Memory>
    ensures ok { OnOk result (found.new.items ≡ found.old.items ++ joins (left ∷ []) (source ∷ [])) }
{
    if let SigBit::Wire(bit) = left {
        found.push(Join { bit, source })?;
    }
    Ok(())
}
