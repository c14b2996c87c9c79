//! The first leaf of what a tree gives.

ghost use Rattle.std.specs.Prelude.{◌≡◌, ◌++◌, map, reverse, IfOk, OnOk};
ghost use Rattle.rtl_sig.specs.declared.sig.SigBit.TheVariants.{Wire as OnWire};
ghost use Rattle.rtl_ir.specs.Follow.{all_joins};
ghost use Rattle.rtl_ir.specs.Tree.{CaseView};
ghost use Rattle.proc_tree.specs.Leaves.{AreLeaves, case_first, constant_or_x, first_start, switch_first};
ghost use Rattle.rtl_ir.specs.declared.follow.Join.{Join};

use net_index::Drivers;
use rtl_bits::{Bit, Memory, Seq};
use rtl_ir::{Case, Join, Link, Module, PortTable, Switch, add_all_joins};
use rtl_sig::{SigBit, SigSpec};
use std::alloc::Global;

/// The ways from the bits of a tree to their first leaves: along the assigns that act where each switch takes its
/// first case. A start value has one leaf, whatever the decisions, so the first one is it.
#[derive(Drop)]
pub(crate) struct Leaves {
    ways: Drivers,
}

impl Leaves {
    /// The leaves of a tree whose switches are read by the rules.
    pub(crate) fn of(alloc: Global, root: &Case) -> Result<Leaves, Memory>
        ensures value { IfOk result (λ leaves. AreLeaves leaves root.now) }
    {
        let mut places = Vec::new(alloc);
        put_case(&mut places, root)?;
        let body = body_of(alloc, places.as_slice())?;
        let none = PortTable {
            modules: Seq::make(alloc),
        };
        Ok(Leaves {
            ways: Drivers::of(alloc, &body, &none)?,
        })
    }

    /// The constant that stands first among the leaves of the source, x where another bit does. It takes no memory.
    pub(crate) fn constant(&self, source: SigBit) -> Bit
        ensures value { (root : CaseView) → AreLeaves self.now root → result ≡ first_start root source }
    {
        constant_or_x(self.ways.follow(source))
    }
}

/// The constant, x for a bit of a wire.
fn constant_or_x(bit: SigBit) -> Bit
    ensures value { result ≡ constant_or_x bit }
{
    match bit {
        SigBit::Fixed(value) => value,
        SigBit::Wire(_) => Bit::X,
    }
}

/// A module that connects these places. Of the connections of a bit the first counts, and of its assigns the last.
fn body_of(alloc: Global, places: &[Join]) -> Result<Module, Memory>
    ensures value { IfOk result (λ body. all_joins body.links ≡ reverse places.now) }
{
    let left = left_of(alloc, places)?;
    let right = right_of(alloc, places)?;
    let mut body = Module::empty(alloc, b"")?;
    body.links.push(Link {
        left: SigSpec::from_vec(left)?,
        right: SigSpec::from_vec(right)?,
    })?;
    Ok(body)
}

/// The bits of the places, from the last one to the first.
fn left_of(alloc: Global, places: &[Join]) -> Result<Vec<SigBit>, Memory>
    ensures value { IfOk result (λ left. left.items ≡ map (λ (p : Join). OnWire p.bit) (reverse places.now)) }
{
    Ok(
        places
            .iter()
            .rev()
            .map(|place| SigBit::Wire(place.bit))
            .collect(alloc)?,
    )
}

/// The sources of the places, from the last one to the first.
fn right_of(alloc: Global, places: &[Join]) -> Result<Vec<SigBit>, Memory>
    ensures value { IfOk result (λ right. right.items ≡ map (λ (p : Join). p.source) (reverse places.now)) }
{
    Ok(
        places
            .iter()
            .rev()
            .map(|place| place.source)
            .collect(alloc)?,
    )
}

/// Puts the places of the assigns last that act in the case where each switch takes its first case.
#[cycle(first)]
fn put_case(places: &mut Vec<Join>, case: &Case) -> Result<(), Memory>
    ensures ok { OnOk result (places.new.items ≡ places.old.items ++ all_joins (case_first case.now)) }
{
    add_all_joins(places, case.assigns.as_slice())?;
    for switch in &case.switches {
        put_switch(places, switch)?;
    }
    Ok(())
}

/// Puts the places of the assigns last that act in the first case of the switch.
#[cycle(first)]
fn put_switch(places: &mut Vec<Join>, switch: &Switch) -> Result<(), Memory>
    ensures ok { OnOk result (places.new.items ≡ places.old.items ++ all_joins (switch_first switch.now)) }
{
    match switch.cases.first() {
        Some(case) => put_case(places, case),
        None => Ok(()),
    }
}
