//! The parts of rules that are storage cells.

ghost use Rattle.std.specs.Prelude.{◌≡◌, ◌<◌, ◌∷◌, [], List, Some, not, IfOk, OnOk, filter, length, map, slice_get};
ghost use Rattle.std.specs.Option.{is_some};
ghost use Rattle.rtl_bits.specs.declared.bit.Bit.{Bit};
ghost use Rattle.rtl_sig.specs.declared.sig.SigBit.{SigBit};
ghost use Rattle.rtl_ir.specs.Flat.Place.{Path};
ghost use Rattle.rtl_ir.specs.Flat.Process as rtl;
ghost use Rattle.rtl_ir.specs.Flat.Process.{edge_row, global_rows, level_row, loaded_row, loaded_rows};
ghost use Rattle.rtl_ir.specs.Follow.{source_at};
ghost use Rattle.rtl_ir.specs.declared.follow.Join.{Join};
ghost use Rattle.rtl_ir.specs.Sources.{AreSources};
ghost use Rattle.rtl_ir.specs.Triggers.{trigger_of};
ghost use Rattle.flat_net.specs.Adds.{Adds};
ghost use Rattle.flat_net.specs.Known.{Extends};
ghost use Rattle.flat_net.specs.Registers.{IsControl};
ghost use Rattle.flat_net.specs.Pairs.{pairing_of};
ghost use Rattle.flat_net.specs.Starts.{IsStart};

use crate::builder::Builder;
use crate::registers::{Control, bare_register, edge_register, level_register, loaded_register};
use crate::scope::Scope;
use cell_types::StorageKind;
use rtl_bits::Memory;
use rtl_ir::{Join, Sources, Trigger, source_of, sources_of};
use rtl_sig::SigBit;
use std::alloc::Global;

/// How two rules stand together: the first is an edge and the second a level, or the other way round, or both are
/// edges.
#[derive(Clone, Copy)]
pub(crate) enum Paired<'a> {
    First(Trigger<'a>, Trigger<'a>),
    Second(Trigger<'a>, Trigger<'a>),
    Edges,
}

/// How two rules stand together, by the edges and levels that they are.
pub(crate) fn pairing<'a>(
    edge_a: Option<Trigger<'a>>,
    edge_b: Option<Trigger<'a>>,
    level_a: Option<Trigger<'a>>,
    level_b: Option<Trigger<'a>>,
) -> Paired<'a>
    ensures value { result ≡ pairing_of edge_a.entry edge_b.entry level_a.entry level_b.entry }
{
    match (edge_a, edge_b, level_a, level_b) {
        (Some(edge), _, _, Some(level)) => Paired::First(edge, level),
        (_, Some(edge), Some(level), _) => Paired::Second(edge, level),
        _ => Paired::Edges,
    }
}

impl Builder {
    /// A rule at each step.
    pub(crate) fn add_steps(&mut self, scope: &Scope, lines: &[Join]) -> Result<(), Memory>
        requires in_range { scope.now.path < length self.old.places.paths }
        ensures grows { OnOk result (Extends self.old.places self.new.places) }
        ensures rows { (p : Path) → slice_get self.old.places.paths scope.now.path ≡ Some p → (start : SigBit → Bit) →
            IsStart scope.now.starts.now start →
            OnOk result (Adds self.old self.new (global_rows start p scope.now.wires.now lines.now)) }
    {
        let register = bare_register(StorageKind::Ff);
        self.add_registers(scope, &register, lines)
    }

    /// A rule at an edge.
    pub(crate) fn add_edge(
        &mut self,
        scope: &Scope,
        edge: Trigger,
        lines: &[Join],
    ) -> Result<(), Memory>
        requires in_range { scope.now.path < length self.old.places.paths }
        ensures grows { OnOk result (Extends self.old.places self.new.places) }
        ensures rows { (p : Path) → slice_get self.old.places.paths scope.now.path ≡ Some p → (start : SigBit → Bit) →
            IsStart scope.now.starts.now start →
            OnOk result (Adds self.old self.new (map (edge_row start p scope.now.wires.now (trigger_of edge.entry))
            lines.now)) }
    {
        let clock = self.places.control(scope, edge)?;
        let register = edge_register(clock);
        self.add_registers(scope, &register, lines)
    }

    /// A rule at a level.
    pub(crate) fn add_level(
        &mut self,
        scope: &Scope,
        level: Trigger,
        lines: &[Join],
    ) -> Result<(), Memory>
        requires in_range { scope.now.path < length self.old.places.paths }
        ensures grows { OnOk result (Extends self.old.places self.new.places) }
        ensures rows { (p : Path) → slice_get self.old.places.paths scope.now.path ≡ Some p → (start : SigBit → Bit) →
            IsStart scope.now.starts.now start →
            OnOk result (Adds self.old self.new (map (level_row start p scope.now.wires.now (trigger_of level.entry))
            lines.now)) }
    {
        let enable = self.places.control(scope, level)?;
        let register = level_register(enable);
        self.add_registers(scope, &register, lines)
    }

    /// A rule at an edge beside one at a level: a bit that both update loads while the level is there.
    pub(crate) fn add_loaded(
        &mut self,
        scope: &Scope,
        edge: Trigger,
        edges: &[Join],
        level: Trigger,
        levels: &[Join],
    ) -> Result<(), Memory>
        requires in_range { scope.now.path < length self.old.places.paths }
        ensures grows { OnOk result (Extends self.old.places self.new.places) }
        ensures rows { (p : Path) → slice_get self.old.places.paths scope.now.path ≡ Some p → (start : SigBit → Bit) →
            IsStart scope.now.starts.now start →
            OnOk result (Adds self.old self.new (loaded_rows start p scope.now.wires.now (trigger_of edge.entry)
            edges.now (trigger_of level.entry) levels.now)) }
    {
        let clock = self.places.control(scope, edge)?;
        let load = self.places.control(scope, level)?;
        let loads = sources_of(scope.alloc, levels)?;
        self.add_loads(scope, clock, load, &loads, edges)?;
        let others = others_of(scope.alloc, &sources_of(scope.alloc, edges)?, levels)?;
        self.add_level(scope, level, others.as_slice())
    }

    /// The places of a rule at an edge, where bits may load.
    fn add_loads(
        &mut self,
        scope: &Scope,
        clock: Control,
        load: Control,
        loads: &Sources,
        lines: &[Join],
    ) -> Result<(), Memory>
        requires in_range { scope.now.path < length self.old.places.paths }
        ensures grows { OnOk result (Extends self.old.places self.new.places) }
        ensures rows { (p : Path) → slice_get self.old.places.paths scope.now.path ≡ Some p → (start : SigBit → Bit) →
            IsStart scope.now.starts.now start →
            (e l : rtl.Trigger) → IsControl self.old.places.places p scope.now.wires.now clock e →
            IsControl self.old.places.places p scope.now.wires.now load l →
            (levels : List Join) → AreSources loads.now levels →
            OnOk result (Adds self.old self.new (map (λ (j : Join).
            loaded_row start p scope.now.wires.now e l (source_at levels j.bit) j) lines.now)) }
    {
        for line in lines {
            let from = source_of(loads, line.bit);
            self.add_load(scope, clock, load, from, *line)?;
        }
        Ok(())
    }

    /// A place of a rule at an edge, which loads what the other rule gives to the bit.
    fn add_load(
        &mut self,
        scope: &Scope,
        clock: Control,
        load: Control,
        from: Option<SigBit>,
        line: Join,
    ) -> Result<(), Memory>
        requires in_range { scope.now.path < length self.old.places.paths }
        ensures grows { OnOk result (Extends self.old.places self.new.places) }
        ensures rows { (p : Path) → slice_get self.old.places.paths scope.now.path ≡ Some p → (start : SigBit → Bit) →
            IsStart scope.now.starts.now start →
            (e l : rtl.Trigger) → IsControl self.old.places.places p scope.now.wires.now clock e →
            IsControl self.old.places.places p scope.now.wires.now load l →
            OnOk result (Adds self.old self.new (loaded_row start p scope.now.wires.now e l from line ∷ [])) }
    {
        match from {
            Some(bit) => {
                let ad = self.places.point(scope, bit)?;
                let register = loaded_register(clock, load, ad);
                self.add_registers(scope, &register, &[line])
            }
            None => {
                let register = edge_register(clock);
                self.add_registers(scope, &register, &[line])
            }
        }
    }
}

/// The places of the bits that no source is known of.
fn others_of(alloc: Global, sources: &Sources, lines: &[Join]) -> Result<Vec<Join>, Memory>
    ensures value { (js : List Join) → AreSources sources.now js →
        IfOk result (λ others. others.items ≡ filter (λ (j : Join). not (is_some (source_at js j.bit))) lines.now) }
{
    let mut others = Vec::new(alloc);
    for line in lines {
        if !sources.contains_key(&line.bit) {
            others.push(*line)?;
        }
    }
    Ok(others)
}
