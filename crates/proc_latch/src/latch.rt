//! Bits that are always updated, one by one.

ghost use Rattle.std.specs.Prelude.{◌≡◌, ◌∷◌, [], Err, IfOk, OnOk};
ghost use Rattle.rtl_sig.specs.declared.sig.SigBit.TheVariants.{Wire as OnWire};
ghost use Rattle.rtl_ir.specs.Assigns.{tree_bits};
ghost use Rattle.rtl_ir.specs.Build.{new_link};
ghost use Rattle.rtl_ir.specs.Flat.Process.{may_hold};
ghost use Rattle.rtl_ir.specs.Follow.{all_joins, joins};
ghost use Rattle.net_index.specs.Builder.{IsInLimits, PassesLimit, new_params};
ghost use Rattle.net_model.specs.Proc.Latch.{latch_cell};
ghost use Rattle.match_cells.specs.Trees.{seen};
ghost use Rattle.proc_latch.specs.Chains.{AreTables, IsRead};
ghost use Rattle.proc_latch.specs.Parts.{latch_params, latch_pins};
ghost use Rattle.proc_latch.specs.Sides.{side_of};
ghost use Rattle.proc_latch.specs.Steps.{always_step, always_steps, latch_step, side_value};

use crate::chains::Chains;
use crate::reading::{Reading, Tables};
use crate::side::Side;
use cell_types::{CellKind, Param, ParamName, PinName, StorageKind};
use indexmap::IndexMap;
use net_index::{Builder, PassFault, number_param};
use rtl_bits::Memory;
use rtl_ir::{Case, Link, Pin, pin_of};
use rtl_sig::{SigBit, SigSpec, WireBit};
use std::alloc::Global;

impl Chains {
    /// The bits of the lines, in order.
    pub(crate) fn always_lines(
        &mut self,
        root: &Case,
        tables: &Tables,
        lines: &[Link],
    ) -> Result<(), PassFault>
        requires tables { AreTables root.now tables.now }
        ensures exact { OnOk result (seen self.new.trees ≡
            always_steps root.now (tree_bits root.now) (all_joins lines.now) (seen self.old.trees)) }
        ensures over { result ≡ Err PassFault.Over →
            PassesLimit (always_steps root.now (tree_bits root.now) (all_joins lines.now)
            (seen self.old.trees)).building }
        ensures within { IsInLimits self.old.trees.builder → OnOk result (IsInLimits self.new.trees.builder) }
    {
        for line in lines {
            self.always_line(root, tables, line.left.as_slice(), line.right.as_slice())?;
        }
        Ok(())
    }

    /// The bits of a line, in order.
    fn always_line(
        &mut self,
        root: &Case,
        tables: &Tables,
        left: &[SigBit],
        right: &[SigBit],
    ) -> Result<(), PassFault>
        requires tables { AreTables root.now tables.now }
        ensures exact { OnOk result (seen self.new.trees ≡
            always_steps root.now (tree_bits root.now) (joins left.now right.now) (seen self.old.trees)) }
        ensures over { result ≡ Err PassFault.Over →
            PassesLimit (always_steps root.now (tree_bits root.now) (joins left.now right.now)
            (seen self.old.trees)).building }
        ensures within { IsInLimits self.old.trees.builder → OnOk result (IsInLimits self.new.trees.builder) }
    {
        for at in 0..left.len().min(right.len()) {
            self.always_place(root, tables, left[at], right[at])?;
        }
        Ok(())
    }

    /// A place of a line, where it is a bit of a wire.
    fn always_place(
        &mut self,
        root: &Case,
        tables: &Tables,
        left: SigBit,
        source: SigBit,
    ) -> Result<(), PassFault>
        requires tables { AreTables root.now tables.now }
        ensures exact { OnOk result (seen self.new.trees ≡
            always_steps root.now (tree_bits root.now) (joins (left ∷ []) (source ∷ [])) (seen self.old.trees)) }
        ensures over { result ≡ Err PassFault.Over →
            PassesLimit (always_steps root.now (tree_bits root.now) (joins (left ∷ []) (source ∷ []))
            (seen self.old.trees)).building }
        ensures within { IsInLimits self.old.trees.builder → OnOk result (IsInLimits self.new.trees.builder) }
    {
        match left {
            SigBit::Fixed(_) => Ok(()),
            SigBit::Wire(bit) => self.always_step(root, tables, bit, source),
        }
    }

    /// A bit that is always updated: a latch where it may hold, else a connection.
    #[tactic(auto, unfolding(crate::specs::Steps::always_step))]
    fn always_step(
        &mut self,
        root: &Case,
        tables: &Tables,
        bit: WireBit,
        source: SigBit,
    ) -> Result<(), PassFault>
        requires tables { AreTables root.now tables.now }
        ensures exact { OnOk result (seen self.new.trees ≡
            always_step root.now (tree_bits root.now) (record { bit = bit; source = source }) (seen self.old.trees)) }
        ensures over { result ≡ Err PassFault.Over →
            PassesLimit (always_step root.now (tree_bits root.now) (record { bit = bit; source = source })
            (seen self.old.trees)).building }
        ensures within { IsInLimits self.old.trees.builder → OnOk result (IsInLimits self.new.trees.builder) }
    {
        let bits = tables.bits.list.as_slice();
        if tables
            .reaching
            .may_hold(self.trees.alloc, bits, bit, source)?
        {
            self.latch_step(root, tables, bit, source)
        } else {
            self.connect(bit, source)
        }
    }

    /// A bit that never holds is connected to its value.
    fn connect(&mut self, bit: WireBit, source: SigBit) -> Result<(), PassFault>
        ensures exact { OnOk result (seen self.new.trees ≡
            record {
              building = new_link (OnWire bit ∷ []) (source ∷ []) self.old.trees.builder;
              made = self.old.trees.made.items;
            }) }
        ensures over { result ≡ Err PassFault.Over → PassesLimit self.old.trees.builder }
        ensures within { IsInLimits self.old.trees.builder → OnOk result (IsInLimits self.new.trees.builder) }
    {
        let left = SigSpec::from_slice(self.trees.alloc, &[SigBit::Wire(bit)])?;
        let right = SigSpec::from_slice(self.trees.alloc, &[source])?;
        self.trees.builder.connect(&left, &right)?;
        Ok(())
    }

    /// A bit that may hold: the cells of its data, those of its enable, and then the latch.
    #[tactic(auto, unfolding(crate::specs::Steps::latch_step))]
    fn latch_step(
        &mut self,
        root: &Case,
        tables: &Tables,
        own: WireBit,
        source: SigBit,
    ) -> Result<(), PassFault>
        requires tables { AreTables root.now tables.now }
        ensures exact { OnOk result (seen self.new.trees ≡
            latch_step root.now (tree_bits root.now) (record { bit = own; source = source }) (seen self.old.trees)) }
        ensures over { result ≡ Err PassFault.Over →
            PassesLimit (latch_step root.now (tree_bits root.now) (record { bit = own; source = source })
            (seen self.old.trees)).building }
        ensures within { IsInLimits self.old.trees.builder → OnOk result (IsInLimits self.new.trees.builder) }
    {
        let data = Reading {
            root,
            tables,
            side: Side::Data,
            own,
        };
        let new = self.side_value(&data, source)?;
        let enable = Reading {
            root,
            tables,
            side: Side::Enable,
            own,
        };
        let enable = self.side_value(&enable, source)?;
        latch_cell(self.trees.alloc, own, new, enable, &mut self.trees.builder)
    }

    /// The value of a bit on one side, with chains of its own.
    fn side_value(&mut self, read: &Reading<'_>, source: SigBit) -> Result<SigBit, PassFault>
        requires read { IsRead read.now }
        ensures exact { IfOk result (λ value. (value, seen self.new.trees) ≡
            side_value (side_of read.now.side) read.now.root.now (tree_bits read.now.root.now)
            (record { bit = read.now.own; source = source }) (seen self.old.trees)) }
        ensures over { result ≡ Err PassFault.Over →
            PassesLimit (side_value (side_of read.now.side) read.now.root.now (tree_bits read.now.root.now)
            (record { bit = read.now.own; source = source }) (seen self.old.trees)).1.building }
        ensures within { IsInLimits self.old.trees.builder → OnOk result (IsInLimits self.new.trees.builder) }
    {
        self.chains = IndexMap::new(self.trees.alloc);
        self.leaf(read, read.tables.bits.list.len(), source)
    }
}

/// The parameters of a latch of one bit.
fn latch_params(alloc: Global) -> Result<Vec<Param>, Memory>
    ensures value { IfOk result (λ params. new_params params.items ≡ latch_params) }
{
    let mut params = Vec::new(alloc);
    params.push(number_param(alloc, ParamName::Width, 1)?)?;
    params.push(number_param(alloc, ParamName::EnPolarity, 1)?)?;
    Ok(params)
}

/// The pins of a latch of one bit.
fn latch_pins(alloc: Global, own: WireBit, new: SigBit, enable: SigBit) -> Result<Vec<Pin>, Memory>
    ensures value { IfOk result (λ pins. pins.items ≡ latch_pins own new enable) }
{
    let mut pins = Vec::new(alloc);
    pins.push(pin_of(alloc, PinName::En, &[enable])?)?;
    pins.push(pin_of(alloc, PinName::D, &[new])?)?;
    pins.push(pin_of(alloc, PinName::Q, &[SigBit::Wire(own)])?)?;
    Ok(pins)
}

/// A latch of one bit.
fn latch_cell(
    alloc: Global,
    own: WireBit,
    new: SigBit,
    enable: SigBit,
    builder: &mut Builder,
) -> Result<(), PassFault>
    ensures exact { OnOk result (builder.new ≡ latch_cell own new enable builder.old) }
    ensures over { result ≡ Err PassFault.Over → PassesLimit (latch_cell own new enable builder.old) }
    ensures within { OnOk result (IsInLimits builder.new) }
{
    let params = latch_params(alloc)?;
    let pins = latch_pins(alloc, own, new, enable)?;
    let kind = CellKind::Storage(StorageKind::Dlatch);
    builder.add_cell(kind, params.as_slice(), pins.as_slice())?;
    Ok(())
}
