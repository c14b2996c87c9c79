//! The keys of the modules of a design.

ghost use Rattle.std.specs.Prelude.{◌≡◌, ◌<◌, IfOk, IfSome, length};
ghost use Rattle.rtl_bits.specs.Counts.{risen};
ghost use Rattle.rtl_readable.specs.Readable.{IsReadable};
ghost use Rattle.script_core.specs.Built.{IsValueOf};
ghost use Rattle.script_core.specs.Keys.{key_of};
ghost use Rattle.desk_core.specs.Results.{AreKeys, TellKeys};

use crate::kept::Kept;
use crate::modules::module_count;
use rtl_bits::{Copied, Memory, Steps};
use rtl_check::Checked;
use script_core::{Built, Key, KeyTable, Script, build_by, key_by};
use std::alloc::Global;

/// A design and a script, with the table of the design's modules: what tells the keys of the modules.
#[derive(Clone, Copy)]
pub struct Keys<'d, 't> {
    pub design: &'d Checked,
    pub table: &'t KeyTable<'d>,
    pub script: &'d Script,
}

impl Keys<'_, '_> {
    /// The key of the module at this place: that of the result beside it, or made.
    fn known_at(&self, alloc: Global, at: u32, beside: &Option<Kept>) -> Result<Key, Memory>
        requires table { self.now.table.now.modules.now ≡ self.now.design.now.design.modules }
        requires readable { IsReadable self.now.design.now.design }
        requires in_range { at < length self.now.design.now.design.modules }
        requires own { IfSome beside.now (λ kept.
            kept.key ≡ key_of self.now.design.now.design.modules at self.now.script.now) }
        ensures exact { IfOk result (λ key. key ≡ key_of self.now.design.now.design.modules at self.now.script.now) }
    {
        match beside {
            Some(kept) => kept.built().key().copy(),
            None => key_by(alloc, self.design, self.table, at, self.script),
        }
    }

    /// The keys of the modules, in order. The text of a key is shared with the result beside its module.
    pub fn all(&self, alloc: Global, found: &[Option<Kept>]) -> Result<Vec<Key>, Memory>
        requires keys { TellKeys self.now.design.now.design self.now.table.now.modules.now self.now.script.now
            found.now }
        ensures exact { IfOk result (λ all.
            AreKeys self.now.design.now.design self.now.table.now.modules.now self.now.script.now all.items) }
    {
        let mut all = Vec::with_capacity(alloc, found.len())?;
        for at in 0..module_count(self.design) {
            all.push(self.known_at(alloc, at, &found[at as usize])?)?;
        }
        Ok(all)
    }

    /// Builds the key of the module at this place. Each call, whatever it answers, is one tick.
    pub fn build_at<L>(
        &self,
        alloc: Global,
        at: u32,
        key: &Key,
        meter: &mut Steps<L>,
    ) -> Result<Built, Memory>
        requires table { self.now.table.now.modules.now ≡ self.now.design.now.design.modules }
        requires readable { IsReadable self.now.design.now.design }
        requires in_range { at < length self.now.design.now.design.modules }
        requires key { key.now ≡ key_of self.now.design.now.design.modules at self.now.script.now }
        ensures key { IfOk result (λ built. built.key ≡ key.now) }
        ensures value { IfOk result (λ built. IsValueOf built.key built.outcome) }
        ensures one_tick { meter.new ≡ risen meter.old 1 }
    {
        build_by(alloc, self.design, self.table, at, key, meter)
    }
}
