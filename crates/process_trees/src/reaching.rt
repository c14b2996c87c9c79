//! The assigns that reach the end of a tree.

ghost use Rattle.std.specs.Prelude.{◌≡◌, ◌++◌, ◌∷◌, [], ℕ, ◌<◌, ◌||◌, true, length, slice_set, IfOk, OnOk};
ghost use Rattle.std.specs.HashSet.{contains};
ghost use Rattle.std.specs.List.{list_any};
ghost use Rattle.rtl_bits.specs.declared.bit.Bit.TheVariants.{X};
ghost use Rattle.rtl_sig.specs.declared.sig.SigBit.TheVariants.{Fixed};
ghost use Rattle.rtl_sig.specs.declared.sig.WireBit.{WireBit};
ghost use Rattle.rtl_ir.specs.EventTests.{is_bit};
ghost use Rattle.rtl_ir.specs.Signals.{same_bit};
ghost use Rattle.process_trees.specs.Reach.{if_kept};
ghost use Rattle.process_trees.specs.Reaching.{AreReaching};
ghost use Rattle.process_trees.specs.Walk.{rows_of, sources_at, unset_at};

use crate::numbers::{Numbers, numbers_of};
use crate::walk::{Walk, is_unset, put_source, walk_case};
use rtl_bits::{Bit, Memory};
use rtl_ir::Case;
use rtl_sig::{SigBit, WireBit};
use std::alloc::Global;
use std::collections::HashSet;

/// The tree bits of a process with what each may be given last: the sources of the assigns that reach the end of the
/// tree, and x where none may act. It is made once a process, in one walk.
#[derive(Drop)]
pub struct Reaching {
    pub(crate) numbers: Numbers,
    pub(crate) sources: Vec<Vec<SigBit>>,
    read: HashSet<WireBit>,
}

impl Reaching {
    /// The sources of these bits below a root whose switches are read by the rules, and which assigns them.
    pub fn of(alloc: Global, root: &Case, bits: &[WireBit]) -> Result<Reaching, Memory>
        ensures value { IfOk result (λ table. AreReaching table root.now bits.now) }
    {
        let numbers = numbers_of(alloc, bits)?;
        let mut walk = begin(alloc, bits.len())?;
        walk_case(alloc, &numbers, &mut walk, root)?;
        let sources = ended(walk)?;
        let read = read_bits(alloc, sources.as_slice())?;
        Ok(Reaching {
            numbers,
            sources,
            read,
        })
    }

    /// Whether the bit is among what tree bits may be given last.
    pub(crate) fn is_read(&self, bit: WireBit) -> bool
        ensures value { result ≡ contains same_bit self.now.read bit }
    {
        self.read.contains(&bit)
    }
}

/// So many bits of which nothing was found.
fn begin(alloc: Global, count: usize) -> Result<Walk, Memory>
    ensures sources { IfOk result (λ walk. length walk.sources.items ≡ count) }
    ensures none { IfOk result (λ walk. (k : ℕ) → sources_at walk.sources.items k ≡ []) }
    ensures size { IfOk result (λ walk. length walk.unset.items ≡ count) }
    ensures unset { IfOk result (λ walk. (k : ℕ) → k < count → unset_at walk.unset.items k ≡ true) }
{
    let mut sources = Vec::with_capacity(alloc, count)?;
    for _ in 0..count {
        sources.push(Vec::new(alloc))?;
    }
    Ok(Walk {
        sources,
        unset: vec![in alloc; true; count]?,
    })
}

/// What was found, and x for each bit of which a value of before the tree may be left.
fn ended(walk: Walk) -> Result<Vec<Vec<SigBit>>, Memory>
    ensures size { IfOk result (λ rows. length rows.items ≡ length walk.sources.items) }
    ensures value { IfOk result (λ rows. (k : ℕ) → k < length walk.sources.items →
        sources_at rows.items k ≡ sources_at walk.sources.items k ++
        if_kept (unset_at walk.unset.items k) (Fixed X ∷ [])) }
{
    let Walk { mut sources, unset } = walk;
    for at in 0..sources.len() {
        end_row(&mut sources, at, is_unset(unset.as_slice(), at))?;
    }
    Ok(sources)
}

/// Puts x last in the row of the number, where a value of before the tree may be left.
fn end_row(rows: &mut Vec<Vec<SigBit>>, at: usize, is_unset: bool) -> Result<(), Memory>
    requires in_range { at < length rows.old.items }
    ensures rows { OnOk result (rows_of rows.new.items ≡
        slice_set (rows_of rows.old.items) at (sources_at rows.old.items at ++ if_kept is_unset (Fixed X ∷ []))) }
{
    if is_unset {
        return put_source(rows, at, SigBit::Fixed(Bit::X));
    }
    Ok(())
}

/// The bits that stand in these rows.
fn read_bits(alloc: Global, rows: &[Vec<SigBit>]) -> Result<HashSet<WireBit>, Memory>
    ensures read { IfOk result (λ read. (q : WireBit) →
        contains same_bit read q ≡ list_any (list_any (is_bit q)) (rows_of rows.now)) }
{
    let mut read = HashSet::new(alloc);
    for row in rows {
        put_read(&mut read, row.as_slice())?;
    }
    Ok(read)
}

/// Puts in the bits that stand in a row.
fn put_read(read: &mut HashSet<WireBit>, row: &[SigBit]) -> Result<(), Memory>
    ensures read { OnOk result ((q : WireBit) → contains same_bit read.new q ≡
        (contains same_bit read.old q || list_any (is_bit q) row.now)) }
{
    for source in row {
        put_place(read, *source)?;
    }
    Ok(())
}

/// Puts in a place, where it is a bit of a wire.
fn put_place(read: &mut HashSet<WireBit>, source: SigBit) -> Result<(), Memory>
    ensures read { OnOk result ((q : WireBit) → contains same_bit read.new q ≡
        (contains same_bit read.old q || is_bit q source)) }
{
    if let SigBit::Wire(bit) = source {
        read.insert(bit)?;
    }
    Ok(())
}
