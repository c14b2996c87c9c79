//! A walk back through a tree for all its bits at once.

ghost use Rattle.std.specs.Prelude.{◌≡◌, ◌&&◌, ◌<◌, ◌++◌, ◌∷◌, [], ℕ, Bool, not, List, if◌then◌else◌, Some, None};
ghost use Rattle.std.specs.Prelude.{length, slice_set, filter, true, false, IfOk, OnOk};
ghost use Rattle.rtl_ir.specs.Assigns.{assigned, last_source};
ghost use Rattle.rtl_ir.specs.Follow.{joins};
ghost use Rattle.process_trees.specs.Lines.{is_bit};
ghost use Rattle.process_trees.specs.Reach.{given_last, reach_case, reach_switch};
ghost use Rattle.process_trees.specs.Walk.{AreSet, Gives, Walked, is_among, marked, rows_of, sources_at, unset_among};
ghost use Rattle.process_trees.specs.Walk.{unset_at};

use crate::numbers::Numbers;
use rtl_bits::Memory;
use rtl_ir::{Case, Link, Switch};
use rtl_sig::SigBit;
use std::alloc::Global;

/// How far a walk back through a tree has come: for each bit, by its number, what it was found to be given last, and
/// whether a value of before may be left of it.
#[derive(Drop)]
pub(crate) struct Walk {
    pub(crate) sources: Vec<Vec<SigBit>>,
    pub(crate) unset: Vec<bool>,
}

/// Walks a case: its switches from the last one on, and then its assigns. Answers the numbers of the bits of which a
/// value of before was left behind it, and is not before it.
#[cycle(back)]
pub(crate) fn walk_case(
    alloc: Global,
    numbers: &Numbers,
    walk: &mut Walk,
    case: &Case,
) -> Result<Vec<usize>, Memory>
    ensures walked { OnOk result (Walked numbers.now (λ b. reach_case b case.now) walk.old walk.new) }
    ensures set { IfOk result (λ set. AreSet set.items walk.old.unset.items walk.new.unset.items) }
{
    let switches = case.switches.as_slice();
    let mut set = Vec::new(alloc);
    for at in (0..switches.len()).rev() {
        let more = walk_switch(alloc, numbers, walk, &switches[at])?;
        set.extend_from_slice(more.as_slice())?;
    }
    walk_assigns(numbers, walk, &mut set, case.assigns.as_slice())?;
    Ok(set)
}

/// Walks a switch: each case by itself, up to the first default. A bit is set where all cases set it, and one of them
/// acts.
#[cycle(back)]
fn walk_switch(
    alloc: Global,
    numbers: &Numbers,
    walk: &mut Walk,
    switch: &Switch,
) -> Result<Vec<usize>, Memory>
    ensures walked { OnOk result (Walked numbers.now (λ b. reach_switch b switch.now) walk.old walk.new) }
    ensures set { IfOk result (λ set. AreSet set.items walk.old.unset.items walk.new.unset.items) }
{
    let mut common = None;
    for case in &switch.cases {
        let set = walk_case(alloc, numbers, walk, case)?;
        let by_all = set_by_all(alloc, walk.unset.as_slice(), common, set.as_slice())?;
        mark_all(&mut walk.unset, set.as_slice(), true);
        if is_default(case) {
            mark_all(&mut walk.unset, by_all.as_slice(), false);
            return Ok(by_all);
        }
        common = Some(by_all);
    }
    Ok(Vec::new(alloc))
}

/// Whether the case acts wherever it is reached.
fn is_default(case: &Case) -> bool
    ensures yes { result ≡ true → case.now.patterns ≡ [] }
    ensures no { result ≡ false → case.now.patterns ≡ [] → ⊥ }
{
    case.patterns.as_slice().is_empty()
}

/// Of the numbers that all cases before set, those that this case sets too: where there is none before, all that it
/// sets.
fn set_by_all(
    alloc: Global,
    unset: &[bool],
    common: Option<Vec<usize>>,
    set: &[usize],
) -> Result<Vec<usize>, Memory>
    ensures value { IfOk result (λ all. (before : List Bool) → AreSet set.now before unset.now →
        (k : ℕ) → is_among k all.items ≡ (unset_among common before k && not (unset_at unset.now k))) }
{
    match common {
        None => Ok(Vec::from_slice(alloc, set)?),
        Some(numbers) => set_now(alloc, unset, numbers.as_slice()),
    }
}

/// The numbers of which no value of before is left.
fn set_now(alloc: Global, unset: &[bool], numbers: &[usize]) -> Result<Vec<usize>, Memory>
    ensures value { IfOk result (λ set. set.items ≡ filter (λ n. not (unset_at unset.now n)) numbers.now) }
{
    let mut set = Vec::new(alloc);
    for at in numbers {
        if !is_unset(unset, *at) {
            set.push(*at)?;
        }
    }
    Ok(set)
}

/// Whether a value of before may be left of the bit of this number.
pub(crate) fn is_unset(unset: &[bool], at: usize) -> bool
    ensures value { result ≡ unset_at unset.now at }
{
    if at < unset.len() { unset[at] } else { false }
}

/// Marks the bits of these numbers, where there are such.
fn mark_all(unset: &mut Vec<bool>, set: &[usize], value: bool)
    ensures value { unset.new.items ≡ marked unset.old.items set.now value }
{
    for at in set {
        mark(unset, *at, value);
    }
}

/// Marks the bit of the number, where there is one.
fn mark(unset: &mut Vec<bool>, at: usize, value: bool)
    ensures value { unset.new.items ≡ slice_set unset.old.items at value }
{
    if at < unset.len() {
        unset[at] = value;
    }
}

/// Walks the assigns of a case from the last one on.
fn walk_assigns(
    numbers: &Numbers,
    walk: &mut Walk,
    set: &mut Vec<usize>,
    assigns: &[Link],
) -> Result<(), Memory>
    ensures walked { OnOk result (Walked numbers.now (λ b. given_last (assigned assigns.now b)) walk.old walk.new) }
    ensures set { OnOk result ((before : List Bool) → AreSet set.old.items before walk.old.unset.items →
        AreSet set.new.items before walk.new.unset.items) }
{
    for at in (0..assigns.len()).rev() {
        let line = &assigns[at];
        walk_line(
            numbers,
            walk,
            set,
            line.left.as_slice(),
            line.right.as_slice(),
        )?;
    }
    Ok(())
}

/// Walks the places of an assign with these sides from the highest one on.
fn walk_line(
    numbers: &Numbers,
    walk: &mut Walk,
    set: &mut Vec<usize>,
    left: &[SigBit],
    right: &[SigBit],
) -> Result<(), Memory>
    ensures walked { OnOk result (Walked numbers.now (λ b.
        given_last (last_source (joins left.now right.now) b)) walk.old walk.new) }
    ensures set { OnOk result ((before : List Bool) → AreSet set.old.items before walk.old.unset.items →
        AreSet set.new.items before walk.new.unset.items) }
{
    for at in (0..left.len().min(right.len())).rev() {
        walk_place(numbers, walk, set, left[at], right[at])?;
    }
    Ok(())
}

/// Walks a place of an assign.
fn walk_place(
    numbers: &Numbers,
    walk: &mut Walk,
    set: &mut Vec<usize>,
    left: SigBit,
    source: SigBit,
) -> Result<(), Memory>
    ensures walked { OnOk result (Walked numbers.now (λ b.
        given_last (if is_bit left b then Some source else None)) walk.old walk.new) }
    ensures set { OnOk result ((before : List Bool) → AreSet set.old.items before walk.old.unset.items →
        AreSet set.new.items before walk.new.unset.items) }
{
    let SigBit::Wire(bit) = left else {
        return Ok(());
    };
    match numbers.get(&bit).copied() {
        Some(at) => walk.give(set, at, source),
        None => Ok(()),
    }
}

impl Walk {
    /// Gives the bit of the number this source, where a value of before may be left of it; none is then.
    fn give(&mut self, set: &mut Vec<usize>, at: usize, source: SigBit) -> Result<(), Memory>
        ensures gives { OnOk result (Gives at source self.old self.new) }
        ensures set { OnOk result ((before : List Bool) → AreSet set.old.items before self.old.unset.items →
            AreSet set.new.items before self.new.unset.items) }
    {
        if at < self.sources.len() && at < self.unset.len() && self.unset[at] {
            put_source(&mut self.sources, at, source)?;
            self.unset[at] = false;
            set.push(at)?;
        }
        Ok(())
    }
}

/// Puts the source last in the row of the number.
pub(crate) fn put_source(
    rows: &mut Vec<Vec<SigBit>>,
    at: usize,
    source: SigBit,
) -> Result<(), Memory>
    requires in_range { at < length rows.old.items }
    ensures rows { OnOk result (rows_of rows.new.items ≡
        slice_set (rows_of rows.old.items) at (sources_at rows.old.items at ++ (source ∷ []))) }
{
    rows[at].push(source)?;
    Ok(())
}
