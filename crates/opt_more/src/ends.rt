//! Where the ways from the arms of multiplexers end, as far as they have been gone.

ghost use Rattle.std.specs.Prelude.{◌≡◌, ℕ, ◌+◌, ◌-◌, ◌^◌, ◌≤◌, ◌<◌, nat_eq, List, None, Option, Some, length};
ghost use Rattle.std.specs.Prelude.{IfOk, IfSome, OnOk, if◌then◌else◌, slice_index_or};
ghost use Rattle.std.specs.Arc.{arc_value};
ghost use Rattle.std.specs.HashMap.{get_by};
ghost use Rattle.rtl_ir.specs.declared.cell.Cell.{Cell};
ghost use Rattle.rtl_ir.specs.declared.module.Link.{Link};
ghost use Rattle.opt_more.specs.Ends.{AreArms, AreEnds, IsKnown};

use cell_types::PinName;
use rtl_bits::Memory;
use rtl_sig::{SigBit, SigSpec};
use std::alloc::Global;
use std::collections::HashMap;
use std::sync::Arc;

/// The word at which a way ends, and a count of steps that lead there.
#[derive(Drop)]
pub(crate) struct End {
    pub(crate) word: Arc<SigSpec, Global>,
    pub(crate) steps: usize,
}

impl End {
    /// The end, whose word both share.
    pub(crate) fn share(&self) -> Result<End, Memory>
        ensures word { IfOk result (λ end. arc_value end.word ≡ arc_value self.now.word) }
        ensures steps { IfOk result (λ end. end.steps ≡ self.now.steps) }
    {
        let word = Arc::try_clone(&self.word)?;
        Ok(End {
            word,
            steps: self.steps,
        })
    }
}

/// An arm of multiplexers, and the ends of the ways from it, by the places of the multiplexers.
#[derive(Drop)]
pub(crate) struct Arm {
    pub(crate) name: PinName,
    pub(crate) ends: HashMap<usize, End>,
}

impl Arm {
    /// The arm, where no way is known.
    pub(crate) fn make(alloc: Global, name: PinName) -> Arm
        ensures name { result.name ≡ name }
        ensures ends { (place : ℕ) → get_by (nat_eq place) result.ends ≡ None }
    {
        Arm {
            name,
            ends: HashMap::new(alloc),
        }
    }

    /// The end of the way from the cell at a place, where fewer than so many steps lead there.
    pub(crate) fn known(&self, place: usize, left: usize) -> Option<&End>
        ensures known { IfSome result (λ end.
            (get_by (nat_eq place) self.now.ends ≡ Some end.now) × (end.now.steps < left)) }
    {
        match self.ends.get(&place) {
            Some(end) if end.steps < left => Some(end),
            _ => None,
        }
    }

    /// The ways from the cells at these places end with the word: the last by so many steps, and each by one more than
    /// that of the next.
    pub(crate) fn learn(
        &mut self,
        passed: &[usize],
        word: &Arc<SigSpec, Global>,
        steps: usize,
    ) -> Result<(), Memory>
        requires room { steps + length passed.now < 2 ^ 64 }
        ensures name { self.new.name ≡ self.old.name }
        ensures ends { OnOk result ((cells : List Cell) (slots : List (Option Cell)) (links : List Link) →
            AreEnds self.old cells slots links → steps + length passed.now ≤ length slots →
            ((back : ℕ) → back < length passed.now →
            IsKnown self.old.name cells slots links (slice_index_or passed.now (length passed.now - 1 - back) 0)
            (steps + back) (arc_value word.now)) →
            AreEnds self.new cells slots links) }
    {
        for back in 0..passed.len() {
            let place = passed[passed.len() - 1 - back];
            let word = Arc::try_clone(word)?;
            self.put(
                place,
                End {
                    word,
                    steps: steps + back,
                },
            )?;
        }
        Ok(())
    }

    /// The way from the cell at a place has this end.
    fn put(&mut self, place: usize, end: End) -> Result<(), Memory>
        ensures name { self.new.name ≡ self.old.name }
        ensures ends { OnOk result ((p : ℕ) → get_by (nat_eq p) self.new.ends ≡
            (if nat_eq p place then Some end else get_by (nat_eq p) self.old.ends)) }
    {
        self.ends.insert(place, end)?;
        Ok(())
    }

    /// The ways from the cells at these places end with the word: that of the last here, and each by one step more than
    /// that of the next.
    pub(crate) fn learn_word(
        &mut self,
        alloc: Global,
        passed: &[usize],
        word: &[SigBit],
    ) -> Result<(), Memory>
        ensures name { self.new.name ≡ self.old.name }
        ensures ends { OnOk result ((cells : List Cell) (slots : List (Option Cell)) (links : List Link) →
            AreEnds self.old cells slots links → length passed.now ≤ length slots →
            ((back : ℕ) → back < length passed.now →
            IsKnown self.old.name cells slots links (slice_index_or passed.now (length passed.now - 1 - back) 0)
            back word.now) →
            AreEnds self.new cells slots links) }
    {
        if passed.is_empty() {
            return Ok(());
        }
        let shared = Arc::new(alloc, SigSpec::from_slice(alloc, word)?)?;
        self.learn(passed, &shared, 0)
    }
}

/// Both arms of multiplexers.
#[derive(Drop)]
pub(crate) struct Arms {
    pub(crate) a: Arm,
    pub(crate) b: Arm,
}

impl Arms {
    /// The arms, where no way is known.
    pub(crate) fn make(alloc: Global) -> Arms
        ensures arms { (cells : List Cell) (slots : List (Option Cell)) (links : List Link) →
            AreArms result cells slots links }
    {
        Arms {
            a: Arm::make(alloc, PinName::A),
            b: Arm::make(alloc, PinName::B),
        }
    }
}
