//! The ages of kept keys: how many commands in a row needed the netlist, and not the key.

ghost use Rattle.std.specs.Prelude.{◌≡◌, ◌+◌, ◌*◌, ◌≤◌, [], ◌∷◌, ◌++◌, false, IfOk, OnErr, OnOk, Some, filter, length, slice_get};
ghost use Rattle.std.specs.Option.{is_some};
ghost use Rattle.rtl_sig.specs.Names.{has_name, with_name};
ghost use Rattle.desk_core.specs.Ages.{AreYoung, aged_keys, compact_keys, kept_in, unaged_count};
ghost use Rattle.desk_core.specs.Needed.{age_after, ages_after, is_too_old};

use rtl_bits::{Memory, Text};
use rtl_sig::{NameId, Names};
use std::alloc::Global;

/// The greatest age of a kept key.
const OLDEST: u32 = 7;

/// So many keys without an age may stand in a table beside any others.
const FEW: usize = 16;

/// Keys with their ages. A key without an age is not kept; it stays among the keys.
#[derive(Drop)]
pub struct Ages {
    pub keys: Names,
    pub ages: Vec<Option<u32>>,
}

impl Ages {
    /// No keys. It takes no memory.
    pub fn make(alloc: Global) -> Ages
        ensures keys { result.keys ≡ [] }
        ensures ages { result.ages.items ≡ [] }
    {
        Ages {
            keys: Names::make(alloc),
            ages: Vec::new(alloc),
        }
    }

    /// The place of the key, which is among the keys from then on, and is kept or not as before. After an error the
    /// keys and ages are as before.
    pub fn place(&mut self, key: &Text) -> Result<usize, Memory>
        requires beside { length self.old.ages.items ≡ length self.old.keys }
        ensures beside { length self.new.ages.items ≡ length self.new.keys }
        ensures place { IfOk result (λ at. slice_get self.new.keys at ≡ Some key.now) }
        ensures keys { IfOk result (λ at. self.new.keys ≡ with_name self.old.keys key.now) }
        ensures kept { kept_in self.new.keys self.new.ages.items ≡ kept_in self.old.keys self.old.ages.items }
        ensures young { AreYoung self.old.ages.items → AreYoung self.new.ages.items }
        ensures err { OnErr result ((self.new.keys ≡ self.old.keys) × (self.new.ages.items ≡ self.old.ages.items)) }
    {
        self.ages.reserve(1)?;
        let id = self.keys.intern_text(key)?;
        if id.index == self.ages.len() {
            self.ages.push_reserved(None);
        }
        Ok(id.index)
    }

    /// Puts a new key with its age last. After an error the key may stand there without one.
    fn put(&mut self, key: Text, age: u32) -> Result<(), Memory>
        requires new { has_name self.old.keys key ≡ false }
        ensures keys { OnOk result (self.new.keys ≡ self.old.keys ++ key ∷ []) }
        ensures ages { OnOk result (self.new.ages.items ≡ self.old.ages.items ++ Some age ∷ []) }
    {
        self.keys.intern_text(&key)?;
        self.ages.push(Some(age))?;
        Ok(())
    }

    /// A table of the keys that have an age.
    fn aged(&self, alloc: Global) -> Result<Ages, Memory>
        requires beside { length self.now.ages.items ≡ length self.now.keys }
        ensures keys { IfOk result (λ aged. aged.keys ≡ aged_keys self.now.keys self.now.ages.items) }
        ensures ages { IfOk result (λ aged. aged.ages.items ≡ filter is_some self.now.ages.items) }
    {
        let mut aged = Ages::make(alloc);
        for index in 0..self.keys.count() {
            if let Some(age) = self.ages[index] {
                aged.put(self.keys.shared(NameId { index })?, age)?;
            }
        }
        Ok(aged)
    }

    /// How many keys have no age.
    fn unaged_count(&self) -> usize
        ensures value { result ≡ unaged_count self.now.ages.items }
        ensures within { result ≤ length self.now.ages.items }
    {
        self.ages.iter().filter(|age| age.is_none()).count()
    }

    /// Drops the keys without an age where they are more than the others, and more than a few. What is kept stays as it
    /// is. After an error the table is as before. So a table has hardly more than twice as many keys as are kept, and a
    /// key that is no longer kept costs the time of one move.
    pub fn compact(&mut self, alloc: Global) -> Result<(), Memory>
        requires beside { length self.old.ages.items ≡ length self.old.keys }
        ensures beside { length self.new.ages.items ≡ length self.new.keys }
        ensures kept { kept_in self.new.keys self.new.ages.items ≡ kept_in self.old.keys self.old.ages.items }
        ensures young { AreYoung self.old.ages.items → AreYoung self.new.ages.items }
        ensures exact { OnOk result (self.new.keys ≡ compact_keys self.old.keys self.old.ages.items) }
        ensures few { OnOk result (length self.new.keys ≤
            16 + 2 * length (kept_in self.new.keys self.new.ages.items)) }
        ensures err { OnErr result (self.new ≡ self.old) }
    {
        let unaged = self.unaged_count();
        let aged = self.keys.count() - unaged;
        if unaged > FEW && unaged > aged {
            *self = self.aged(alloc)?;
        }
        Ok(())
    }

    /// All ages after a command that needed the keys that are marked.
    pub fn grow(&mut self, marks: &[bool])
        requires beside { length marks.now ≡ length self.old.ages.items }
        ensures keys { self.new.keys ≡ self.old.keys }
        ensures ages { self.new.ages.items ≡ ages_after marks.now self.old.ages.items }
    {
        for at in 0..marks.len() {
            let age = self.ages[at];
            self.ages[at] = age_after(marks[at], age);
        }
    }
}

/// An age after a command, by whether that needed the key.
fn age_after(mark: bool, age: Option<u32>) -> Option<u32>
    ensures value { result ≡ age_after mark age }
{
    match age {
        _ if mark => Some(0),
        Some(age) if age < OLDEST => Some(age + 1),
        _ => None,
    }
}

/// Whether a key is too old after a command, by whether that needed it.
pub fn is_too_old(mark: bool, age: Option<u32>) -> bool
    ensures value { result ≡ is_too_old mark age }
{
    match age {
        Some(age) => !mark && age >= OLDEST,
        None => false,
    }
}
