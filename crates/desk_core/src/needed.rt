//! What a command needs of the kept keys that needs the netlist.

ghost use Rattle.std.specs.Prelude.{◌≡◌, ◌+◌, ◌*◌, ◌≤◌, ◌<◌, IfOk, OnOk, length, slice_get, map, Some};
ghost use Rattle.std.specs.List.{All};
ghost use Rattle.script_core.specs.Keys.{key_text};
ghost use Rattle.desk_core.specs.Ages.{AreYoung, kept_in};
ghost use Rattle.desk_core.specs.Needed.{IsNeeded, is_new_place, new_places, places_marked, too_old};

use crate::ages::{Ages, is_too_old};
use rtl_bits::{Memory, Text};
use rtl_sig::NameId;
use script_core::Key;
use std::alloc::Global;

/// What a command needs of the kept keys.
#[derive(Drop)]
pub struct Needed {
    /// Of the key at each place, whether it is needed.
    pub marks: Vec<bool>,
    /// How many of the needed keys are not kept.
    pub built: usize,
    /// The keys that are too old after it.
    pub too_old: Vec<Text>,
}

/// The places of these keys, in their order.
fn places_of(alloc: Global, all: &[Key], ages: &mut Ages) -> Result<Vec<usize>, Memory>
    requires beside { length ages.old.ages.items ≡ length ages.old.keys }
    ensures beside { length ages.new.ages.items ≡ length ages.new.keys }
    ensures kept { kept_in ages.new.keys ages.new.ages.items ≡ kept_in ages.old.keys ages.old.ages.items }
    ensures young { AreYoung ages.old.ages.items → AreYoung ages.new.ages.items }
    ensures few { OnOk result (length ages.new.keys ≤ length ages.old.keys + length all.now) }
    ensures places { IfOk result (λ places.
        map (slice_get ages.new.keys) places.items ≡ map Some (map key_text all.now)) }
{
    let mut places = Vec::with_capacity(alloc, all.len())?;
    for key in all {
        let text = key.text()?;
        places.push(ages.place(&text)?)?;
    }
    Ok(places)
}

/// Of so many places, whether each is one of these.
fn marks_of(alloc: Global, places: &[usize], count: usize) -> Result<Vec<bool>, Memory>
    requires within { All (λ place. place < count) places.now }
    ensures value { IfOk result (λ marks. marks.items ≡ places_marked places.now count) }
{
    let mut marks = vec![in alloc; false; count]?;
    for place in places {
        marks[*place] = true;
    }
    Ok(marks)
}

/// Whether a place counts as new: it is marked and has no age.
fn is_new_place(mark: bool, age: Option<u32>) -> bool
    ensures value { result ≡ is_new_place mark age }
{
    mark && age.is_none()
}

/// How many of the marked places have no age.
fn count_new(marks: &[bool], ages: &[Option<u32>]) -> usize
    ensures value { result ≡ new_places marks.now ages.now }
{
    let mut count = 0;
    for at in 0..marks.len().min(ages.len()) {
        if is_new_place(marks[at], ages[at]) {
            count += 1;
        }
    }
    count
}

/// The keys that are too old after a command that needs the marked ones.
fn too_old(alloc: Global, marks: &[bool], ages: &Ages) -> Result<Vec<Text>, Memory>
    requires beside { length ages.now.ages.items ≡ length ages.now.keys }
    requires marks { length marks.now ≡ length ages.now.keys }
    ensures value { IfOk result (λ keys. keys.items ≡ too_old marks.now ages.now.keys ages.now.ages.items) }
{
    let mut keys = Vec::new(alloc);
    for index in 0..marks.len() {
        if is_too_old(marks[index], ages.ages[index]) {
            keys.push(ages.keys.shared(NameId { index })?)?;
        }
    }
    Ok(keys)
}

/// What a command needs that needs these keys. It leaves the kept keys as they are, and the table of the ages no longer
/// than their number and that of the keys call for.
pub fn needed_by(alloc: Global, all: &[Key], ages: &mut Ages) -> Result<Needed, Memory>
    requires beside { length ages.old.ages.items ≡ length ages.old.keys }
    ensures beside { length ages.new.ages.items ≡ length ages.new.keys }
    ensures kept { kept_in ages.new.keys ages.new.ages.items ≡ kept_in ages.old.keys ages.old.ages.items }
    ensures young { AreYoung ages.old.ages.items → AreYoung ages.new.ages.items }
    ensures few { OnOk result (length ages.new.keys ≤ 16 + 2 * length (kept_in ages.old.keys ages.old.ages.items)
        + length all.now) }
    ensures needed { IfOk result (IsNeeded (map key_text all.now) ages.new) }
{
    ages.compact(alloc)?;
    let places = places_of(alloc, all, ages)?;
    let marks = marks_of(alloc, places.as_slice(), ages.keys.count())?;
    let built = count_new(marks.as_slice(), ages.ages.as_slice());
    let too_old = too_old(alloc, marks.as_slice(), ages)?;
    Ok(Needed {
        marks,
        built,
        too_old,
    })
}
