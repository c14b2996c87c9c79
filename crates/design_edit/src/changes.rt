//! Modules that take the places of those of their names, and the way back.

ghost use Rattle.std.specs.Prelude.{◌≡◌, ◌<◌, ◌≤◌, ℕ, [], Err, IfOk, OnErr, OnOk, length, slice_index_or, slice_set};
ghost use Rattle.std.specs.Vec.{vec_capacity};
ghost use Rattle.rtl_ir.specs.declared.module.Module.{Module};
ghost use Rattle.design_edit.specs.Changes.{before_at, before_changes};
ghost use Rattle.design_edit.specs.Modules.{PassesAt, place_for, places_for, with_module, with_modules};

use crate::placement::{PlaceFault, places_for};
use rtl_bits::Seq;
use rtl_ir::Module;
use rtl_ir::limits::MAX_MODULES;
use std::alloc::Global;
use std::mem;

/// A module was put at a place among others.
#[derive(Drop)]
pub struct Change {
    pub at: usize,
    /// What stood there; nothing where the module came last.
    pub old: Option<Module>,
}

/// Puts a module at the place that it takes among others, and gives what stood there.
fn put_module(modules: &mut Vec<Module>, at: usize, new: Module) -> Option<Module>
    requires place { at ≡ place_for modules.old.items new.id }
    requires room { length (with_module modules.old.items new) ≤ vec_capacity modules.old }
    ensures value { modules.new.items ≡ with_module modules.old.items new }
    ensures back { before_at at result modules.new.items ≡ modules.old.items }
    ensures capacity { vec_capacity modules.new ≡ vec_capacity modules.old }
{
    if at < modules.len() {
        let old = replace_at(modules, at, new);
        return Some(old);
    }
    modules.push_reserved(new);
    None
}

/// Puts a module at a place, and gives the one that stood there.
fn replace_at(modules: &mut Vec<Module>, at: usize, new: Module) -> Module
    requires in_range { at < length modules.old.items }
    ensures value { modules.new.items ≡ slice_set modules.old.items at new }
    ensures old { result ≡ slice_index_or modules.old.items at result }
    ensures capacity { vec_capacity modules.new ≡ vec_capacity modules.old }
{
    mem::replace(&mut modules[at], new)
}

/// Puts each of the modules at its place, and adds how to take that back.
fn put_all(
    modules: &mut Vec<Module>,
    edits: Vec<Module>,
    places: &[usize],
    changes: &mut Vec<Change>,
)
    requires places { places.now ≡ places_for modules.old.items edits.items }
    requires none { changes.old.items ≡ [] }
    requires room { length (with_modules modules.old.items edits.items) ≤ vec_capacity modules.old }
    requires notes { length edits.items ≤ vec_capacity changes.old }
    ensures value { modules.new.items ≡ with_modules modules.old.items edits.items }
    ensures back { before_changes changes.new.items modules.new.items ≡ modules.old.items }
{
    let mut number = 0;
    for edit in edits {
        let at = places[number];
        let old = put_module(modules, at, edit);
        changes.push_reserved(Change { at, old });
        number += 1;
    }
}

/// Puts each of these modules in the place of the one of its name, or at the end, and gives what takes that back. No
/// module is copied. After an error the modules are as before.
pub fn put_modules(
    alloc: Global,
    modules: &mut Vec<Module>,
    edits: Seq<Module>,
) -> Result<Vec<Change>, PlaceFault>
    requires few { length modules.old.items ≤ MAX_MODULES }
    ensures value { OnOk result (modules.new.items ≡ with_modules modules.old.items edits) }
    ensures count { OnOk result (length modules.new.items ≤ MAX_MODULES) }
    ensures back { IfOk result (λ changes. before_changes changes.items modules.new.items ≡ modules.old.items) }
    ensures past { (at : ℕ) → result ≡ Err (PlaceFault.Past at) → PassesAt modules.old.items edits at }
    ensures err { OnErr result (modules.new.items ≡ modules.old.items) }
{
    let placing = places_for(alloc, modules.as_slice(), edits.as_slice())?;
    let mut changes = Vec::with_capacity(alloc, placing.places.len())?;
    modules.reserve(placing.count - modules.len())?;
    put_all(
        modules,
        edits.into_vec(),
        placing.places.as_slice(),
        &mut changes,
    );
    Ok(changes)
}

/// Takes changes back, the last one first. It takes no memory.
pub fn take_back(modules: &mut Vec<Module>, changes: Vec<Change>)
    ensures value { modules.new.items ≡ before_changes changes.items modules.old.items }
{
    let mut changes = changes;
    while let Some(change) = changes.pop() {
        take_one_back(modules, change);
    }
}

/// Takes a change back.
fn take_one_back(modules: &mut Vec<Module>, change: Change)
    ensures value { modules.new.items ≡ before_at change.at change.old modules.old.items }
{
    let Change { at, old } = change;
    match old {
        Some(old) => set_at(modules, at, old),
        None => modules.truncate(at),
    }
}

/// Puts a module at the place, where there is one.
fn set_at(modules: &mut Vec<Module>, at: usize, module: Module)
    ensures value { modules.new.items ≡ slice_set modules.old.items at «module» }
{
    if at < modules.len() {
        modules[at] = module;
    }
}
