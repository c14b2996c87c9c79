//! Names and their numbers.

use rtl_bits::{Copied, Memory};
use rtl_sig::Names;
use std::alloc::Global;
use table_rows::str_of;

/// The names that were seen, in order.
fn names_of(alloc: Global, seen: &[&[u8]]) -> Result<Names, Memory> {
    let mut names = Names::make(alloc);
    for name in seen {
        names.intern(name)?;
    }
    Ok(names)
}

/// Whether the name is found at the number, and the number has the name.
fn is_found(names: &Names, name: &[u8], number: usize) -> bool {
    match names.find(name) {
        Some(id) => id.index == number && names.text(id) == name,
        None => false,
    }
}

/// Whether the name, found or not before, gets the number, and a copy of the names has it there.
fn gets(mut names: Names, name: &[u8], number: usize) -> Result<bool, Memory> {
    let before = names.count();
    let is_seen = names.find(name).is_some();
    let is_at = names.intern(name)?.index == number;
    let is_counted = names.count() == before.max(number.saturating_add(1));
    let is_new = number == before;
    Ok(is_at && is_counted && is_seen != is_new && is_found(&names.copy()?, name, number))
}

/// Whether a name gets its number after the names that were seen.
pub fn is_numbered(alloc: Global, fields: &[&[u8]]) -> Result<bool, Memory> {
    let [_, name, number, seen @ ..] = fields else {
        return Ok(false);
    };
    match str_of(number).parse::<usize>() {
        Ok(number) => gets(names_of(alloc, seen)?, name, number),
        Err(_) => Ok(false),
    }
}

/// A name that is made of a number.
fn name_of(alloc: Global, number: usize) -> Result<String, Memory> {
    Ok(format!(in alloc; "$n${number}")?)
}

/// The names of the numbers below this one, each with its number.
fn names_below(alloc: Global, count: usize) -> Result<Option<Names>, Memory> {
    let mut names = Names::make(alloc);
    for number in 0..count {
        if names.intern(name_of(alloc, number)?.as_bytes())?.index != number {
            return Ok(None);
        }
    }
    Ok(Some(names))
}

/// Whether 100,000 names have their numbers, and one more is not found.
pub fn are_many(alloc: Global) -> Result<bool, Memory> {
    let Some(names) = names_below(alloc, 100_000)? else {
        return Ok(false);
    };
    for number in 0..100_000usize {
        if !is_found(&names, name_of(alloc, number)?.as_bytes(), number) {
            return Ok(false);
        }
    }
    Ok(names.find(name_of(alloc, 100_000)?.as_bytes()).is_none())
}
