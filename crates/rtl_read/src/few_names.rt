//! The names of the parts of one item.

ghost use Rattle.std.specs.Prelude.{◌≡◌, [], ◌++◌, IfOk, OnOk, is_some, not};
ghost use Rattle.std.specs.List.{position};
ghost use Rattle.std.specs.Str.{bytes_eq};
ghost use Rattle.rtl_sig.specs.Names.{next_number_of, number_of, with_name};

use rtl_bits::{Copied, Memory, Text};
use rtl_sig::Names;
use std::alloc::Global;
use std::marker::Model;

/// How many names are compared one by one.
const FEW: usize = 16;

/// The names of the parts of one item, each once, in the order in which they came. The first of them are compared one
/// by one, which is faster than a table while they are few; those after them are looked up in one.
#[derive(Drop)]
pub struct FewNames {
    first: Vec<Text>,
    others: Names,
}

impl Model for FewNames {
    ghost use Rattle.std.specs.Prelude.{ℕ, List, ◌++◌};

    ghost Value = { List (List ℕ) };

    ghost view = { λ names. names.first.items ++ names.others };
}

impl FewNames {
    /// No names. It takes no memory.
    pub(crate) fn make(alloc: Global) -> FewNames
        ensures value { result ≡ [] }
    {
        FewNames {
            first: Vec::new(alloc),
            others: Names::make(alloc),
        }
    }

    /// Takes all names away. The room of the first of them stays.
    pub(crate) fn clear(&mut self, alloc: Global)
        ensures value { self.new ≡ [] }
    {
        self.first.clear();
        self.others = Names::make(alloc);
    }

    /// Puts the name last where it is new, and tells whether it was.
    pub(crate) fn put_new(&mut self, name: &Text) -> Result<bool, Memory>
        ensures new { IfOk result (λ new. new ≡ not (is_some (number_of self.old name.now))) }
        ensures names { OnOk result (self.new ≡ with_name self.old name.now) }
    {
        let bytes = name.as_slice();
        if let Some(_at) = place_of(self.first.as_slice(), bytes) {
            return Ok(false);
        }
        if self.first.len() < FEW && self.others.count() == 0 {
            self.first.push(name.copy()?)?;
            return Ok(true);
        }
        let new = put_new(&mut self.others, bytes)?;
        Ok(new)
    }

    /// The number of the name, which is put last where it is new.
    pub(crate) fn intern(&mut self, alloc: Global, name: &[u8]) -> Result<usize, Memory>
        ensures number { IfOk result (λ number. number ≡ next_number_of self.old name.now) }
        ensures names { OnOk result (self.new ≡ with_name self.old name.now) }
    {
        if let Some(at) = place_of(self.first.as_slice(), name) {
            return Ok(at);
        }
        let count = self.first.len();
        if count < FEW && self.others.count() == 0 {
            self.first.push(Text::from_slice(alloc, name)?)?;
            return Ok(count);
        }
        let id = self.others.intern(name)?;
        count.checked_add(id.index).ok_or(Memory)
    }
}

/// Puts the name last where it is new, and tells whether it was.
pub(crate) fn put_new(names: &mut Names, name: &[u8]) -> Result<bool, Memory>
    ensures new { IfOk result (λ new. new ≡ not (is_some (number_of names.old name.now))) }
    ensures names { OnOk result (names.new ≡ with_name names.old name.now) }
{
    let known = names.count();
    let id = names.intern(name)?;
    Ok(id.index >= known)
}

/// The place of the name among these.
fn place_of(names: &[Text], name: &[u8]) -> Option<usize>
    ensures value { result ≡ position (bytes_eq name.now) names.now }
{
    for at in 0..names.len() {
        if is_same(name, names[at].as_slice()) {
            return Some(at);
        }
    }
    None
}

/// Whether the two names are the same.
fn is_same(one: &[u8], other: &[u8]) -> bool
    ensures value { result ≡ bytes_eq one.now other.now }
{
    one == other
}
