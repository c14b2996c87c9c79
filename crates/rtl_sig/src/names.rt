//! Names and their numbers.

ghost use Rattle.std.specs.Prelude.{◌≡◌, ◌<◌, [], Some, IfOk, IfSome, OnErr, OnOk, is_some, length, slice_get};
ghost use Rattle.std.specs.Option.{option_map};
ghost use Rattle.rtl_sig.specs.Names.{has_name, number_of, next_number_of, with_name, AreDistinct};

use crate::sought::Sought;
use indexmap::IndexSet;
use rtl_bits::{Copied, Memory, Text};
use std::alloc::Global;
use std::marker::Model;

/// The number of a name: how many others were seen before it.
#[derive(Clone, Copy, Debug, PartialEq, Eq, PartialOrd, Ord, Hash)]
pub struct NameId {
    pub index: usize,
}

/// The names that were seen, each once, in the order in which they came. A name is any bytes.
#[derive(Drop)]
pub struct Names {
    seen: IndexSet<Text>,
}

impl Model for Names {
    ghost use Rattle.std.specs.Prelude.{ℕ, List};

    ghost Value = { List (List ℕ) };

    ghost view = { λ names. names.seen.keys };
}

impl Names {
    /// No names. It takes no memory.
    pub fn make(alloc: Global) -> Names
        ensures value { result ≡ [] }
    {
        Names {
            seen: IndexSet::new(alloc),
        }
    }

    /// How many names there are.
    pub fn count(&self) -> usize
        ensures value { result ≡ length self.now }
        ensures distinct { AreDistinct self.now }
    {
        self.seen.len()
    }

    /// The number of the name, which is put last where it is new. A known name takes no memory. After an
    /// error the names are as before.
    pub fn intern(&mut self, name: &[u8]) -> Result<NameId, Memory>
        ensures number { IfOk result (λ id. id.index ≡ next_number_of self.old name.now) }
        ensures names { OnOk result (self.new ≡ with_name self.old name.now) }
        ensures within { IfOk result (λ id. id.index < length self.new) }
        ensures text { IfOk result (λ id. slice_get self.new id.index ≡ Some name.now) }
        ensures err { OnErr result (self.new ≡ self.old) }
    {
        if let Some(id) = self.find(name) {
            return Ok(id);
        }
        let name = Text::from_slice(*self.seen.allocator(), name)?;
        self.put(name)
    }

    /// As `intern`. Of a new name of more than 39 bytes the bytes are shared, not copied.
    pub fn intern_text(&mut self, name: &Text) -> Result<NameId, Memory>
        ensures number { IfOk result (λ id. id.index ≡ next_number_of self.old name.now) }
        ensures names { OnOk result (self.new ≡ with_name self.old name.now) }
        ensures within { IfOk result (λ id. id.index < length self.new) }
        ensures text { IfOk result (λ id. slice_get self.new id.index ≡ Some name.now) }
        ensures err { OnErr result (self.new ≡ self.old) }
    {
        if let Some(id) = self.find(name.as_slice()) {
            return Ok(id);
        }
        self.put(name.copy()?)
    }

    /// The number of the name, which is put last where it is new. After an error the names are as before.
    fn put(&mut self, name: Text) -> Result<NameId, Memory>
        ensures number { IfOk result (λ id. id.index ≡ next_number_of self.old name) }
        ensures names { OnOk result (self.new ≡ with_name self.old name) }
        ensures within { IfOk result (λ id. id.index < length self.new) }
        ensures text { IfOk result (λ id. slice_get self.new id.index ≡ Some name) }
        ensures err { OnErr result (self.new ≡ self.old) }
    {
        let (index, _) = self.seen.insert_full(name)?;
        Ok(NameId { index })
    }

    /// The number of the name, or `None` where it was not seen. It takes no memory.
    pub fn find(&self, name: &[u8]) -> Option<NameId>
        ensures found { is_some result ≡ has_name self.now name.now }
        ensures number { option_map (λ id. id.index) result ≡ number_of self.now name.now }
        ensures within { IfSome result (λ id. id.index < length self.now) }
        ensures text { IfSome result (λ id. slice_get self.now id.index ≡ Some name.now) }
    {
        let index = self.seen.get_index_of(Sought { name })?;
        Some(NameId { index })
    }

    /// The name of this number.
    pub fn text(&self, id: NameId) -> &[u8]
        requires in_range { id.index < length self.now }
        ensures value { slice_get self.now id.index ≡ Some result.now }
    {
        self.seen.as_slice()[id.index].as_slice()
    }

    /// The name of this number. Where it has more than 39 bytes, these are shared, not copied.
    pub fn shared(&self, id: NameId) -> Result<Text, Memory>
        requires in_range { id.index < length self.now }
        ensures value { IfOk result (λ text. slice_get self.now id.index ≡ Some text) }
    {
        self.seen.as_slice()[id.index].copy()
    }
}

impl Copied for Names {
    fn copy(&self) -> Result<Names, Memory> {
        let mut copy = Names::make(*self.seen.allocator());
        for name in self.seen.as_slice() {
            copy.intern_text(name)?;
        }
        Ok(copy)
    }
}
