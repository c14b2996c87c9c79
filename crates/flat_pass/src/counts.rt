//! How often names stand in a module.

ghost use Rattle.std.specs.Prelude.{◌≡◌, ◌+◌, ◌-◌, ℕ, List, OnOk, map};
ghost use Rattle.flat_pass.specs.Counts.{Counted, count_of, times};

use rtl_bits::Memory;
use std::alloc::Global;
use std::collections::HashMap;

/// How often each name stands. A count and no mere set, so that a name is free again once what has it is gone.
#[derive(Drop)]
pub(crate) struct Counts {
    alloc: Global,
    found: HashMap<Vec<u8>, u32>,
}

impl Counts {
    /// No name stands.
    pub(crate) fn make(alloc: Global) -> Counts
        ensures none { (name : List ℕ) → count_of result name ≡ 0 }
    {
        Counts {
            alloc,
            found: HashMap::new(alloc),
        }
    }

    /// How often the name stands. It takes no memory.
    pub(crate) fn get(&self, name: &[u8]) -> u32
        ensures value { result ≡ count_of self.now name.now }
    {
        self.found.get(name).copied().unwrap_or(0)
    }

    /// The name stands so often.
    fn set(&mut self, name: &[u8], count: u32) -> Result<(), Memory>
        ensures ok { OnOk result (Counted self.old self.new name.now count) }
    {
        let key = Vec::from_slice(self.alloc, name)?;
        self.found.insert(key, count)?;
        Ok(())
    }

    /// The name stands once more. More than 2^32 times are answered with `Memory`.
    pub(crate) fn add(&mut self, name: &[u8]) -> Result<(), Memory>
        ensures ok { OnOk result (Counted self.old self.new name.now (count_of self.old name.now + 1)) }
    {
        let count = self.get(name).checked_add(1).ok_or(Memory)?;
        self.set(name, count)
    }

    /// The names stand once more each.
    pub(crate) fn add_all(&mut self, names: &[&[u8]]) -> Result<(), Memory>
        ensures ok { OnOk result ((name : List ℕ) →
            count_of self.new name ≡ count_of self.old name + times (map (λ n. n.now) names.now) name) }
    {
        for name in names {
            self.add(name)?;
        }
        Ok(())
    }

    /// The name stands once less.
    pub(crate) fn remove(&mut self, name: &[u8]) -> Result<(), Memory>
        ensures ok { OnOk result (Counted self.old self.new name.now (count_of self.old name.now - 1)) }
    {
        let count = self.get(name).saturating_sub(1);
        self.set(name, count)
    }
}
