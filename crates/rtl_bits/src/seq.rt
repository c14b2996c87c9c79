//! The list that the records are made of.

ghost use Rattle.std.specs.Prelude.{◌≡◌, List, [], ◌∷◌, ◌++◌, IfOk, OnErr, OnOk};

use crate::bit::Bit;
use crate::memory::Memory;
use std::alloc::Global;
use std::marker::Model;

/// A value of which there can be a second one that equals it.
pub trait Copied: Sized + Drop {
    /// An equal value.
    fn copy(&self) -> Result<Self, Memory>
        ensures value { IfOk result (λ copy. copy ≡ self.now) };

    /// An equal list of such values.
    fn copy_all(items: &[Self], alloc: Global) -> Result<Vec<Self>, Memory>
        ensures value { IfOk result (λ copies. copies.items ≡ items.now) }
    {
        let mut copies = Vec::with_capacity(alloc, items.len())?;
        for item in items {
            copies.push(item.copy()?)?;
        }
        Ok(copies)
    }
}

impl Copied for u8 {
    fn copy(&self) -> Result<u8, Memory> {
        Ok(*self)
    }

    fn copy_all(items: &[u8], alloc: Global) -> Result<Vec<u8>, Memory> {
        Ok(Vec::from_slice(alloc, items)?)
    }
}

impl Copied for u32 {
    fn copy(&self) -> Result<u32, Memory> {
        Ok(*self)
    }

    fn copy_all(items: &[u32], alloc: Global) -> Result<Vec<u32>, Memory> {
        Ok(Vec::from_slice(alloc, items)?)
    }
}

impl Copied for Bit {
    fn copy(&self) -> Result<Bit, Memory> {
        Ok(*self)
    }

    fn copy_all(items: &[Bit], alloc: Global) -> Result<Vec<Bit>, Memory> {
        Ok(Vec::from_slice(alloc, items)?)
    }
}

/// A list, which contracts see as one. It keeps the allocator that it was made with.
#[derive(Drop)]
pub struct Seq<T> {
    items: Vec<T>,
}

impl<T> Model for Seq<T> {
    ghost Value = { List T };

    ghost view = { λ seq. seq.items.items };
}

impl<T> Seq<T> {
    /// The empty list. It takes no memory.
    pub fn make(alloc: Global) -> Seq<T>
        ensures value { result ≡ [] }
    {
        Seq {
            items: Vec::new(alloc),
        }
    }

    /// The list of these items, without taking memory.
    pub fn from_vec(items: Vec<T>) -> Seq<T>
        ensures value { result ≡ items.items }
    {
        Seq { items }
    }

    /// The items, without taking memory.
    pub fn into_vec(self) -> Vec<T>
        ensures value { result.items ≡ self }
    {
        let Seq { items } = self;
        items
    }

    /// Puts the item last. After an error the list is as before.
    pub fn push(&mut self, item: T) -> Result<(), Memory>
    where
        T: Drop,
        ensures ok { OnOk result (self.new ≡ self.old ++ item ∷ []) }
        ensures err { OnErr result (self.new ≡ self.old) }
    {
        self.items.push(item)?;
        Ok(())
    }

    /// The items in order.
    pub fn as_slice(&self) -> &[T]
        ensures value { result.now ≡ self.now }
    {
        self.items.as_slice()
    }

    /// The allocator that the list keeps. No clause speaks of it, since a list's value is its items alone.
    pub fn allocator(&self) -> Global {
        *self.items.allocator()
    }
}

impl<T: Copied> Copied for Seq<T> {
    fn copy(&self) -> Result<Seq<T>, Memory> {
        let items = T::copy_all(self.items.as_slice(), *self.items.allocator())?;
        Ok(Seq { items })
    }
}

impl<T: Copy> Seq<T> {
    /// The list of these items.
    pub fn from_slice(alloc: Global, items: &[T]) -> Result<Seq<T>, Memory>
        ensures value { IfOk result (λ seq. seq ≡ items.now) }
    {
        let items = Vec::from_slice(alloc, items)?;
        Ok(Seq { items })
    }

    /// Puts the items last, in order. After an error the list is as before.
    pub fn extend(&mut self, items: &[T]) -> Result<(), Memory>
        ensures ok { OnOk result (self.new ≡ self.old ++ items.now) }
        ensures err { OnErr result (self.new ≡ self.old) }
    {
        self.items.extend_from_slice(items)?;
        Ok(())
    }
}
