//! A stack.

ghost use Rattle.std.specs.Prelude.{◌≡◌, [], ◌∷◌, ◌++◌, OnOk, MatchOption, length, reverse};

use rtl_bits::Memory;
use std::alloc::Global;
use std::marker::Model;

/// A stack, which contracts see as a list with its top first.
#[derive(Drop)]
pub struct Stack<T> {
    items: Vec<T>,
}

impl<T> Model for Stack<T> {
    ghost use Rattle.std.specs.Prelude.{List, reverse};

    ghost Value = { List T };

    ghost view = { λ stack. reverse stack.items.items };
}

impl<T> Stack<T> {
    /// The empty stack. It takes no memory.
    pub(crate) fn make(alloc: Global) -> Stack<T>
        ensures value { result ≡ [] }
    {
        Stack {
            items: Vec::new(alloc),
        }
    }

    /// How many items there are.
    pub(crate) fn depth(&self) -> usize
        ensures value { result ≡ length self.now }
    {
        self.items.len()
    }

    /// Puts an item on top.
    #[tactic(auto, using(crate::proofs::Stacks::reverse_last))]
    pub(crate) fn push(&mut self, item: T) -> Result<(), Memory>
    where
        T: Drop,
        ensures ok { OnOk result (self.new ≡ item ∷ self.old) }
    {
        self.items.push(item)?;
        Ok(())
    }

    /// Takes the top off, if there is one.
    #[tactic(auto, using(crate::proofs::Stacks::reverse_last, crate::proofs::Stacks::none_left))]
    pub(crate) fn pop(&mut self) -> Option<T>
        ensures value { MatchOption result ((self.old ≡ []) × (self.new ≡ [])) (λ top. self.old ≡ top ∷ self.new) }
    {
        self.items.pop()
    }

    /// Takes all items off. Their room stays.
    pub(crate) fn clear(&mut self)
    where
        T: Drop,
        ensures value { self.new ≡ [] }
    {
        self.items.clear();
    }

    /// The items from the top down, without taking memory.
    pub(crate) fn into_vec(self) -> Vec<T>
        ensures value { result.items ≡ self }
    {
        let Stack { mut items } = self;
        items.reverse();
        items
    }
}

impl<T: Copy + Drop> Stack<T> {
    /// Puts these items on top, the first of them last.
    #[tactic(auto, using(crate::proofs::Stacks::drop_here))]
    pub(crate) fn cover(&mut self, items: &[T]) -> Result<(), Memory>
        ensures ok { OnOk result (self.new ≡ items.now ++ self.old) }
    {
        for at in (0..items.len()).rev() {
            self.push(items[at])?;
        }
        Ok(())
    }

    /// Puts these items on top, one after another.
    #[tactic(auto, using(crate::proofs::Stacks::reverse_more))]
    pub(crate) fn raise(&mut self, items: &[T]) -> Result<(), Memory>
        ensures ok { OnOk result (self.new ≡ reverse items.now ++ self.old) }
    {
        for item in items {
            self.push(*item)?;
        }
        Ok(())
    }
}
