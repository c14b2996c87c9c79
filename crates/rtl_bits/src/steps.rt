//! A counter of steps, which must be kept: it has no drop.

ghost use Rattle.std.specs.Prelude.{◌≡◌};
ghost use Rattle.rtl_bits.specs.Counts.{risen};

use std::marker::{Model, PhantomData};

/// A counter of steps. `L` is its name: only counters of one name are joined, and generic code, which has no value of
/// the name, makes no counter but a part of one that it was lent. Contracts see its number.
pub struct Steps<L> {
    count: u64,
    name: PhantomData<L>,
}

impl<L> Model for Steps<L> {
    ghost use Rattle.std.specs.Prelude.{ℕ};

    ghost Value = { ℕ };

    ghost view = { λ s. s.count };
}

impl<L> Steps<L> {
    /// A counter that stands at 0.
    pub fn make(_name: &L) -> Steps<L>
        ensures value { result ≡ 0 }
    {
        Steps {
            count: 0,
            name: PhantomData,
        }
    }

    /// Adds one. At its last value, 2^64 - 1, the counter stays.
    pub fn tick(&mut self)
        ensures risen { self.new ≡ risen self.old 1 }
    {
        self.count = self.count.saturating_add(1);
    }

    /// A further counter of the same name, which stands at 0; it is to be joined again.
    pub fn part(&mut self) -> Steps<L>
        ensures value { result ≡ 0 }
        ensures kept { self.new ≡ self.old }
    {
        Steps {
            count: 0,
            name: PhantomData,
        }
    }

    /// Adds what the part counted, and ends the part.
    pub fn join(&mut self, part: Steps<L>)
        ensures risen { self.new ≡ risen self.old part }
    {
        let Steps { count, name: _ } = part;
        self.count = self.count.saturating_add(count);
    }

    /// The number of steps; the counter ends.
    pub fn end(self, _name: &L) -> u64
        ensures value { result ≡ self }
    {
        let Steps { count, name: _ } = self;
        count
    }
}
