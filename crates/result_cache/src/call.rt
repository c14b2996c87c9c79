//! Calls as the history of a shard has them, and what is kept of a key.

use rtl_bits::Text;

/// A call and its reply. A value is told by its number: how many calls came before the one that filled it.
#[derive(Clone, Copy)]
pub enum Act {
    /// The key was claimed, and is filled with the value of this number.
    Hit(u64),
    /// The key was claimed, and this seat holds it.
    Busy(u32),
    /// The key was claimed, and the seat holds it from now on.
    Yours,
    /// The key was filled with the value of this number.
    Fill(u64),
    /// The key was given back, and is free.
    GiveBack,
    /// The value of this number was given up, and the key is free.
    Forget(u64),
}

/// A call of a seat on a key. Contracts speak of it; a shard stores an `Entry`.
pub struct Call {
    pub seat: u32,
    pub key: Text,
    pub act: Act,
}

/// A call as it is stored: its key is told by its place among the shard's keys.
#[derive(Clone, Copy)]
pub struct Entry {
    pub seat: u32,
    pub place: usize,
    pub act: Act,
}

/// What is kept of a key.
#[derive(Drop)]
pub enum Kept<V> {
    /// No seat holds the key, and it has no value.
    Free,
    /// This seat holds the key.
    Held(u32),
    /// The key has this value, whose number stands beside it.
    Filled(u64, V),
}
