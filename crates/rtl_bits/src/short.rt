//! Texts of a bounded length.

ghost use Rattle.std.specs.Prelude.{◌≡◌, ◌+◌, ◌<◌, ◌≤◌, ◌↔◌, [], ◌++◌, IsTrue, length};

use std::marker::Model;

/// Up to `N` bytes, where `N` is below 256.
#[derive(Drop)]
pub(crate) struct Short<const N: usize> {
    count: u8,
    places: [u8; N],
}

impl<const N: usize> Model for Short<N> {
    ghost use Rattle.std.specs.Prelude.{ℕ, ◌≤◌, List, take};

    ghost Value = { List ℕ };

    ghost view = { λ short. take short.count short.places };

    ghost invariant = { λ short. short.count ≤ N };
}

impl<const N: usize> Short<N> {
    /// No bytes.
    pub(crate) fn make() -> Short<N>
        ensures value { result ≡ [] }
    {
        Short {
            count: 0,
            places: [0; N],
        }
    }

    /// The bytes in order.
    pub(crate) fn as_slice(&self) -> &[u8]
        ensures value { result.now ≡ self.now }
    {
        let places = &self.places[..];
        &places[..self.count as usize]
    }

    /// Whether there is room for so many more bytes.
    pub(crate) fn has_room(&self, more: usize) -> bool
        ensures value { IsTrue result ↔ (length self.now + more ≤ N) }
    {
        more <= N - self.count as usize
    }

    /// Appends the bytes.
    pub(crate) fn extend(&mut self, more: &[u8])
        requires small { N < 256 }
        requires room { length self.old + length more.now ≤ N }
        ensures value { self.new ≡ self.old ++ more.now }
    {
        let from = self.count as usize;
        let to = from + more.len();
        let places = &mut self.places[..];
        places[from..to].copy_from_slice(more);
        self.count = to as u8;
    }

    /// An equal text.
    pub(crate) fn copy(&self) -> Short<N>
        ensures value { result ≡ self.now }
    {
        Short {
            count: self.count,
            places: self.places,
        }
    }
}
