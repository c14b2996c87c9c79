//! What was made of something, and whether it is as it was.

ghost use Rattle.std.specs.Prelude.{◌≡◌, ◌&&◌, true, length};

use rtl_bits::Seq;

/// What was made of something, and whether it is as it was.
#[derive(Drop)]
pub(crate) struct Turned<T> {
    pub(crate) value: T,
    pub(crate) is_same: bool,
}

/// Whether both hold.
pub(crate) fn both(one: bool, two: bool) -> bool
    ensures value { result ≡ (one && two) }
{
    one && two
}

/// Whether all three hold.
pub(crate) fn are_all(one: bool, two: bool, three: bool) -> bool
    ensures value { result ≡ (one && two && three) }
{
    one && two && three
}

/// How many items the list has.
pub(crate) fn count_of<T>(items: &Seq<T>) -> usize
    ensures value { result ≡ length items.now }
{
    items.as_slice().len()
}

/// Whether the list has so many items.
pub(crate) fn has_count<T>(items: &Seq<T>, count: usize) -> bool
    ensures equal { result ≡ true → length items.now ≡ count }
{
    count_of(items) == count
}
