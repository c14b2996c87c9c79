//! What the copies of an instance's cells go by.

ghost use Rattle.std.specs.Prelude.{◌≡◌, length};
ghost use Rattle.flat_pass.specs.ByName.{ArePlaces, names_now};

use crate::by_name::ByName;
use rtl_bits::{Seq, Text};

/// What the copies of an instance's cells go by.
#[derive(Drop)]
pub(crate) struct Renames<'a> {
    /// The name of the instance.
    pub(crate) instance: &'a [u8],
    /// The place of the first copied wire.
    pub(crate) first: u32,
    /// The names of the child's memories.
    pub(crate) memories: Vec<&'a [u8]>,
    /// The same by their places.
    pub(crate) places: ByName<'a>,
    /// The names of their copies.
    pub(crate) copies: Seq<Text>,
    ghost placed: { ArePlaces places (names_now memories.items) },
    ghost paired: { length copies ≡ length memories.items },
}
