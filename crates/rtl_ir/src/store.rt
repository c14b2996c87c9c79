//! Memories.

use crate::value::Attribute;
use rtl_bits::{Copied, Memory, Seq, Text};

/// A memory: `size` words of `width` bits, at the addresses from `offset` on.
#[derive(Drop)]
pub struct Store {
    pub name: Text,
    pub width: u32,
    pub size: i32,
    pub offset: i32,
    pub attributes: Seq<Attribute>,
}

impl Copied for Store {
    fn copy(&self) -> Result<Store, Memory> {
        Ok(Store {
            name: self.name.copy()?,
            width: self.width,
            size: self.size,
            offset: self.offset,
            attributes: self.attributes.copy()?,
        })
    }
}
