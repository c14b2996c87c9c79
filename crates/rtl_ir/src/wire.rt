//! Wires.

use crate::value::Attribute;
use rtl_bits::{Copied, Memory, Seq, Text};

/// What a wire is to the outside of its module.
#[derive(Clone, Copy, Debug, PartialEq, Eq)]
pub enum Role {
    Inner,
    Input,
    Output,
    Inout,
}

/// A named row of bits.
#[derive(Drop)]
pub struct Wire {
    pub name: Text,
    /// How many bits it has, at least 1.
    pub width: u32,
    /// The number of its lowest bit in the language of the front end. It is kept and means nothing.
    pub offset: i32,
    /// Whether the front end numbers its bits upward. It is kept and means nothing.
    pub upto: bool,
    /// Whether the front end reads it as a signed number. It is kept and means nothing.
    pub signed: bool,
    pub role: Role,
    /// The port's number, from 1; 0 for an inner wire.
    pub number: i32,
    pub attributes: Seq<Attribute>,
}

impl Copied for Wire {
    fn copy(&self) -> Result<Wire, Memory> {
        Ok(Wire {
            name: self.name.copy()?,
            width: self.width,
            offset: self.offset,
            upto: self.upto,
            signed: self.signed,
            role: self.role,
            number: self.number,
            attributes: self.attributes.copy()?,
        })
    }
}
