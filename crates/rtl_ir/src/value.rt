//! Constants and attributes.

use rtl_bits::{Bits, Copied, Memory, Text};

/// A constant, in the form in which it was written.
#[derive(Drop)]
pub enum Value {
    /// A width, `'` and bits; whether an `s` stands between them.
    Bits(Bits, bool),
    /// An integer of 32 bits.
    Int(i32),
    /// The characters of a string, without its quotes and escapes.
    Chars(Text),
}

/// A remark on the item that it stands before.
#[derive(Drop)]
pub struct Attribute {
    pub name: Text,
    pub value: Value,
}

impl Copied for Value {
    fn copy(&self) -> Result<Value, Memory> {
        match self {
            Value::Bits(bits, signed) => Ok(Value::Bits(bits.copy()?, *signed)),
            Value::Int(number) => Ok(Value::Int(*number)),
            Value::Chars(text) => Ok(Value::Chars(text.copy()?)),
        }
    }
}

impl Copied for Attribute {
    fn copy(&self) -> Result<Attribute, Memory> {
        Ok(Attribute {
            name: self.name.copy()?,
            value: self.value.copy()?,
        })
    }
}
