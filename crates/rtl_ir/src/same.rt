//! Whether two records are equal.

ghost use Rattle.std.specs.Prelude.{◌≡◌, true};

use crate::cell::{Cell, CellParam, Pin};
use crate::module::Link;
use crate::value::{Attribute, Value};
use crate::wire::Wire;
use rtl_bits::{Bit, Seq, Text};
use rtl_sig::{SigBit, SigSpec};

/// A value that can be compared with another one.
pub trait Same: Sized {
    /// Whether the two are equal, with names as texts and values in the form in which they were written.
    fn same(&self, other: &Self) -> bool
        ensures equal { result ≡ true → self.now ≡ other.now }
        ensures complete { self.now ≡ other.now → result ≡ true };

    /// Whether two lists are equal, item by item.
    fn same_all(items: &[Self], others: &[Self]) -> bool
        ensures equal { result ≡ true → items.now ≡ others.now }
        ensures complete { items.now ≡ others.now → result ≡ true }
    {
        if items.len() != others.len() {
            return false;
        }
        for at in 0..items.len() {
            if !items[at].same(&others[at]) {
                return false;
            }
        }
        true
    }
}

impl Same for Bit {
    fn same(&self, other: &Bit) -> bool {
        *self == *other
    }
}

impl Same for SigBit {
    fn same(&self, other: &SigBit) -> bool {
        *self == *other
    }
}

impl<T: Same> Same for Seq<T> {
    fn same(&self, other: &Seq<T>) -> bool {
        T::same_all(self.as_slice(), other.as_slice())
    }
}

impl Same for Text {
    fn same(&self, other: &Text) -> bool {
        self.as_slice() == other.as_slice()
    }
}

impl Same for SigSpec {
    fn same(&self, other: &SigSpec) -> bool {
        SigBit::same_all(self.as_slice(), other.as_slice())
    }
}

impl Same for Value {
    fn same(&self, other: &Value) -> bool {
        match (self, other) {
            (Value::Bits(bits, signed), Value::Bits(others, also)) => {
                bits.same(others) && *signed == *also
            }
            (Value::Int(number), Value::Int(other)) => *number == *other,
            (Value::Chars(text), Value::Chars(other)) => text.same(other),
            _ => false,
        }
    }
}

impl Same for Attribute {
    fn same(&self, other: &Attribute) -> bool {
        self.name.same(&other.name) && self.value.same(&other.value)
    }
}

impl Same for CellParam {
    fn same(&self, other: &CellParam) -> bool {
        self.name.same(&other.name) && self.value.same(&other.value) && self.signed == other.signed
    }
}

impl Same for Pin {
    fn same(&self, other: &Pin) -> bool {
        self.name.same(&other.name) && self.sig.same(&other.sig)
    }
}

impl Same for Cell {
    fn same(&self, other: &Cell) -> bool {
        self.kind_name.same(&other.kind_name)
            && self.name.same(&other.name)
            && self.params.same(&other.params)
            && self.pins.same(&other.pins)
            && self.attributes.same(&other.attributes)
    }
}

impl Same for Link {
    fn same(&self, other: &Link) -> bool {
        self.left.same(&other.left) && self.right.same(&other.right)
    }
}

impl Same for Wire {
    fn same(&self, other: &Wire) -> bool {
        self.name.same(&other.name)
            && self.width == other.width
            && self.offset == other.offset
            && self.upto == other.upto
            && self.signed == other.signed
            && self.role == other.role
            && self.number == other.number
            && self.attributes.same(&other.attributes)
    }
}
