//! Faults as they are shown. Names are shown as far as they are ASCII, and `words` has their bytes.

use crate::fault::{CheckFault, Item, Spot, WireSpot};
use rtl_bits::Text;
use std::fmt;
use std::fmt::{Formatter, Write};

impl fmt::Display for CheckFault {
    fn fmt<W: Write>(&self, f: &mut Formatter<W>) -> fmt::Result {
        match self {
            CheckFault::Width(spot) => write!(f, "error 7 {}", spot),
            CheckFault::UnknownCell(spot) => write!(f, "error 8 {}", spot),
            CheckFault::UnsupportedCell(spot) => write!(f, "error 9 {}", spot),
            CheckFault::BadParameterOrPort(spot) => write!(f, "error 10 {}", spot),
            CheckFault::TooWide(spot) => write!(f, "error 11 {}", spot),
            CheckFault::TwoDrivers(spot) => write!(f, "error 12 {}", spot),
            CheckFault::BadPort(spot) => write!(f, "error 13 {}", spot),
            CheckFault::BadProcess(spot) => write!(f, "error 14 {}", spot),
            CheckFault::BadMemory(spot) => write!(f, "error 15 {}", spot),
            CheckFault::Recursion(id) => {
                f.write_str("error 16 ")?;
                show(id, f)
            }
            CheckFault::Memory => f.write_str("memory"),
        }
    }
}

impl fmt::Display for Spot {
    fn fmt<W: Write>(&self, f: &mut Formatter<W>) -> fmt::Result {
        show(&self.id, f)?;
        match &self.item {
            Item::Named(name) => {
                f.write_str(" ")?;
                show(name, f)
            }
            Item::Connect(number) => write!(f, " connect {}", number),
        }
    }
}

impl fmt::Display for WireSpot {
    fn fmt<W: Write>(&self, f: &mut Formatter<W>) -> fmt::Result {
        show(&self.id, f)?;
        f.write_str(" ")?;
        show(&self.wire, f)?;
        write!(f, " {}", self.at)
    }
}

/// Shows a name. A byte that is no ASCII character is shown as U+FFFD.
fn show<W: Write>(name: &Text, f: &mut Formatter<W>) -> fmt::Result {
    for byte in name.as_slice() {
        let shown = if byte.is_ascii() {
            char::from(*byte)
        } else {
            char::REPLACEMENT_CHARACTER
        };
        f.write_char(shown)?;
    }
    Ok(())
}
