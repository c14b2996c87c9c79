//! Places in a text.

ghost use Rattle.std.specs.Prelude.{◌≡◌, ℕ, List, ◌+◌, ◌<◌, ◌≤◌, ◌^◌, length, take, drop, true};
ghost use Rattle.rtl_lex.specs.Place.{is_flat, moved, start, IsPlaceIn};

use std::fmt::{self, Formatter, Write};

/// A place in a text: how many bytes stand before it, its line and its column.
///
/// Lines and columns are counted from 1. LF alone ends a line; any other byte, a CR too, is one
/// column. It is printed as `line:column`.
#[derive(Clone, Copy, Debug, PartialEq, Eq)]
pub struct Place {
    pub at: u64,
    pub line: u64,
    pub column: u64,
}

impl Place {
    /// The place where every text begins: no byte stands before it, in line 1 and column 1.
    pub fn start() -> Place
        ensures value { result ≡ start }
        ensures place { (text : List ℕ) → IsPlaceIn text result }
    {
        Place {
            at: 0,
            line: 1,
            column: 1,
        }
    }
}

impl fmt::Display for Place {
    ghost use Rattle.std.specs.Prelude.{Some};
    ghost use Rattle.rtl_lex.specs.Place.{place_text};

    ghost output = { λ place. Some (place_text place) };

    fn fmt<W: Write>(&self, f: &mut Formatter<W>) -> fmt::Result {
        write!(f, "{}:{}", self.line, self.column)
    }
}

/// The place behind these bytes.
#[tactic(auto, using(crate::proofs::Places::moved_more))]
fn moved(from: Place, bytes: &[u8]) -> Place
    requires at { from.at + length bytes.now < 2 ^ 64 }
    requires line { from.line + length bytes.now < 2 ^ 64 }
    requires column { from.column + length bytes.now < 2 ^ 64 }
    ensures { result ≡ moved from bytes.now }
{
    let mut at = from.at;
    let mut line = from.line;
    let mut column = from.column;
    for byte in bytes {
        at += 1;
        if *byte == b'\n' {
            line += 1;
            column = 1;
        } else {
            column += 1;
        }
    }
    Place { at, line, column }
}

/// The place so many bytes further on.
#[tactic(auto, using(crate::proofs::Places::low_places))]
pub fn forward(text: &[u8], from: Place, count: usize) -> Place
    requires place { IsPlaceIn text.now from }
    requires within { from.at + count ≤ length text.now }
    ensures moved { result ≡ moved from (take count (drop from.at text.now)) }
    ensures place { IsPlaceIn text.now result }
    ensures at { result.at ≡ from.at + count }
{
    let start = from.at as usize;
    moved(from, &text[start..start + count])
}

/// The place so many bytes further on, none of which ends a line.
#[tactic(auto, using(crate::proofs::Places::low_places))]
pub fn along(text: &[u8], from: Place, count: usize) -> Place
    requires place { IsPlaceIn text.now from }
    requires within { from.at + count ≤ length text.now }
    requires flat { is_flat (take count (drop from.at text.now)) ≡ true }
    ensures moved { result ≡ moved from (take count (drop from.at text.now)) }
    ensures place { IsPlaceIn text.now result }
    ensures at { result.at ≡ from.at + count }
{
    // A text has fewer than 2^63 bytes, so the sums fit.
    let _bytes = text.len();
    Place {
        at: from.at + count as u64,
        line: from.line,
        column: from.column + count as u64,
    }
}
