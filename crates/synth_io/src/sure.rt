//! A source and a sink that never fail.

ghost use Rattle.std.specs.Prelude.{◌≡◌, ◌<◌, ◌++◌, min, take, drop, length, None, Some, Ok, IfOk};
ghost use Rattle.std.specs.Io.{ReadsAtMost, WritesAtMost};
ghost use Rattle.std.specs.Io.KnownBytes.{ReadConsumes, WriteAppends};
ghost use Rattle.synth_io.specs.Counts.{HasCause};

use crate::traits::{Failed, Sink, Source};
use rtl_bits::Text;
use std::marker::Model;

/// Bytes in memory. A contract sees those that are left.
#[derive(Drop)]
pub struct SureSource {
    bytes: Text,
    at: usize,
}

impl Model for SureSource {
    ghost use Rattle.std.specs.Prelude.{ℕ, ◌≤◌, List, drop, length};

    ghost Value = { List ℕ };

    ghost view = { λ source. drop source.at source.bytes };

    ghost invariant = { λ source. source.at ≤ length source.bytes };
}

impl SureSource {
    /// The source of these bytes. It takes no memory.
    pub fn make(bytes: Text) -> SureSource
        ensures value { result ≡ bytes }
    {
        SureSource { bytes, at: 0 }
    }
}

/// Copies as many of the first bytes as both have, and says how many.
fn copy_front(from: &[u8], into: &mut [u8]) -> usize
    ensures count { result ≡ min (length from.now) (length into.old) }
    ensures copied { into.new ≡ take result from.now ++ drop result into.old }
{
    let count = from.len().min(into.len());
    into[..count].copy_from_slice(&from[..count]);
    count
}

impl Source for SureSource {
    ghost left = { λ source. Some source };

    ghost faults = { λ _. 0 };

    /// Fills the buffer, or moves all that is left.
    fn read(&mut self, into: &mut [u8]) -> Result<usize, Failed>
        ensures bound { ReadsAtMost result into.new }
        ensures bytes { ReadConsumes (Some self.old) (Some self.new) result into.new }
        ensures cause { HasCause 0 0 result }
        ensures count { result ≡ Ok (min (length self.old) (length into.old)) }
        ensures copied { IfOk result (λ n. into.new ≡ take n self.old ++ drop n into.old) }
        ensures rest { IfOk result (λ n. self.new ≡ drop n self.old) }
    {
        let count = copy_front(&self.bytes.as_slice()[self.at..], into);
        self.at += count;
        Ok(count)
    }
}

/// Takes each piece whole and drops it. It tells no bytes.
#[derive(Clone, Copy, Debug, PartialEq, Eq)]
pub struct SureSink;

impl SureSink {
    /// The sink, which takes no memory.
    pub fn make() -> SureSink
        ensures untold { ⟦<SureSink as Sink>⟧.held result ≡ None }
        ensures no_fault { ⟦<SureSink as Sink>⟧.faults result ≡ 0 }
    {
        SureSink
    }
}

impl Sink for SureSink {
    ghost held = { λ _. None };

    ghost faults = { λ _. 0 };

    fn write(&mut self, piece: &[u8]) -> Result<usize, Failed>
        ensures bound { WritesAtMost result piece.now }
        ensures some { IfOk result (λ n. 0 < length piece.now → 0 < n) }
        ensures bytes { WriteAppends None None result piece.now }
        ensures cause { HasCause 0 0 result }
        ensures whole { result ≡ Ok (length piece.now) }
    {
        Ok(piece.len())
    }
}
