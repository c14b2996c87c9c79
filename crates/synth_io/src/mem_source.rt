//! A source in memory that fails where it is told to.

ghost use Rattle.std.specs.Prelude.{◌≡◌, ◌↔◌, ◌++◌, min, take, drop, length, Some, IfOk, IsErr, OnErr, Contains};
ghost use Rattle.std.specs.Io.{ReadsAtMost};
ghost use Rattle.std.specs.Io.KnownBytes.{ReadConsumes};
ghost use Rattle.synth_io.specs.Counts.{next_count, HasCause};
ghost use Rattle.synth_io.specs.Memory.{after_read, after_failed_read};

use crate::calls::is_next_listed;
use crate::sure::SureSource;
use crate::traits::{Failed, Source};
use rtl_bits::Text;
use std::marker::Model;

/// Bytes in memory, and the numbers, from 1, of the reads that are to fail.
#[derive(Drop)]
pub struct MemSource {
    bytes: SureSource,
    fails: Vec<u64>,
    calls: u64,
    faults: u64,
}

impl Model for MemSource {
    ghost use Rattle.synth_io.specs.Memory.{Supply};

    ghost Value = { Supply };

    ghost view = { λ source. record {
      left = source.bytes;
      fails = source.fails.items;
      calls = source.calls;
      faults = source.faults;
    } };
}

impl MemSource {
    /// The source of these bytes whose reads with these numbers fail. It takes no memory.
    pub fn make(bytes: Text, fails: Vec<u64>) -> MemSource
        ensures value { result ≡ record {
          left = bytes;
          fails = fails.items;
          calls = 0;
          faults = 0;
        } }
    {
        MemSource {
            bytes: SureSource::make(bytes),
            fails,
            calls: 0,
            faults: 0,
        }
    }
}

impl Source for MemSource {
    ghost left = { λ source. Some source.left };

    ghost faults = { λ source. source.faults };

    /// Fails where the number of this read is listed; else fills the buffer, or moves all that is
    /// left.
    fn read(&mut self, into: &mut [u8]) -> Result<usize, Failed>
        ensures bound { ReadsAtMost result into.new }
        ensures bytes { ReadConsumes (Some self.old.left) (Some self.new.left) result into.new }
        ensures cause { HasCause self.old.faults self.new.faults result }
        ensures fails { IsErr result ↔ Contains self.old.fails (next_count self.old.calls) }
        ensures ok { IfOk result (λ n. self.new ≡ after_read self.old n) }
        ensures err { OnErr result (self.new ≡ after_failed_read self.old) }
        ensures count { IfOk result (λ n. n ≡ min (length self.old.left) (length into.old)) }
        ensures copied { IfOk result (λ n. into.new ≡ take n self.old.left ++ drop n into.old) }
    {
        if is_next_listed(self.fails.as_slice(), &mut self.calls) {
            self.faults = self.faults.saturating_add(1);
            return Err(Failed);
        }
        self.bytes.read(into)
    }
}
