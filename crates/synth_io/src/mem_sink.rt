//! A sink in memory that fails where it is told to, and where its room is passed.

ghost use Rattle.std.specs.Prelude.{◌≡◌, ◌<◌, ◌↔◌, [], length, Some, IfOk, IsErr, OnOk, OnErr};
ghost use Rattle.std.specs.Io.{WritesAtMost};
ghost use Rattle.std.specs.Io.KnownBytes.{WriteAppends};
ghost use Rattle.synth_io.specs.Counts.{HasCause};
ghost use Rattle.synth_io.specs.Memory.{Refuses, after_write, after_failed_write};

use crate::calls::is_next_listed;
use crate::traits::{Failed, Sink};
use rtl_bits::Memory;
use std::alloc::Global;
use std::marker::Model;

/// Holds what it is given, up to its room, and has the numbers, from 1, of the writes that are to
/// fail.
#[derive(Drop)]
pub struct MemSink {
    bytes: Vec<u8>,
    room: u32,
    fails: Vec<u64>,
    calls: u64,
    faults: u64,
}

impl Model for MemSink {
    ghost use Rattle.std.specs.Prelude.{◌≤◌, vec_len, vec_capacity};
    ghost use Rattle.synth_io.specs.Memory.{Store};

    ghost Value = { Store };

    ghost view = { λ sink. record {
      held = sink.bytes.items;
      room = sink.room;
      fails = sink.fails.items;
      calls = sink.calls;
      faults = sink.faults;
    } };

    ghost invariant = { λ sink.
        (vec_len sink.bytes ≤ sink.room) × (sink.room ≤ vec_capacity sink.bytes) };
}

impl MemSink {
    /// The sink for so many bytes whose writes with these numbers fail. It takes the memory for
    /// them here, so that no write takes any.
    pub fn make(alloc: Global, room: u32, fails: Vec<u64>) -> Result<MemSink, Memory>
        ensures value { IfOk result (λ sink. sink ≡ record {
          held = [];
          room = room;
          fails = fails.items;
          calls = 0;
          faults = 0;
        }) }
    {
        Ok(MemSink {
            bytes: Vec::with_capacity(alloc, room as usize)?,
            room,
            fails,
            calls: 0,
            faults: 0,
        })
    }

    /// The bytes that it holds.
    pub fn bytes(&self) -> &[u8]
        ensures value { result.now ≡ self.now.held }
    {
        self.bytes.as_slice()
    }
}

impl Sink for MemSink {
    ghost held = { λ sink. Some sink.held };

    ghost faults = { λ sink. sink.faults };

    /// Fails where the number of this write is listed, or the piece would pass the room; else takes
    /// the piece whole.
    fn write(&mut self, piece: &[u8]) -> Result<usize, Failed>
        ensures bound { WritesAtMost result piece.now }
        ensures some { IfOk result (λ n. 0 < length piece.now → 0 < n) }
        ensures bytes { WriteAppends (Some self.old.held) (Some self.new.held) result piece.now }
        ensures cause { HasCause self.old.faults self.new.faults result }
        ensures fails { IsErr result ↔ Refuses self.old piece.now }
        ensures whole { IfOk result (λ n. n ≡ length piece.now) }
        ensures ok { OnOk result (self.new ≡ after_write self.old piece.now) }
        ensures err { OnErr result (self.new ≡ after_failed_write self.old) }
    {
        let is_listed = is_next_listed(self.fails.as_slice(), &mut self.calls);
        if is_listed || self.room as usize - self.bytes.len() < piece.len() {
            self.faults = self.faults.saturating_add(1);
            return Err(Failed);
        }
        self.bytes.extend_from_slice(piece).unwrap();
        Ok(piece.len())
    }
}
