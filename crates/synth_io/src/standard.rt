//! Any reader and any writer of std as a source and a sink.

ghost use Rattle.std.specs.Prelude.{◌≡◌};

use crate::traits::{Failed, Sink, Source};
use std::io::{Read, Write};
use std::marker::Model;

/// A reader of std, and how often it has failed.
///
/// A contract sees the bytes that the reader tells of, and the count. Over standard input it tells
/// none.
#[derive(Drop)]
pub struct StdSource<R: Read> {
    reader: R,
    faults: u64,
}

impl<R: Read> Model for StdSource<R> {
    ghost use Rattle.synth_io.specs.Standard.{Told};

    ghost Value = { Told };

    ghost view = { λ source. record {
      content = R.remaining source.reader;
      faults = source.faults;
    } };
}

impl<R: Read> StdSource<R> {
    /// The source that reads this reader.
    pub fn make(reader: R) -> StdSource<R>
        ensures value { result ≡ record { content = R.remaining reader; faults = 0 } }
    {
        StdSource { reader, faults: 0 }
    }
}

impl<R: Read> Source for StdSource<R> {
    ghost left = { λ source. source.content };

    ghost faults = { λ source. source.faults };

    /// Each error of the reader counts, an interrupted read too.
    fn read(&mut self, into: &mut [u8]) -> Result<usize, Failed> {
        match self.reader.read(into) {
            Ok(count) => Ok(count),
            Err(_) => {
                self.faults = self.faults.saturating_add(1);
                Err(Failed)
            }
        }
    }
}

/// A writer of std, and how often it has failed.
///
/// A contract sees the bytes that the writer tells of, and the count. Over standard output it tells
/// none.
#[derive(Drop)]
pub struct StdSink<W: Write> {
    writer: W,
    faults: u64,
}

impl<W: Write> Model for StdSink<W> {
    ghost use Rattle.synth_io.specs.Standard.{Told};

    ghost Value = { Told };

    ghost view = { λ sink. record {
      content = W.contents sink.writer;
      faults = sink.faults;
    } };
}

impl<W: Write> StdSink<W> {
    /// The sink that writes to this writer.
    pub fn make(writer: W) -> StdSink<W>
        ensures value { result ≡ record { content = W.contents writer; faults = 0 } }
    {
        StdSink { writer, faults: 0 }
    }
}

impl<W: Write> Sink for StdSink<W> {
    ghost held = { λ sink. sink.content };

    ghost faults = { λ sink. sink.faults };

    /// Each error of the writer counts, and so does a write that takes nothing of a piece.
    fn write(&mut self, piece: &[u8]) -> Result<usize, Failed> {
        match self.writer.write(piece) {
            Ok(count) if 0 < count || piece.is_empty() => Ok(count),
            _ => {
                self.faults = self.faults.saturating_add(1);
                Err(Failed)
            }
        }
    }
}
