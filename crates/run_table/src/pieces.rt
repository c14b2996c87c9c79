//! A source that gives few bytes at once.

ghost use Rattle.std.specs.Prelude.{Some};

use rtl_bits::Text;
use synth_io::{Failed, MemSource, Source};

/// Bytes in memory, of which a read gives at most so many, and at least one where one is left.
#[derive(Drop)]
pub struct Pieces {
    source: MemSource,
    most: usize,
}

impl Pieces {
    /// The source of these bytes whose reads with these numbers fail.
    pub fn make(bytes: Text, fails: Vec<u64>, most: usize) -> Pieces {
        Pieces {
            source: MemSource::make(bytes, fails),
            most,
        }
    }
}

impl Source for Pieces {
    ghost left = { λ p. Some p.source.left };

    ghost faults = { λ p. p.source.faults };

    fn read(&mut self, into: &mut [u8]) -> Result<usize, Failed> {
        let room = self.most.max(1).min(into.len());
        self.source.read(&mut into[..room])
    }
}
