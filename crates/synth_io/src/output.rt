//! Writing a reply.

ghost use Rattle.std.specs.Prelude.{◌≡◌, ℕ, take, OnOk};
ghost use Rattle.std.specs.Io.KnownBytes.{Appends};
ghost use Rattle.synth_io.specs.Counts.{HasCause};

use crate::traits::{Failed, Sink};

/// The most bytes that are handed over at once.
const PIECE: usize = 4096;

/// The first bytes of the text, at most so many.
#[tactic(auto, using(std::proofs::lemmas::List::take_min))]
fn front(text: &[u8], size: usize) -> &[u8]
    ensures value { result.now ≡ take size text.now }
{
    &text[..size.min(text.len())]
}

/// Writes the text in pieces of 4,096 bytes, of which the last may be shorter.
///
/// Where the sink takes only a part of a piece, the next piece begins behind that part. After
/// `Failed` the sink has taken a front of the text.
pub fn write_reply<K: Sink>(sink: &mut K, text: &[u8]) -> Result<(), Failed>
    ensures whole { OnOk result (Appends (K.held sink.old) (K.held sink.new) text.now) }
    ensures front { (n : ℕ) × Appends (K.held sink.old) (K.held sink.new) (take n text.now) }
    ensures cause { HasCause (K.faults sink.old) (K.faults sink.new) result }
{
    let mut done = 0;
    while done < text.len() {
        done += sink.write(front(&text[done..], PIECE))?;
    }
    Ok(())
}
