//! Reading the whole input, up to its limit.

ghost use Rattle.std.specs.Prelude.{◌≡◌, ◌<◌, ◌≤◌, ◌+◌, ℕ, length, vec_len, IfOk, OnOk, OnErr, Err, Ok};
ghost use Rattle.std.specs.Io.KnownBytes.{Consumes, IsAtEnd, Keeps};
ghost use Rattle.synth_io.specs.Counts.{HasCause, HasRisen};
ghost use Rattle.synth_io.specs.Taking.{IsTaken, Moves, TakesAtMost, TakesJust};

use crate::traits::{Failed, Source};
use rtl_bits::Text;
use std::alloc::{AllocError, Global};
use thiserror::Error;

/// The most bytes that an input may have.
pub const LIMIT: usize = 67_108_864;

/// The most bytes that are asked for at once.
const PIECE: usize = 65_536;

/// Why there is no whole input.
#[derive(Clone, Copy, Debug, PartialEq, Eq, Error)]
pub enum InputError {
    /// More than [`LIMIT`] bytes came.
    #[error("the input has more than 67108864 bytes")]
    TooLong,
    /// The source failed.
    #[error("the source failed")]
    Failed,
    #[error("out of memory")]
    Memory,
}

/// A buffer of this size.
fn zeros(alloc: Global, size: usize) -> Result<Vec<u8>, AllocError>
    ensures size { IfOk result (λ buffer. vec_len buffer ≡ size) }
{
    vec![in alloc; 0u8; size]
}

/// Moves bytes from the source to the end of the list, by way of the piece. It gives how many: none
/// only at the end of the source, so that each turn but the last takes at least one.
fn take_piece<S: Source>(
    source: &mut S,
    bytes: &mut Vec<u8>,
    piece: &mut [u8],
    room: usize,
) -> Result<usize, InputError>
    requires some { 0 < room }
    requires within { room ≤ length piece.old }
    ensures bound { IfOk result (λ count. count ≤ room) }
    ensures count { IfOk result (λ count. vec_len bytes.new ≡ vec_len bytes.old + count) }
    ensures moved { OnOk result
        (Moves (S.left source.old) (S.left source.new) bytes.old.items bytes.new.items) }
    ensures end { IfOk result (λ count. count ≡ 0 → IsAtEnd (S.left source.new)) }
    ensures lost { OnErr result (TakesAtMost room (S.left source.old) (S.left source.new)) }
    ensures long { result ≡ Err InputError.TooLong → ⊥ }
    ensures failed { result ≡ Err InputError.Failed
        → HasRisen (S.faults source.old) (S.faults source.new) }
    ensures same { (result ≡ Err InputError.Failed → ⊥)
        → S.faults source.new ≡ S.faults source.old }
{
    let Ok(count) = source.read(&mut piece[..room]) else {
        return Err(InputError::Failed);
    };
    if bytes.extend_from_slice(&piece[..count]).is_err() {
        return Err(InputError::Memory);
    }
    Ok(count)
}

/// All that is left in the source, in pieces of at most 65,536 bytes.
///
/// `TooLong` comes at the first byte past [`LIMIT`], and nothing behind it is taken. After `Memory`
/// or `Failed` the bytes that were taken are lost.
pub fn read_input<S: Source>(alloc: Global, source: &mut S) -> Result<Text, InputError>
    ensures whole { IfOk result (λ bytes. Consumes (S.left source.old) (S.left source.new) bytes
        × IsAtEnd (S.left source.new) × (length bytes ≤ LIMIT)) }
    ensures taken { TakesAtMost (LIMIT + 1) (S.left source.old) (S.left source.new) }
    ensures long { result ≡ Err InputError.TooLong
        → TakesJust (LIMIT + 1) (S.left source.old) (S.left source.new) }
    ensures failed { result ≡ Err InputError.Failed
        → HasRisen (S.faults source.old) (S.faults source.new) }
    ensures same { (result ≡ Err InputError.Failed → ⊥)
        → S.faults source.new ≡ S.faults source.old }
{
    let mut bytes = Vec::new(alloc);
    let Ok(mut piece) = zeros(alloc, PIECE) else {
        return Err(InputError::Memory);
    };
    while bytes.len() <= LIMIT {
        let room = PIECE.min(LIMIT + 1 - bytes.len());
        match take_piece(source, &mut bytes, &mut piece, room) {
            Ok(0) => {
                let Ok(text) = Text::from_vec(bytes) else {
                    return Err(InputError::Memory);
                };
                return Ok(text);
            }
            Ok(_) => {}
            Err(error) => return Err(error),
        }
    }
    Err(InputError::TooLong)
}

/// What came of the next bytes of an input.
#[derive(Clone, Copy, Debug, PartialEq, Eq)]
pub enum Next {
    /// So many bytes, at least one, at the front of the piece.
    Bytes(usize),
    /// The input is at its end.
    End,
    /// A byte past [`LIMIT`].
    Past,
}

/// Reads the next bytes of an input, of which so many were taken before, into the piece: none past
/// [`LIMIT`] but one, which is `Past`. After an error nothing was taken.
pub fn read_next<S: Source>(source: &mut S, piece: &mut [u8], taken: usize) -> Result<Next, Failed>
    requires some { 0 < length piece.old }
    requires within { taken ≤ LIMIT }
    ensures bytes { (n : ℕ) → result ≡ Ok (Next.Bytes n) →
        IsTaken (S.left source.old) (S.left source.new) taken piece.new n }
    ensures end { result ≡ Ok Next.End → Keeps (S.left source.old) (S.left source.new) × IsAtEnd (S.left source.new) }
    ensures past { result ≡ Ok Next.Past → (taken ≡ LIMIT) × TakesJust 1 (S.left source.old) (S.left source.new) }
    ensures lost { OnErr result (Keeps (S.left source.old) (S.left source.new)) }
    ensures cause { HasCause (S.faults source.old) (S.faults source.new) result }
    ensures size { length piece.new ≡ length piece.old }
{
    let room = piece.len().min(LIMIT - taken).max(1);
    let count = source.read(&mut piece[..room])?;
    if count == 0 {
        Ok(Next::End)
    } else if taken < LIMIT {
        Ok(Next::Bytes(count))
    } else {
        Ok(Next::Past)
    }
}
