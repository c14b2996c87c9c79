//! Lines that go from one desk of an input to another.

ghost use Rattle.std.specs.Prelude.{◌≡◌, ◌≤◌, ℕ, IfOk, IfSome, map};
ghost use Rattle.synth_run.specs.Desks.{aim_by, aim_of, desk_by};
ghost use Rattle.synth_run.specs.Routes.{aim_as};

use crate::words::number_of;
use desk_read::first_words;
use rtl_bits::Memory;
use std::alloc::Global;
use std::str::from_utf8;

/// What a line between commands says of desks.
#[derive(Clone, Copy, Debug, PartialEq, Eq)]
pub(crate) enum Aim {
    /// Nothing: it is a command's line.
    Command,
    /// The commands after it are for the desk of this number.
    To(u32),
    /// Its first word is `desk`, and no desk is named.
    Stray,
}

/// The desk that the words after `desk` name, among so many.
#[tactic(auto, using(crate::proofs::Aiming::not_text))]
fn desk_by(count: u32, words: &[&[u8]]) -> Option<u32>
    ensures value { result ≡ desk_by count (map (λ word. word.now) words.now) }
    ensures range { IfSome result (λ desk. (1 ≤ desk) × (desk ≤ count)) }
{
    let [word] = words else {
        return None;
    };
    match from_utf8(word) {
        Ok(text) => number_of(count, text),
        Err(_) => None,
    }
}

/// What a line of these words says.
fn aim_by(count: u32, words: &[&[u8]]) -> Aim
    ensures value { aim_as result ≡ aim_by count (map (λ word. word.now) words.now) }
    ensures range { (n : ℕ) → result ≡ Aim.To n → (1 ≤ n) × (n ≤ count) }
{
    match words {
        [word, rest @ ..] if *word == b"desk".as_slice() => match desk_by(count, rest) {
            Some(desk) => Aim::To(desk),
            None => Aim::Stray,
        },
        _ => Aim::Command,
    }
}

/// What the line says, of an input of so many desks.
#[tactic(auto, using(crate::proofs::Aiming::aim_five))]
pub(crate) fn aim_of(alloc: Global, count: u32, line: &[u8]) -> Result<Aim, Memory>
    ensures value { IfOk result (λ aim. aim_as aim ≡ aim_of count line.now) }
    ensures range { IfOk result (λ aim. (n : ℕ) → aim ≡ Aim.To n → (1 ≤ n) × (n ≤ count)) }
{
    let words = first_words(alloc, line)?;
    Ok(aim_by(count, words.as_slice()))
}
