//! Replies to texts and designs with a fault.

ghost use Rattle.std.specs.Prelude.{◌≡◌, ◌≢◌, ◌++◌, IfOk};
ghost use Rattle.rtl_read.specs.declared.read_fault.ReadFault.TheVariants as faults;
ghost use Rattle.rtl_check.specs.declared.fault.CheckFault.TheVariants as check;
ghost use Rattle.rtl_lex.specs.Place.{place_text};
ghost use Rattle.reply_lines.specs.Lines.{check_words, error_reply, read_words};

use crate::reply::{Reply, error_reply, error_words, told_reply};
use rtl_bits::Memory;
use rtl_check::CheckFault;
use rtl_lex::Place;
use rtl_read::ReadFault;
use std::alloc::Global;

/// The reply of an error at a place.
pub fn place_reply(alloc: Global, number: &[u8], place: Place) -> Result<Reply, Memory>
    ensures value { IfOk result (λ reply. reply ≡ error_reply (number.now ++ place_text place)) }
{
    let words = place.to_string(alloc)?;
    told_reply(alloc, number, words.as_bytes())
}

/// The reply to a text with this first fault.
pub fn read_reply(alloc: Global, fault: ReadFault) -> Result<Reply, Memory>
    ensures value { IfOk result (λ reply. reply ≡ error_reply (read_words fault)) }
    ensures memory { IfOk result (λ _. fault ≢ faults.Memory) }
{
    match fault {
        ReadFault::Lex(place) => place_reply(alloc, b"1 ", place),
        ReadFault::Syntax(place) => place_reply(alloc, b"2 ", place),
        ReadFault::Int(place) => place_reply(alloc, b"3 ", place),
        ReadFault::Duplicate(place) => place_reply(alloc, b"4 ", place),
        ReadFault::UnknownName(place) => place_reply(alloc, b"5 ", place),
        ReadFault::Range(place) => place_reply(alloc, b"6 ", place),
        ReadFault::Limit(place) => place_reply(alloc, b"17 ", place),
        ReadFault::Memory => Err(Memory),
    }
}

/// The reply to a design with this fault.
fn fault_reply(alloc: Global, fault: &CheckFault) -> Result<Reply, Memory>
    ensures value { IfOk result (λ reply. reply ≡ error_reply (check_words fault.now)) }
{
    let mut words = error_words(alloc, fault.number(), b" ")?;
    words.extend(fault.words(alloc)?.as_slice())?;
    error_reply(alloc, words.as_slice())
}

/// The reply to a design with this first fault, where it is no want of memory.
pub fn check_reply(alloc: Global, fault: &CheckFault) -> Result<Reply, Memory>
    ensures value { IfOk result (λ reply. reply ≡ error_reply (check_words fault.now)) }
    ensures memory { IfOk result (λ _. fault.now ≢ check.Memory) }
{
    match fault {
        CheckFault::Memory => Err(Memory),
        fault => fault_reply(alloc, fault),
    }
}
