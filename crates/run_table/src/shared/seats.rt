//! Two seats at a cache, which make the calls of a row.

ghost use Rattle.result_cache.specs.Seats.{IsIdle};
ghost use Rattle.run_table.specs.Callers.{IsCaller};

use crate::shared::callers::{Built, Caller, Reply, claim, fill, forget, give_back, wait};
use result_cache::{Opened, Seat, SharedCache};
use rtl_bits::{Memory, Text};
use std::alloc::Global;
use std::sync::Wait;
use table_rows::str_of;

/// A call of a caller.
#[derive(Drop)]
enum Ask {
    Claim(Text),
    Fill(u32),
    GiveBack,
    Wait(Text),
    Forget(Text),
}

/// A call of one of the two callers, and what it is to be answered.
#[derive(Drop)]
struct Step {
    second: bool,
    ask: Ask,
    reply: Reply,
}

/// The number in a word; a word that has none is 0.
fn number_of(word: &[u8]) -> u32 {
    str_of(word).parse::<u32>().unwrap_or(0)
}

/// The answer that words are.
fn reply_of(words: &[&[u8]]) -> Option<Reply> {
    match words {
        [] => Some(Reply::Done),
        [word] => match str_of(word) {
            "yours" => Some(Reply::Yours),
            "refused" => Some(Reply::Refused),
            "free" => Some(Reply::Free),
            _ => None,
        },
        [word, number] => match str_of(word) {
            "hit" => Some(Reply::Hit(number_of(number))),
            "busy" => Some(Reply::Busy(number_of(number))),
            "dropped" => Some(Reply::Dropped(number_of(number))),
            _ => None,
        },
        _ => None,
    }
}

/// The call that a verb and its object are.
fn ask_of(alloc: Global, verb: &[u8], object: &[u8]) -> Result<Option<Ask>, Memory> {
    Ok(match str_of(verb) {
        "claims" => Some(Ask::Claim(Text::from_slice(alloc, object)?)),
        "fills" => Some(Ask::Fill(number_of(object))),
        "gives" => Some(Ask::GiveBack),
        "waits" => Some(Ask::Wait(Text::from_slice(alloc, object)?)),
        "drops" => Some(Ask::Forget(Text::from_slice(alloc, object)?)),
        _ => None,
    })
}

/// The step that a text is: the number of the seat, the verb, its object, and the answer.
fn step_of(alloc: Global, text: &[u8]) -> Result<Option<Step>, Memory> {
    let words: Vec<&[u8]> = text.split(|byte| *byte == b' ').collect(alloc)?;
    let [seat, verb, object, answer @ ..] = words.as_slice() else {
        return Ok(None);
    };
    let Some(ask) = ask_of(alloc, verb, object)? else {
        return Ok(None);
    };
    let second = number_of(seat) == 1;
    Ok(reply_of(answer).map(|reply| Step { second, ask, reply }))
}

/// The steps that the parts of a field are, where each is one.
fn steps_of(alloc: Global, field: &[u8]) -> Result<Option<Vec<Step>>, Memory> {
    let mut steps = Vec::new(alloc);
    for text in field.split(|byte| *byte == b',') {
        match step_of(alloc, text)? {
            Some(step) => steps.push(step)?,
            None => return Ok(None),
        }
    }
    Ok(Some(steps))
}

/// Has the caller make the call, and says whether it was answered so.
fn answers<R: Wait>(
    rt: &R,
    cache: &SharedCache<Built>,
    caller: Caller,
    step: &Step,
) -> (Caller, bool)
    requires caller { IsCaller cache.now.table.shared.table_id caller }
    ensures caller { IsCaller cache.now.table.shared.table_id result.0 }
{
    let (caller, reply) = match &step.ask {
        Ask::Claim(key) => claim(rt, cache, caller, key),
        Ask::Fill(number) => fill(rt, cache, caller, *number),
        Ask::GiveBack => return_ticket(rt, cache, caller),
        Ask::Wait(key) => wait(rt, cache, caller, key),
        Ask::Forget(key) => forget(rt, cache, caller, key),
    };
    (caller, reply == step.reply)
}

/// Gives the caller's ticket back, where it has one.
fn return_ticket<R: Wait>(rt: &R, cache: &SharedCache<Built>, caller: Caller) -> (Caller, Reply)
    requires caller { IsCaller cache.now.table.shared.table_id caller }
    ensures caller { IsCaller cache.now.table.shared.table_id result.0 }
{
    match give_back(rt, cache, caller) {
        (seat, true) => (Caller::Idle(seat), Reply::Done),
        (seat, false) => (Caller::Idle(seat), Reply::Refused),
    }
}

/// Has the two seats make the calls, and says whether each was answered as it is to be. What tickets are
/// left are given back.
fn are_made<R: Wait>(
    rt: &R,
    cache: &SharedCache<Built>,
    steps: &[Step],
    zero: Seat,
    one: Seat,
) -> (Seat, Seat, bool)
    requires zero { IsIdle cache.now.table.shared.table_id zero }
    requires one { IsIdle cache.now.table.shared.table_id one }
    ensures zero { IsIdle cache.now.table.shared.table_id result.0 }
    ensures one { IsIdle cache.now.table.shared.table_id result.1 }
{
    let mut first = Caller::Idle(zero);
    let mut second = Caller::Idle(one);
    let mut held = true;
    for step in steps {
        if step.second {
            let (caller, is_so) = answers(rt, cache, second, step);
            second = caller;
            held = held && is_so;
        } else {
            let (caller, is_so) = answers(rt, cache, first, step);
            first = caller;
            held = held && is_so;
        }
    }
    let (zero, _) = give_back(rt, cache, first);
    let (one, _) = give_back(rt, cache, second);
    (zero, one, held)
}

/// How many calls of each kind a seat made.
fn calls_of<R: Wait>(rt: &R, cache: &SharedCache<Built>, seat: Seat) -> [u64; 4]
    requires idle { IsIdle cache.now.table.shared.table_id seat }
{
    let calls = cache.end(rt, seat);
    [calls.claims, calls.fills, calls.give_backs, calls.drops]
}

/// Whether the calls of a row are answered as it says. Behind its name stand the shards, the calls, and how
/// many claims, fillings and givings back each of the two seats made, and how many values it gave up.
pub fn are_answered<R: Wait>(rt: &R, alloc: Global, fields: &[&[u8]]) -> Result<bool, Memory> {
    let [_, shards, calls, zeros, ones] = fields else {
        return Ok(false);
    };
    let Some(steps) = steps_of(alloc, calls)? else {
        return Ok(false);
    };
    let shards = number_of(shards);
    if shards == 0 || shards > 64 {
        return Ok(false);
    }
    let Opened { cache, mut seats } = SharedCache::make(alloc, 2, shards)?;
    let (Some(one), Some(zero)) = (seats.pop(), seats.pop()) else {
        return Ok(false);
    };
    let (zero, one, held) = are_made(rt, &cache, steps.as_slice(), zero, one);
    let is_zero = counted(zeros, calls_of(rt, &cache, zero));
    let is_one = counted(ones, calls_of(rt, &cache, one));
    Ok(held && is_zero && is_one)
}

/// Whether the digits of a field are these numbers.
fn counted(field: &[u8], numbers: [u64; 4]) -> bool {
    field
        .iter()
        .map(|digit| u64::from(digit.wrapping_sub(b'0')))
        .eq(numbers)
}
