//! What a worker reaches of the deques, and how it takes jobs: its own first, then those of others.

ghost use Rattle.std.specs.Prelude.{◌≡◌, ℕ, ◌+◌, ◌<◌, ◌≤◌, length, IfErr, IfOk, IfSome, MatchOption, MatchResult};
ghost use Rattle.crossbeam_deque.specs.Steals.{MatchSteal};
ghost use Rattle.work_crew.specs.Times.{hit};
ghost use Rattle.work_crew.specs.Reach.{CanTake, SameReach, Paired, TakesNone, TakesOne, AreBelow, IsReachBelow};
ghost use Rattle.work_crew.specs.Reach.{puts_of, took};

use crate::deque::{Note, Owner, Thief, steal, take};
use crossbeam_deque::Steal;
use std::sync::Wait;

/// A worker's number, its own deque, and a pass of each deque in the order of the workers.
pub struct Reach {
    pub number: usize,
    pub owner: Owner,
    pub notes: Vec<Note>,
}

/// Takes the first job of the deque at this place.
fn steal_at(thieves: &[Thief], notes: &mut Vec<Note>, at: usize) -> Steal<u32>
    requires paired { Paired thieves.now notes.old.items }
    requires in_range { at < length thieves.now }
    ensures paired { Paired thieves.now notes.new.items }
    ensures taken { MatchSteal result (TakesNone notes.old.items notes.new.items)
        (TakesNone notes.old.items notes.new.items) (TakesOne notes.old.items notes.new.items) }
    ensures same { puts_of notes.new.items ≡ puts_of notes.old.items }
    ensures job { MatchSteal result (Unit {0}) (Unit {0})
        (λ x. (n : ℕ) → AreBelow n (puts_of notes.old.items) → x < n) }
{
    steal(&thieves[at], &mut notes[at])
}

/// Takes a job of another worker: it asks the others in rising order from its own number, round. It gives up only after
/// a round in which each of them answered that its deque was empty, and tells how many they were.
fn steal_any<R: Wait>(
    rt: &R,
    number: usize,
    thieves: &[Thief],
    notes: &mut Vec<Note>,
) -> Result<u32, usize>
    requires paired { Paired thieves.now notes.old.items }
    requires number { (number < length thieves.now) × (length thieves.now ≤ 64) }
    ensures paired { Paired thieves.now notes.new.items }
    ensures taken { MatchResult result (TakesOne notes.old.items notes.new.items)
        (λ empty. TakesNone notes.old.items notes.new.items) }
    ensures same { puts_of notes.new.items ≡ puts_of notes.old.items }
    ensures job { IfOk result (λ x. (n : ℕ) → AreBelow n (puts_of notes.old.items) → x < n) }
    ensures round { IfErr result (λ empty. empty + 1 ≡ length thieves.now) }
{
    let workers = thieves.len();
    for _ in rt.forever() {
        let mut empty = 0;
        for step in 1..workers {
            match steal_at(thieves, notes, (number + step) % workers) {
                Steal::Success(job) => return Ok(job),
                Steal::Empty => empty += 1,
                Steal::Retry => {}
            }
        }
        if empty + 1 == workers {
            return Err(empty);
        }
    }
    unreachable!()
}

/// The first job of the worker's own deque, or where that is empty, of another's.
pub fn next_job<R: Wait>(rt: &R, thieves: &[Thief], reach: &mut Reach) -> Option<u32>
    requires { CanTake thieves.now reach.old }
    ensures can { CanTake thieves.now reach.new }
    ensures same { SameReach reach.old reach.new }
    ensures taken { MatchOption result ((k : ℕ) → took k reach.new ≡ took k reach.old)
        (λ x. (k : ℕ) → took k reach.new ≡ took k reach.old + hit x k) }
    ensures job { IfSome result (λ x. (n : ℕ) → IsReachBelow n reach.old → x < n) }
{
    if let Some(job) = take(&mut reach.owner) {
        return Some(job);
    }
    match steal_any(rt, reach.number, thieves, &mut reach.notes) {
        Ok(job) => Some(job),
        Err(_) => None,
    }
}
