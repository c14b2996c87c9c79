//! What a crew needs, all of it made before a worker starts: jobs on deques, passes, workers, places for the outputs.

ghost use Rattle.std.specs.Prelude.{◌≡◌, ◌+◌, ◌<◌, ◌≤◌, [], length, replicate, vec_len, None, IfOk};
ghost use Rattle.std.specs.Vec.{vec_capacity};
ghost use Rattle.work_crew.specs.Times.{every};
ghost use Rattle.work_crew.specs.Settle.{AllFirst};
ghost use Rattle.work_crew.specs.Setup.{IsDealt, AreDealt, AllFixed, AreThieves, KeepsOwners, AreNoted, AllNoted};
ghost use Rattle.work_crew.specs.Setup.{AllIdle, seats_of, IsSetUp};

use crate::deque::{Note, Owner, Thief, deque_for, note_of, put};
use crate::reach::Reach;
use crate::seat::{Seat, Worked};
use rtl_bits::{Memory, Steps};
use std::alloc::Global;

/// A deque with the jobs `first`, `first + step` and so on below `count`, in rising order.
fn dealt(alloc: Global, first: u32, step: u32, count: u32) -> Result<Owner, Memory>
    requires { (0 < step) × (step ≤ 64) × (first ≤ 64) × (count ≤ 4096) }
    ensures ok { IfOk result (λ o. IsDealt (every first step count) o) }
{
    let mut owner = deque_for(alloc, (count / step) as usize + 1)?;
    let mut next = first;
    while next < count {
        put(&mut owner, next)?;
        next += step;
    }
    Ok(owner)
}

/// The deques of all workers, each as its owner and as other workers see it.
struct Deques {
    owners: Vec<Owner>,
    thieves: Vec<Thief>,
}

/// A deque for each worker. Job j lies on that of worker j modulo their number.
fn deques_for(alloc: Global, workers: u32, count: u32) -> Result<Deques, Memory>
    requires { (0 < workers) × (workers ≤ 64) × (count ≤ 4096) }
    ensures dealt { IfOk result (λ d. AreDealt 0 workers count d.owners.items) }
    ensures len { IfOk result (λ d. length d.owners.items ≡ workers) }
    ensures thieves { IfOk result (λ d. AreThieves d.owners.items d.thieves.items) }
    ensures capacity { IfOk result (λ d. workers ≤ vec_capacity d.owners) }
{
    let mut owners = Vec::with_capacity(alloc, workers as usize)?;
    let mut thieves = Vec::with_capacity(alloc, workers as usize)?;
    for first in 0..workers {
        let owner = dealt(alloc, first, workers, count)?;
        let thief = owner.stealer()?;
        thieves.push_reserved(thief);
        owners.push_reserved(owner);
    }
    Ok(Deques { owners, thieves })
}

/// A worker's passes, one of each deque in their order. Nothing more is put on the deques.
fn share(owners: &mut Vec<Owner>, row: &mut Vec<Note>)
    requires first { AllFirst owners.old.items }
    requires empty { row.old.items ≡ [] }
    requires room { vec_len owners.old ≤ vec_capacity row.old }
    ensures capacity { (vec_capacity owners.new ≡ vec_capacity owners.old) ×
        (vec_capacity row.new ≡ vec_capacity row.old) }
    ensures kept { KeepsOwners owners.old.items owners.new.items }
    ensures fixed { AllFixed owners.new.items }
    ensures noted { AreNoted owners.new.items row.new.items }
{
    let Some(mut owner) = owners.pop() else {
        return;
    };
    share(owners, row);
    row.push_reserved(note_of(&mut owner));
    owners.push_reserved(owner);
}

/// The passes of all workers.
fn rows_for(alloc: Global, owners: &mut Vec<Owner>) -> Result<Vec<Vec<Note>>, Memory>
    requires first { AllFirst owners.old.items }
    requires some { 0 < length owners.old.items }
    ensures kept { IfOk result (λ r. KeepsOwners owners.old.items owners.new.items) }
    ensures fixed { IfOk result (λ r. AllFixed owners.new.items) }
    ensures noted { IfOk result (λ r. AllNoted owners.new.items r.items) }
    ensures len { IfOk result (λ r. length r.items ≡ length owners.old.items) }
    ensures capacity { IfOk result (λ r.
        (vec_capacity owners.new ≡ vec_capacity owners.old) × (length owners.old.items ≤ vec_capacity r)) }
{
    let workers = owners.len();
    let mut rows = Vec::with_capacity(alloc, workers)?;
    for _ in 0..workers {
        let mut row = Vec::with_capacity(alloc, workers)?;
        share(owners, &mut row);
        rows.push_reserved(row);
    }
    Ok(rows)
}

/// Room for what each of the workers does.
fn works_for<O: Drop>(alloc: Global, workers: usize, count: usize) -> Result<Vec<Worked<O>>, Memory>
    ensures idle { IfOk result (λ w. AllIdle w.items) }
    ensures len { IfOk result (λ w. length w.items ≡ workers) }
{
    let mut works = Vec::with_capacity(alloc, workers)?;
    for _ in 0..workers {
        let taken = Vec::with_capacity(alloc, count)?;
        let done = Vec::with_capacity(alloc, count)?;
        works.push_reserved(Worked { taken, done });
    }
    Ok(works)
}

/// A place for the output of each job.
fn places_for<O: Drop>(alloc: Global, count: usize) -> Result<Vec<Option<O>>, Memory>
    ensures { IfOk result (λ p. p.items ≡ replicate count None) }
{
    let mut places = Vec::with_capacity(alloc, count)?;
    for _ in 0..count {
        places.push_reserved(None);
    }
    Ok(places)
}

/// The workers, each with its deque, its passes, and a part of the meter.
fn seats_for<O, L>(
    owners: &mut Vec<Owner>,
    rows: &mut Vec<Vec<Note>>,
    works: &mut Vec<Worked<O>>,
    seats: &mut Vec<Seat<O, L>>,
    meter: &mut Steps<L>,
)
    requires rows { length rows.old.items ≡ length owners.old.items }
    requires works { length works.old.items ≡ length owners.old.items }
    requires empty { seats.old.items ≡ [] }
    requires room { vec_len owners.old ≤ vec_capacity seats.old }
    ensures seats { seats.new.items ≡ seats_of 0 owners.old.items rows.old.items works.old.items }
    ensures owners { (owners.new.items ≡ []) × (vec_capacity owners.new ≡ vec_capacity owners.old) }
    ensures rows { (rows.new.items ≡ []) × (vec_capacity rows.new ≡ vec_capacity rows.old) }
    ensures capacity { vec_capacity seats.new ≡ vec_capacity seats.old }
    ensures meter { meter.new ≡ meter.old }
{
    let Some(owner) = owners.pop() else {
        return;
    };
    let Some(notes) = rows.pop() else {
        unreachable!()
    };
    let Some(worked) = works.pop() else {
        unreachable!()
    };
    let number = owners.len();
    seats_for(owners, rows, works, seats, meter);
    let reach = Reach {
        number,
        owner,
        notes,
    };
    let meter = meter.part();
    seats.push_reserved(Seat {
        reach,
        worked,
        meter,
    });
}

/// What a crew needs. `owners` and `rows` are empty: what the workers give back has its place there.
pub struct Room<O, L> {
    pub seats: Vec<Seat<O, L>>,
    pub thieves: Vec<Thief>,
    pub places: Vec<Option<O>>,
    pub items: Vec<O>,
    pub lists: Vec<Vec<u32>>,
    pub owners: Vec<Owner>,
    pub rows: Vec<Vec<Note>>,
}

/// All that a crew needs. Nothing else takes memory for it.
pub fn room_for<O: Drop, L>(
    alloc: Global,
    workers: u32,
    count: u32,
    meter: &mut Steps<L>,
) -> Result<Room<O, L>, Memory>
    requires { (0 < workers) × (workers ≤ 64) × (count ≤ 4096) }
    ensures meter { meter.new ≡ meter.old }
    ensures ok { IfOk result (IsSetUp workers count) }
{
    let deques = deques_for(alloc, workers, count)?;
    let Deques {
        mut owners,
        thieves,
    } = deques;
    let mut rows = rows_for(alloc, &mut owners)?;
    let mut works = works_for(alloc, workers as usize, count as usize)?;
    let places = places_for(alloc, count as usize)?;
    let items = Vec::with_capacity(alloc, count as usize)?;
    let lists = Vec::with_capacity(alloc, workers as usize)?;
    let mut seats = Vec::with_capacity(alloc, workers as usize)?;
    seats_for(&mut owners, &mut rows, &mut works, &mut seats, meter);
    Ok(Room {
        seats,
        thieves,
        places,
        items,
        lists,
        owners,
        rows,
    })
}
