//! What the owners of the deques know once the passes of all workers have ended.

ghost use Rattle.std.specs.Prelude.{◌≡◌, ℕ, ◌+◌, ◌≤◌, length};
ghost use Rattle.std.specs.Vec.{vec_capacity};
ghost use Rattle.work_crew.specs.Reach.{tally};
ghost use Rattle.work_crew.specs.Settle.{Owned, AllOwned, SameOwners, AllFirst, taken_by, put_by, tallies};

use crate::deque::{Note, Owner, learn, take_in};

/// Ends a worker's passes, from that of the last deque to that of the first.
fn settle_row(owners: &mut Vec<Owner>, row: &mut Vec<Note>)
    requires { Owned owners.old.items row.old.items }
    ensures capacity { vec_capacity owners.new ≡ vec_capacity owners.old }
    ensures same { SameOwners owners.old.items owners.new.items }
    ensures taken { (k : ℕ) → taken_by k owners.new.items ≡ taken_by k owners.old.items + tally k row.old.items }
{
    let Some(note) = row.pop() else {
        return;
    };
    let Some(mut owner) = owners.pop() else {
        unreachable!()
    };
    take_in(&mut owner, note);
    settle_row(owners, row);
    owners.push_reserved(owner);
}

/// Each job was taken at most as often as it was put.
fn learn_all(owners: &mut Vec<Owner>)
    requires { AllFirst owners.old.items }
    ensures capacity { vec_capacity owners.new ≡ vec_capacity owners.old }
    ensures len { length owners.new.items ≡ length owners.old.items }
    ensures once { (k : ℕ) → taken_by k owners.old.items ≤ put_by k owners.old.items }
{
    let Some(mut owner) = owners.pop() else {
        return;
    };
    learn(&mut owner);
    learn_all(owners);
    owners.push_reserved(owner);
}

/// Ends the passes of all workers.
fn settle_rows(owners: &mut Vec<Owner>, rows: &mut Vec<Vec<Note>>)
    requires { AllOwned owners.old.items rows.old.items }
    ensures same { SameOwners owners.old.items owners.new.items }
    ensures taken { (k : ℕ) → taken_by k owners.new.items ≡ taken_by k owners.old.items + tallies k rows.old.items }
{
    while let Some(mut row) = rows.pop() {
        settle_row(owners, &mut row);
    }
}

/// Ends the passes of all workers: each job was taken, by whomever, at most as often as it was put.
pub fn settle(owners: &mut Vec<Owner>, rows: &mut Vec<Vec<Note>>)
    requires owners { AllFirst owners.old.items }
    requires rows { AllOwned owners.old.items rows.old.items }
    ensures once { (k : ℕ) → taken_by k owners.old.items + tallies k rows.old.items ≤ put_by k owners.old.items }
{
    settle_rows(owners, rows);
    learn_all(owners);
}
