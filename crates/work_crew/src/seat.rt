//! One worker: it takes jobs until there are none left, or one fails.

ghost use Rattle.std.specs.Prelude.{◌≡◌, ◌+◌, ◌<◌, [], ◌∷◌, ◌++◌, IsTrue, vec_len};
ghost use Rattle.std.specs.Vec.{vec_capacity};
ghost use Rattle.work_crew.specs.Seats.{MayWork, HasWorked};

use crate::deque::Thief;
use crate::job::{Gate, Job};
use crate::reach::{Reach, next_job};
use rtl_bits::Steps;
use std::marker::Send;
use std::sync::Wait;

/// What a worker did: the jobs that were answered Ok, in order, and these with their outputs.
#[derive(Drop)]
pub struct Worked<O> {
    pub taken: Vec<u32>,
    pub done: Vec<(u32, O)>,
}

impl<O> Worked<O> {
    /// Whether there is room for a further job.
    fn has_room(&self) -> bool
        ensures taken { IsTrue result → vec_len self.now.taken < vec_capacity self.now.taken }
        ensures done { IsTrue result → vec_len self.now.done < vec_capacity self.now.done }
    {
        self.taken.len() < self.taken.capacity() && self.done.len() < self.done.capacity()
    }

    /// A job that was answered Ok.
    fn add(&mut self, job: u32, output: O)
        requires taken { vec_len self.old.taken < vec_capacity self.old.taken }
        requires done { vec_len self.old.done < vec_capacity self.old.done }
        ensures taken { self.new.taken.items ≡ self.old.taken.items ++ job ∷ [] }
        ensures done { self.new.done.items ≡ self.old.done.items ++ (job, output) ∷ [] }
        ensures len { vec_len self.new.taken ≡ vec_len self.old.taken + 1 }
        ensures capacity { vec_capacity self.new.taken ≡ vec_capacity self.old.taken }
    {
        self.taken.push_reserved(job);
        self.done.push_reserved((job, output));
    }
}

/// A worker: what it reaches of the deques, what it did, and its part of the meter.
pub struct Seat<O, L> {
    pub reach: Reach,
    pub worked: Worked<O>,
    pub meter: Steps<L>,
}

/// Takes jobs and does them, until there are none left, or one fails.
pub fn work<R: Wait, J: Job, G: Gate, L: Send>(
    rt: &R,
    jobs: &J,
    gate: &G,
    thieves: &[Thief],
    seat: &mut Seat<J::Output, L>,
    token: &mut J::Token,
)
    requires { MayWork J.is_job J.token_fits jobs.now thieves.now seat.old token.old }
    ensures { HasWorked J.token_fits J.output_fits J.does J.fails jobs.now thieves.now
        seat.old seat.new token.old token.new }
{
    while seat.worked.has_room() {
        let Some(job) = next_job(rt, thieves, &mut seat.reach) else {
            return;
        };
        gate.enter(job);
        let reply = jobs.perform(job, token, &mut seat.meter);
        gate.leave(job);
        let Ok(output) = reply else {
            return;
        };
        seat.worked.add(job, output);
    }
}
