//! Workers beside each other.

ghost use Rattle.std.specs.Prelude.{◌≡◌, length};
ghost use Rattle.work_crew.specs.Pairs.{AllReady, AllRan};
ghost use Rattle.work_crew.specs.Seats.{MayWork, HasWorked};

use crate::deque::Thief;
use crate::job::{Gate, Job};
use crate::pairs::for_each_pair;
use crate::seat::{Seat, work};
use std::marker::{Send, Sync};
use std::sync::Wait;
use std::thread::Threads;

/// Each worker works, in a thread of its own where one can be started, else in the calling thread. It returns when all
/// have stopped.
pub fn work_beside<R: Threads + Wait + Sync, J: Job, G: Gate, L: Send>(
    rt: &R,
    jobs: &J,
    gate: &G,
    thieves: &[Thief],
    seats: &mut [Seat<J::Output, L>],
    tokens: &mut [J::Token],
)
    requires ready { AllReady (MayWork J.is_job J.token_fits jobs.now thieves.now) seats.old tokens.old }
    requires equal_lengths { length seats.old ≡ length tokens.old }
    ensures { AllRan (HasWorked J.token_fits J.output_fits J.does J.fails jobs.now thieves.now)
        seats.old seats.new tokens.old tokens.new }
{
    let each = move |seat: &mut Seat<J::Output, L>, token: &mut J::Token|
        requires { MayWork J.is_job J.token_fits jobs.now thieves.now seat.now token.now }
        ensures { HasWorked J.token_fits J.output_fits J.does J.fails jobs.entry.now thieves.entry.now
            seat.entry.now seat.exit.now token.entry.now token.exit.now }
    { work(rt, jobs, gate, thieves, seat, token) };
    for_each_pair(rt, &each, seats, tokens);
}

/// The workers of a list.
pub fn work_all<R: Threads + Wait + Sync, J: Job, G: Gate, L: Send>(
    rt: &R,
    jobs: &J,
    gate: &G,
    thieves: &[Thief],
    seats: &mut Vec<Seat<J::Output, L>>,
    tokens: &mut [J::Token],
)
    requires ready { AllReady (MayWork J.is_job J.token_fits jobs.now thieves.now) seats.old.items tokens.old }
    requires equal_lengths { length seats.old.items ≡ length tokens.old }
    ensures { AllRan (HasWorked J.token_fits J.output_fits J.does J.fails jobs.now thieves.now)
        seats.old.items seats.new.items tokens.old tokens.new }
{
    work_beside(rt, jobs, gate, thieves, seats.as_mut_slice(), tokens);
}
