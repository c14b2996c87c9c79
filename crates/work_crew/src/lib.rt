//! Jobs by number, done by many workers that steal from one another.
#![tactic(auto)]

mod beside;
mod crew;
mod deque;
mod gather;
mod job;
mod pairs;
mod reach;
mod seat;
mod settle;
mod setup;

pub use crew::{Outputs, run_jobs};
pub use job::{Gate, Job, NoGate};
