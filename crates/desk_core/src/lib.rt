//! A session: a design and a script that commands change, the results that are kept and that workers build, and the
//! replies.
#![tactic(auto)]

mod ages;
mod beside;
mod changes;
mod command;
mod crew;
mod crew_jobs;
mod crew_run;
mod desk;
mod edit;
mod kept;
mod key_order;
mod keys;
pub mod laws;
mod listing;
mod modules;
mod needed;
mod netlist;
mod own_results;
mod present;
mod results;
mod runs;
mod show;
mod simulate;
mod solo;
mod solo_runs;
mod summary;

pub use crew::Crew;
pub use desk::Desk;
pub use desk_read::{Command, CommandReader, SimAsk};
pub use kept::Kept;
pub use reply_lines::Reply;
pub use solo::SoloDesk;
