//! A crew that finds the results of all keys.

ghost use Rattle.std.specs.Prelude.{◌≡◌, ◌<◌, ◌≤◌, IfOk, OnErr, length};
ghost use Rattle.result_cache.specs.Meet.{Share};
ghost use Rattle.build_crew.specs.Kept.{AreAllSeats};
ghost use Rattle.build_crew.specs.Leaves.{HasRun, HasStopped, new_among};
ghost use Rattle.desk_core.specs.Netlist.{key_texts};
ghost use Rattle.desk_core.specs.Results.{AreAnswers, AreKeys};

use crate::crew_jobs::CrewJobs;
use crate::kept::Kept;
use crate::modules::module_count;
use build_crew::Found;
use result_cache::Seat;
use rtl_bits::{Memory, Steps};
use std::marker::{Send, Sync};
use std::sync::Wait;
use std::thread::Threads;
use work_crew::{Gate, Outputs, run_jobs};

impl<R: Threads + Wait + Sync> CrewJobs<'_, R> {
    /// Finds the result of each key, by a worker for each of the cache's seats.
    pub fn run<G: Gate, L: Send>(
        &self,
        gate: &G,
        seats: &mut [Seat],
        meter: &mut Steps<L>,
    ) -> Result<Vec<Found<Kept>>, Memory>
        requires limits { (0 < length seats.old) × (length seats.old ≤ 64) }
        requires seats { AreAllSeats self.now.cache.now.table.shared.table_id (length seats.old)
            self.now.cache.now.shards 0 seats.old }
        requires shared { Share self.now.cache.now.shards seats.old }
        requires keys { AreKeys self.now.keys.now.design.now.design self.now.keys.now.table.now.modules.now
            self.now.keys.now.script.now self.now.all.now }
        ensures seats { AreAllSeats self.now.cache.now.table.shared.table_id (length seats.old)
            self.now.cache.now.shards 0 seats.new }
        ensures shared { Share self.now.cache.now.shards seats.new }
        ensures count { IfOk result (λ items.
            length items.items ≡ length self.now.keys.now.design.now.design.modules) }
        ensures answers { IfOk result (λ items.
            AreAnswers self.now.keys.now.script.now self.now.keys.now.design.now.design.modules items.items) }
        ensures ok { IfOk result (λ items.
            HasRun (key_texts self.now.keys.now.script.now self.now.keys.now.design.now.design.modules)
            (new_among (λ found. found.is_new) items.items) seats.old seats.new meter.old meter.new) }
        ensures err { OnErr result
            (HasStopped (key_texts self.now.keys.now.script.now self.now.keys.now.design.now.design.modules)
            seats.old seats.new meter.old meter.new) }
    {
        let count = module_count(self.keys.design);
        let outputs = run_jobs(self.rt, self.alloc, self, count, seats, gate, meter);
        self.cache.meet(self.rt, seats);
        let Outputs {
            items,
            taken: _taken,
        } = outputs?;
        Ok(items)
    }
}
