//! The commands of a session.

ghost use Rattle.std.specs.Prelude.{IfOk, OnErr, OnOk};
ghost use Rattle.build_crew.specs.Rises.{RisesUpTo};
ghost use Rattle.desk_core.specs.Builds.{BuildsOrReturns, HasClaims, KeepsAll, asked_by, builds_of};
ghost use Rattle.desk_core.specs.Step.{IsStep};

use crate::crew::Crew;
use crate::desk::Desk;
use desk_read::Command;
use reply_lines::Reply;
use rtl_bits::{Memory, Steps};
use std::marker::{Send, Sync};
use std::sync::Wait;
use std::thread::Threads;
use work_crew::Gate;

impl Desk {
    /// Answers a command. Each build of a module is a step of the meter. The workers run in threads, and a worker calls
    /// the gate before and after the job of each module.
    ///
    /// After an error the state is as before; the cache may have further results. There were then no more builds than
    /// keys of the command that were not kept and tickets that the seats gave back.
    #[tactic(auto, using(crate::proofs::Changing::plain, crate::proofs::Changing::claims_plain, crate::proofs::Told::keeps_same, crate::proofs::Rises::rises_none, crate::proofs::Rises::returns_none))]
    pub fn command<R: Threads + Wait + Sync, G: Gate, L: Send>(
        &mut self,
        rt: &R,
        command: &Command,
        gate: &G,
        meter: &mut Steps<L>,
    ) -> Result<Reply, Memory>
        ensures step { IfOk result (λ reply. IsStep command.now self.old.state reply self.new.state) }
        ensures builds { OnOk result (RisesUpTo (builds_of command.now self.old.state) meter.old meter.new) }
        ensures claims { OnOk result (HasClaims (asked_by command.now self.old.state) self.old.seats self.new.seats) }
        ensures err { OnErr result (KeepsAll self.old.state self.new.state) }
        ensures returned { BuildsOrReturns (builds_of command.now self.old.state) self.old.seats self.new.seats
            meter.old meter.new }
    {
        let alloc = self.present.alloc;
        let crew = Crew { rt, alloc, gate };
        match command {
            Command::Run => self.run(&crew, meter),
            Command::Print => self.print(&crew, meter),
            Command::SimNetlist(ask) => self.run_netlist(&crew, ask, meter),
            _ => self.present.answer(&mut self.results.found, command),
        }
    }
}
