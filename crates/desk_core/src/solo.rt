//! A desk that asks a cache that other desks share.

ghost use Rattle.std.specs.Prelude.{◌≡◌, IfOk, OnErr, OnOk};
ghost use Rattle.result_cache.specs.Seats.{IsIdle};
ghost use Rattle.build_crew.specs.Rises.{RisesUpTo};
ghost use Rattle.desk_core.specs.Ages.{texts_of};
ghost use Rattle.desk_core.specs.Builds.{KeepsAll, asked_by, builds_of};
ghost use Rattle.desk_core.specs.Solo.{Builds};
ghost use Rattle.desk_core.specs.State.{first_state};
ghost use Rattle.desk_core.specs.Step.{IsStep};

use crate::ages::Ages;
use crate::kept::Kept;
use crate::own_results::{Access, OwnResults};
use crate::present::Present;
use desk_read::Command;
use reply_lines::Reply;
use result_cache::{Seat, Shard, SharedCache};
use rtl_bits::{Memory, Steps};
use script_core::Script;
use std::alloc::Global;
use std::marker::Model;
use std::sync::Wait;

/// A desk of one thread, which keeps its results itself and finds those that it lacks in a cache that it shares with
/// other desks. What the others do changes none of its replies. Contracts see the state of the machine that a session
/// is.
#[derive(Drop)]
pub struct SoloDesk {
    pub(crate) present: Present,
    pub(crate) results: OwnResults,
}

impl Model for SoloDesk {
    ghost use Rattle.desk_core.specs.Codes.{state_code};
    ghost use Rattle.desk_core.specs.Solo.{AreOwn, own_state};
    ghost use Rattle.desk_core.specs.State.{State};

    ghost Value = { State };

    ghost coded = { state_code };

    ghost view = { λ d. own_state d.present.design.design d.present.script d.results };

    ghost invariant = { λ d. AreOwn d.present.design.design d.present.script d.results };
}

impl SoloDesk {
    /// A desk with the empty design and this script, of which no key is kept. It keeps the allocator, and takes no
    /// memory.
    pub fn make(alloc: Global, script: Script) -> SoloDesk
        ensures value { result ≡ first_state script }
    {
        SoloDesk {
            present: Present::make(alloc, script),
            results: OwnResults {
                shard: Shard::make(alloc),
                ages: Ages::make(alloc),
                found: Vec::new(alloc),
            },
        }
    }

    /// Answers a command. The cache is asked, with the seat, for the keys of the command that the desk does not keep.
    /// Each build of a module is a step of the meter. It may wait for other seats.
    ///
    /// After an error the state is as before; the cache may have further results.
    #[tactic(auto, using(crate::proofs::Changing::plain, crate::proofs::Rises::rises_none, crate::proofs::OwnCalls::builds_none))]
    pub fn command<R: Wait, L>(
        &mut self,
        rt: &R,
        command: &Command,
        cache: &SharedCache<Kept>,
        seat: &mut Seat,
        meter: &mut Steps<L>,
    ) -> Result<Reply, Memory>
        requires idle { IsIdle cache.now.table.shared.table_id seat.old }
        ensures idle { IsIdle cache.now.table.shared.table_id seat.new }
        ensures step { IfOk result (λ reply. IsStep command.now self.old reply self.new) }
        ensures builds { RisesUpTo (builds_of command.now self.old) meter.old meter.new }
        ensures built { OnOk result (Builds (texts_of self.old.kept) (asked_by command.now self.old) seat.old seat.new
            meter.old meter.new) }
        ensures err { OnErr result (KeepsAll self.old self.new) }
    {
        let alloc = self.present.alloc;
        let access = Access { rt, alloc, cache };
        match command {
            Command::Run => self.run(&access, seat, meter),
            Command::Print => self.print(&access, seat, meter),
            Command::SimNetlist(ask) => self.run_netlist(&access, ask, seat, meter),
            _ => self.present.answer(&mut self.results.found, command),
        }
    }
}
