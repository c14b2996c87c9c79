//! A desk: the present design and script, and what is kept.

ghost use Rattle.std.specs.Prelude.{◌≡◌, ◌≤◌, IfOk, OnErr, length};
ghost use Rattle.rtl_readable.specs.Readable.{IsReadable};
ghost use Rattle.desk_core.specs.Answers.{design_answer};
ghost use Rattle.desk_core.specs.State.{answer, first_state};

use crate::ages::Ages;
use crate::present::Present;
use crate::results::Results;
use reply_lines::Reply;
use result_cache::{Opened, SharedCache};
use rtl_bits::Memory;
use rtl_ir::Design;
use script_core::Script;
use std::alloc::Global;
use std::marker::Model;

/// The number of shards of the cache: so many results can be asked for at once.
const SHARDS: u32 = 16;

/// The present design and script, and what is kept of results. Contracts see the state of the machine that a session
/// is, and the seats of the workers.
#[derive(Drop)]
pub struct Desk {
    pub(crate) present: Present,
    pub(crate) results: Results,
}

impl Model for Desk {
    ghost use Rattle.desk_core.specs.Codes.{view_code};
    ghost use Rattle.desk_core.specs.State.{DeskView};
    ghost use Rattle.desk_core.specs.Results.{AreSound, view_of};

    ghost Value = { DeskView };

    ghost coded = { view_code };

    ghost view = { λ d. view_of d.present.design.design d.present.script d.results };

    ghost invariant = { λ d. AreSound d.present.design.design d.present.script d.results };
}

impl Desk {
    /// A desk with the empty design and this script, of which no key is kept, with so many workers, from 1 to 64.
    pub fn make(alloc: Global, script: Script, workers: u32) -> Result<Desk, Memory>
        requires some { 1 ≤ workers }
        requires few { workers ≤ 64 }
        ensures value { IfOk result (λ desk. desk.state ≡ first_state script) }
        ensures workers { IfOk result (λ desk. length desk.seats ≡ workers) }
    {
        let Opened { cache, seats } = SharedCache::make(alloc, workers, SHARDS)?;
        let results = Results {
            cache,
            seats,
            ages: Ages::make(alloc),
            found: Vec::new(alloc),
        };
        Ok(Desk {
            present: Present::make(alloc, script),
            results,
        })
    }

    /// The design becomes the present one, unless it has a fault.
    pub fn replace(&mut self, design: Design) -> Result<Reply, Memory>
        requires readable { IsReadable design }
        ensures ok { IfOk result (λ reply. answer reply self.new.state ≡ design_answer self.old.state design.modules) }
        ensures seats { self.new.seats ≡ self.old.seats }
        ensures err { OnErr result (self.new ≡ self.old) }
    {
        self.present.replace(&mut self.results.found, design)
    }
}
