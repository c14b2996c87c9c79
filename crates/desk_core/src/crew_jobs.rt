//! The jobs of a crew: each finds the result of the key of one module.

use crate::kept::Kept;
use crate::key_order::KeyOrder;
use crate::keys::Keys;
use build_crew::{Found, find};
use result_cache::{Seat, SharedCache};
use rtl_bits::{Memory, Steps};
use script_core::Key;
use std::alloc::Global;
use std::marker::{Send, Sync};
use std::sync::Wait;
use work_crew::Job;

/// The jobs of a crew: job n finds the result of the module at place n, whose key is at place n too.
#[derive_where(Clone, Copy)]
pub struct CrewJobs<'a, R> {
    pub rt: &'a R,
    pub alloc: Global,
    pub cache: &'a SharedCache<Kept>,
    pub keys: &'a Keys<'a, 'a>,
    pub all: &'a [Key],
}

impl<R: Wait + Sync> Job for CrewJobs<'_, R> {
    type Output = Found<Kept>;

    type Token = Seat;

    ghost use Rattle.std.specs.Prelude.{◌≡◌, ◌<◌, length};
    ghost use Rattle.result_cache.specs.Seats.{IsIdle};
    ghost use Rattle.build_crew.specs.Calls.{HasFailed, HasFound};
    ghost use Rattle.desk_core.specs.Results.{AreKeys};
    ghost use Rattle.desk_core.specs.Netlist.{key_text_at};
    ghost use Rattle.script_core.specs.Built.{IsValueOf};
    ghost use Rattle.script_core.specs.Keys.{key_of};

    ghost is_job = { λ jobs k.
        AreKeys jobs.keys.now.design.now.design jobs.keys.now.table.now.modules.now jobs.keys.now.script.now
        jobs.all.now
        × (k < length jobs.keys.now.design.now.design.modules) };

    ghost token_fits = { λ jobs seat. IsIdle jobs.cache.now.table.shared.table_id seat };

    ghost output_fits = { λ jobs k found.
        (found.value.key ≡ key_of jobs.keys.now.design.now.design.modules k jobs.keys.now.script.now)
        × IsValueOf found.value.key found.value.outcome };

    ghost does = { λ jobs k found old new n.
        HasFound (key_text_at jobs.keys.now.script.now jobs.keys.now.design.now.design.modules k) found.is_new
        old new n };

    ghost fails = { λ jobs k old new n. HasFailed old new n };

    fn perform<L: Send>(
        &self,
        number: u32,
        token: &mut Seat,
        meter: &mut Steps<L>,
    ) -> Result<Found<Kept>, Memory> {
        let order = KeyOrder {
            alloc: self.alloc,
            keys: self.keys,
            key: &self.all[number as usize],
            at: number,
        };
        find(self.rt, self.cache, token, &order, meter)
    }
}
