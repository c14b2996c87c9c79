//! The jobs of a crew of desks: each answers the commands of one.

use crate::table::{Commands, Table};
use result_cache::{Seat, SharedCache};
use rtl_bits::{Memory, Seq, Steps};
use std::alloc::Global;
use std::marker::Send;
use work_crew::Job;

/// Desks over one cache: job n answers the commands of desk n, from its start on.
#[derive_where(Clone, Copy)]
pub struct Desks<'a, T: Table> {
    pub alloc: Global,
    pub table: &'a T,
    pub lists: &'a [Commands<T::Command>],
    pub cache: &'a SharedCache<T::Value>,
}

impl<T: Table> Job for Desks<'_, T> {
    type Output = Seq<T::Reply>;

    type Token = Seat;

    ghost use Rattle.std.specs.Prelude.{◌<◌, length};
    ghost use Rattle.result_cache.specs.Seats.{IsIdle};
    ghost use Rattle.many_desks.specs.Serving.{DoesDesk, RepliesDesk};

    ghost is_job = { λ desks k. k < length desks.lists.now };

    ghost token_fits = { λ desks seat. IsIdle desks.cache.now.table.shared.table_id seat };

    ghost output_fits = { λ desks k replies.
        RepliesDesk (T.steps desks.table.now) (T.first_state desks.table.now) desks.lists.now k replies };

    ghost does = { λ desks k replies old new n.
        DoesDesk (T.steps desks.table.now) (T.does desks.table.now) (T.first_state desks.table.now) desks.lists.now k
        replies old new n };

    ghost fails = { λ desks k old new n. Unit {0} };

    fn perform<L: Send>(
        &self,
        number: u32,
        token: &mut Seat,
        meter: &mut Steps<L>,
    ) -> Result<Seq<T::Reply>, Memory> {
        let mut state = self.table.start()?;
        let mut replies = Seq::make(self.alloc);
        let commands = self.lists[number as usize].as_slice();
        for command in commands {
            let reply = self
                .table
                .answer(&mut state, command, self.cache, token, meter)?;
            replies.push(reply)?;
        }
        Ok(replies)
    }
}
