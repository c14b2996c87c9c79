//! Pairs of signals, up to the end of the line: those of `connect`, `assign` and `update`.

ghost use Rattle.std.specs.Prelude.{◌≡◌, Ok, OnOk};
ghost use Rattle.rtl_lex.specs.Items.{as_seen};
ghost use Rattle.rtl_read.specs.Gives.{Sets};
ghost use Rattle.rtl_read.specs.Act.Pair.{act_behind_left, put_pair, close_pair, act_behind_right};

use crate::draft::{Draft, PairKind};
use crate::read_fault::ReadFault;
use rtl_bits::Memory;
use rtl_ir::Link;
use rtl_lex::{Item, Sort};
use rtl_sig::SigSpec;
use std::alloc::Global;
use std::mem;

impl Draft {
    /// A bracket behind the left signal; or the right signal begins.
    pub(crate) fn act_behind_left(
        &mut self,
        alloc: Global,
        item: &Item<'_>,
    ) -> Result<(), ReadFault>
        ensures { Sets result self.new (act_behind_left item.now.sort (as_seen item.now) self.old) }
    {
        if item.sort == Sort::OpenIndex {
            self.open_bracket(item);
            return Ok(());
        }
        self.left = self.take_signal(alloc)?;
        self.begin_signal(alloc, item)
    }

    /// A pair goes to the module, to the open case, or to the open rule.
    fn put_pair(&mut self, pair: PairKind, link: Link) -> Result<(), Memory>
        ensures { OnOk result (self.new ≡ put_pair pair link self.old) }
    {
        match pair {
            PairKind::Connect => self.current.add_link(link),
            PairKind::Assign => self.process.tree.add_assign(link),
            PairKind::Update => self.process.add_update(link),
        }
    }

    /// The pair is whole.
    fn close_pair(&mut self, alloc: Global) -> Result<(), Memory>
        ensures { OnOk result (self.new ≡ close_pair self.old) }
    {
        let pair = mem::replace(&mut self.pair, PairKind::Connect);
        let left = mem::replace(&mut self.left, SigSpec::make(alloc));
        let right = self.take_signal(alloc)?;
        self.put_pair(pair, Link { left, right })
    }

    /// A bracket behind the right signal; or the end of the line.
    pub(crate) fn act_behind_right(
        &mut self,
        alloc: Global,
        item: &Item<'_>,
    ) -> Result<(), ReadFault>
        ensures { Sets result self.new (Ok (act_behind_right item.now.sort (as_seen item.now) self.old)) }
    {
        if item.sort == Sort::OpenIndex {
            self.open_bracket(item);
            return Ok(());
        }
        self.close_pair(alloc)?;
        Ok(())
    }
}
