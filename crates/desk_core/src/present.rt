//! The present design and script of a desk.

ghost use Rattle.std.specs.Prelude.{◌≡◌, false, List, [], IfOk, OnErr, length};
ghost use Rattle.rtl_readable.specs.Readable.{IsReadable};
ghost use Rattle.desk_core.specs.Builds.{needs_netlist};
ghost use Rattle.desk_core.specs.Present.{KeepsBeside, state_with};
ghost use Rattle.desk_core.specs.State.{KeptKey};
ghost use Rattle.desk_core.specs.Step.{IsStep};

use crate::kept::Kept;
use desk_read::Command;
use reply_lines::{Reply, error_reply, last_reply};
use rtl_bits::Memory;
use rtl_check::Checked;
use script_core::Script;
use std::alloc::Global;

/// The present design and script. The results that were found beside the modules stand elsewhere, where each kind of
/// desk keeps its own: a call that changes the design is lent them.
#[derive(Drop)]
pub struct Present {
    pub alloc: Global,
    pub design: Checked,
    pub script: Script,
}

impl Present {
    /// The empty design and this script. It takes no memory.
    pub fn make(alloc: Global, script: Script) -> Present
        ensures design { result.design.design.modules ≡ [] }
        ensures script { result.script ≡ script }
    {
        let design = Checked::empty(alloc);
        Present {
            alloc,
            design,
            script,
        }
    }

    /// Answers a command that needs no netlist.
    pub fn answer(
        &mut self,
        found: &mut Vec<Option<Kept>>,
        command: &Command,
    ) -> Result<Reply, Memory>
        requires plain { needs_netlist command.now ≡ false }
        requires readable { IsReadable self.old.design.design }
        requires beside { length found.old.items ≡ length self.old.design.design.modules }
        ensures present { KeepsBeside self.old found.old.items self.new found.new.items }
        ensures step { (kept : List KeptKey) → IfOk result (λ reply.
            IsStep command.now (state_with kept self.old) reply (state_with kept self.new)) }
        ensures err { OnErr result ((self.new ≡ self.old) × (found.new ≡ found.old)) }
    {
        match command {
            Command::Load(text) => self.load(found, text.as_slice()),
            Command::Edit(text) => self.edit(found, text.as_slice()),
            Command::Remove(name) => self.remove(found, name.as_slice()),
            Command::Script(text) => self.set_script(found, text.as_slice()),
            Command::Show(name) => self.show(name.as_slice()),
            Command::Version => self.version(),
            Command::Modules => self.modules(),
            Command::Ports(name) => self.ports(name.as_slice()),
            Command::SimSource(ask) => self.run_source(ask),
            Command::Quit => last_reply(self.alloc),
            Command::Bad => error_reply(self.alloc, b"21"),
            Command::Unclosed => error_reply(self.alloc, b"22"),
            Command::Run | Command::Print | Command::SimNetlist(_) => unreachable!(),
        }
    }
}
