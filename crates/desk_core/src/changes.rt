//! Commands that change the design or the script.

ghost use Rattle.std.specs.Prelude.{◌≡◌, List, IfOk, OnErr, Ok};
ghost use Rattle.rtl_readable.specs.Readable.{IsReadable};
ghost use Rattle.desk_core.specs.Answers.{IsLoadAnswer, design_answer, script_answer, script_answer_by};
ghost use Rattle.desk_core.specs.Present.{KeepsBeside, state_with};
ghost use Rattle.desk_core.specs.State.{KeptKey, answer};

use crate::kept::Kept;
use crate::modules::{module_count, none_found};
use crate::present::Present;
use reply_lines::{Reply, check_reply, counted_reply, number_reply, read_reply};
use rtl_bits::Memory;
use rtl_check::{Checked, check};
use rtl_ir::Design;
use rtl_read::read;
use script_core::{Script, ScriptFault, parse_script};

impl Present {
    /// The text's design becomes the present one.
    #[tactic(auto, using(crate::proofs::Changing::loaded, crate::proofs::Changing::refused_load, rtl_write::proofs::Kept::readable))]
    pub fn load(&mut self, found: &mut Vec<Option<Kept>>, text: &[u8]) -> Result<Reply, Memory>
        ensures present { KeepsBeside self.old found.old.items self.new found.new.items }
        ensures ok { (kept : List KeptKey) → IfOk result (λ reply.
            IsLoadAnswer (state_with kept self.old) text.now (answer reply (state_with kept self.new))) }
        ensures err { OnErr result ((self.new ≡ self.old) × (found.new ≡ found.old)) }
    {
        match read(self.alloc, text) {
            Ok(design) => self.replace(found, design),
            Err(fault) => read_reply(self.alloc, fault),
        }
    }

    /// The design becomes the present one, unless it has a fault.
    #[tactic(auto, using(crate::proofs::Changing::accepted_design, crate::proofs::Changing::refused_design))]
    pub fn replace(
        &mut self,
        found: &mut Vec<Option<Kept>>,
        design: Design,
    ) -> Result<Reply, Memory>
        requires readable { IsReadable design }
        ensures present { KeepsBeside self.old found.old.items self.new found.new.items }
        ensures ok { (kept : List KeptKey) → IfOk result (λ reply.
            answer reply (state_with kept self.new) ≡ design_answer (state_with kept self.old) design.modules) }
        ensures err { OnErr result ((self.new ≡ self.old) × (found.new ≡ found.old)) }
    {
        match check(self.alloc, design) {
            Ok(checked) => self.accept(found, checked),
            Err(refused) => check_reply(self.alloc, &refused.fault),
        }
    }

    /// The design becomes the present one.
    #[tactic(auto, using(crate::proofs::Changing::taken_design, crate::proofs::Changing::present_fresh))]
    fn accept(&mut self, found: &mut Vec<Option<Kept>>, design: Checked) -> Result<Reply, Memory>
        requires readable { IsReadable design.design }
        ensures present { KeepsBeside self.old found.old.items self.new found.new.items }
        ensures ok { (kept : List KeptKey) → IfOk result (λ reply.
            answer reply (state_with kept self.new) ≡ design_answer (state_with kept self.old) design.design.modules) }
        ensures err { OnErr result ((self.new ≡ self.old) × (found.new ≡ found.old)) }
    {
        let count = module_count(&design) as usize;
        let reply = counted_reply(self.alloc, b"modules", count)?;
        let none = none_found(self.alloc, count)?;
        self.design = design;
        *found = none;
        Ok(reply)
    }

    /// The script of the text becomes the present one.
    #[tactic(auto, using(crate::proofs::Changing::read_script, crate::proofs::Changing::refused_script))]
    pub fn set_script(
        &mut self,
        found: &mut Vec<Option<Kept>>,
        text: &[u8],
    ) -> Result<Reply, Memory>
        requires readable { IsReadable self.old.design.design }
        ensures present { KeepsBeside self.old found.old.items self.new found.new.items }
        ensures ok { (kept : List KeptKey) → IfOk result (λ reply.
            answer reply (state_with kept self.new) ≡ script_answer (state_with kept self.old) text.now) }
        ensures err { OnErr result ((self.new ≡ self.old) × (found.new ≡ found.old)) }
    {
        match parse_script(self.alloc, text) {
            Ok(script) => self.take_script(found, script),
            Err(ScriptFault::Bad(number)) => number_reply(self.alloc, b"19 ", number as usize),
            Err(ScriptFault::Memory) => Err(Memory),
        }
    }

    /// The script becomes the present one.
    #[tactic(auto, using(crate::proofs::Changing::taken_script, crate::proofs::Changing::present_fresh))]
    fn take_script(
        &mut self,
        found: &mut Vec<Option<Kept>>,
        script: Script,
    ) -> Result<Reply, Memory>
        requires readable { IsReadable self.old.design.design }
        ensures present { KeepsBeside self.old found.old.items self.new found.new.items }
        ensures ok { (kept : List KeptKey) → IfOk result (λ reply.
            answer reply (state_with kept self.new) ≡ script_answer_by (state_with kept self.old) (Ok script)) }
        ensures err { OnErr result ((self.new ≡ self.old) × (found.new ≡ found.old)) }
    {
        let reply = counted_reply(self.alloc, b"script", script.as_slice().len())?;
        let none = none_found(self.alloc, module_count(&self.design) as usize)?;
        self.script = script;
        *found = none;
        Ok(reply)
    }
}
