//! Modules that take the places of those of their names, or that are taken away.

ghost use Rattle.std.specs.Prelude.{◌≡◌, ◌≢◌, ◌≤◌, IfErr, IfOk, List, OnErr, OnOk, length, map};
ghost use Rattle.rtl_sig.specs.Names.{AreDistinct};
ghost use Rattle.rtl_ir.specs.Faults.{check_faults};
ghost use Rattle.rtl_ir.specs.declared.limits.TheConstants.{MAX_MODULES};
ghost use Rattle.rtl_ir.specs.declared.module.Module.{Module};
ghost use Rattle.rtl_lex.specs.Items.{Seen};
ghost use Rattle.rtl_readable.specs.Readable.{IsReadable};
ghost use Rattle.rtl_read.specs.Reads.{AreItemsOf, Reads};
ghost use Rattle.rtl_check.specs.Edits.{IsEditFault};
ghost use Rattle.rtl_check.specs.Finds.{IsFirst};
ghost use Rattle.design_edit.specs.Modules.{with_modules, without_module};
ghost use Rattle.desk_core.specs.Answers.{IsEditAnswer, IsEdited, remove_answer};
ghost use Rattle.desk_core.specs.Edits.{IsEditReply};
ghost use Rattle.desk_core.specs.Present.{KeepsBeside, state_with};
ghost use Rattle.desk_core.specs.State.{KeptKey, answer};

use crate::beside::{fill_up, let_go_unseen, unedited};
use crate::kept::Kept;
use crate::present::Present;
use design_edit::{edited_count, module_place, place_named};
use reply_lines::{Reply, check_reply, counted_reply, place_reply, read_reply, told_reply};
use rtl_bits::{Memory, Seq};
use rtl_check::{CheckFault, Checked, EditFault};
use rtl_ir::{Design, Module};
use rtl_read::read;
use std::alloc::Global;
use std::mem;

/// Each of these modules takes the place of the one of its name, or comes last. After an error the design is as before.
fn edit_design(alloc: Global, design: &mut Checked, edits: Seq<Module>) -> Result<(), EditFault>
    requires few { length design.old.design.modules ≤ MAX_MODULES }
    ensures ok { OnOk result (design.new.design.modules ≡ with_modules design.old.design.modules edits) }
    ensures count { OnOk result (length design.new.design.modules ≤ MAX_MODULES) }
    ensures err { OnErr result (design.new.design ≡ design.old.design) }
    ensures fault { IfErr result (IsEditFault design.old.design.modules edits) }
{
    let old = mem::replace(design, Checked::empty(alloc));
    match old.edit(alloc, edits) {
        Ok(edited) => {
            *design = edited;
            Ok(())
        }
        Err(refused) => {
            *design = refused.checked;
            Err(refused.fault)
        }
    }
}

/// The module of this name is taken away. After an error the design is as before.
fn remove_module(alloc: Global, design: &mut Checked, name: &[u8]) -> Result<(), CheckFault>
    requires distinct { AreDistinct (map (λ (m : Module). m.id) design.old.design.modules) }
    ensures ok { OnOk result (design.new.design.modules ≡ without_module design.old.design.modules name.now) }
    ensures err { OnErr result (design.new.design ≡ design.old.design) }
    ensures fault { IfErr result (λ fault.
        IsFirst fault (check_faults (without_module design.old.design.modules name.now))) }
{
    let old = mem::replace(design, Checked::empty(alloc));
    match old.remove(alloc, name) {
        Ok(rest) => {
            *design = rest;
            Ok(())
        }
        Err(refused) => {
            *design = refused.checked;
            Err(refused.fault)
        }
    }
}

/// The reply to an edit of this text that is refused.
fn edit_reply(alloc: Global, text: &[u8], fault: &EditFault) -> Result<Reply, Memory>
    ensures value { IfOk result (λ reply. (items : List Seen) → AreItemsOf text.now items →
        IsEditReply items fault.now reply) }
{
    match fault {
        EditFault::Past(at) => place_reply(alloc, b"17 ", module_place(text, *at)),
        EditFault::Check(fault) => check_reply(alloc, fault),
    }
}

impl Present {
    /// Each module of the text's design takes the place of the one of its name, or comes last.
    #[tactic(auto, using(crate::proofs::Changing::edited, crate::proofs::Changing::refused_edit))]
    pub fn edit(&mut self, found: &mut Vec<Option<Kept>>, text: &[u8]) -> Result<Reply, Memory>
        requires readable { IsReadable self.old.design.design }
        requires beside { length found.old.items ≡ length self.old.design.design.modules }
        ensures present { KeepsBeside self.old found.old.items self.new found.new.items }
        ensures ok { (kept : List KeptKey) → IfOk result (λ reply.
            IsEditAnswer (state_with kept self.old) text.now (answer reply (state_with kept self.new))) }
        ensures err { OnErr result ((self.new ≡ self.old) × (found.new ≡ found.old)) }
    {
        match read(self.alloc, text) {
            Ok(design) => self.take_edits(found, text, design),
            Err(fault) => read_reply(self.alloc, fault),
        }
    }

    /// Each module of the design takes the place of the one of its name, or comes last. The design is that of the text.
    /// The results of the other modules stay beside them, where they see the same ports.
    #[tactic(auto, using(crate::proofs::Changing::taken_edits, crate::proofs::Staying::present_edited, crate::proofs::Staying::unedited_long))]
    fn take_edits(
        &mut self,
        found: &mut Vec<Option<Kept>>,
        text: &[u8],
        edits: Design,
    ) -> Result<Reply, Memory>
        requires reads { Reads text.now edits }
        requires readable { IsReadable self.old.design.design }
        requires beside { length found.old.items ≡ length self.old.design.design.modules }
        ensures present { KeepsBeside self.old found.old.items self.new found.new.items }
        ensures ok { (kept : List KeptKey) → IfOk result (λ reply.
            IsEdited (state_with kept self.old) text.now edits (answer reply (state_with kept self.new))) }
        ensures err { OnErr result ((self.new ≡ self.old) × (found.new ≡ found.old)) }
    {
        let alloc = self.alloc;
        let modules = self.design.design().modules.as_slice();
        let count = edited_count(alloc, modules, edits.modules.as_slice())?;
        let reply = counted_reply(alloc, b"modules", count)?;
        let mut rest = unedited(alloc, edits.modules.as_slice(), modules, found.as_slice())?;
        fill_up(&mut rest, count)?;
        if let Err(fault) = edit_design(alloc, &mut self.design, edits.modules) {
            return edit_reply(alloc, text, &fault);
        }
        let_go_unseen(alloc, &self.design, &mut rest);
        *found = rest;
        Ok(reply)
    }

    /// The module of this name is taken away. The results of the other modules stay beside them.
    #[tactic(auto, using(crate::proofs::Staying::place_inside))]
    pub fn remove(&mut self, found: &mut Vec<Option<Kept>>, name: &[u8]) -> Result<Reply, Memory>
        requires readable { IsReadable self.old.design.design }
        requires beside { length found.old.items ≡ length self.old.design.design.modules }
        ensures present { KeepsBeside self.old found.old.items self.new found.new.items }
        ensures ok { (kept : List KeptKey) → IfOk result (λ reply.
            answer reply (state_with kept self.new) ≡ remove_answer (state_with kept self.old) name.now) }
        ensures err { OnErr result ((self.new ≡ self.old) × (found.new ≡ found.old)) }
    {
        let alloc = self.alloc;
        let modules = self.design.design().modules.as_slice();
        let Some(at) = place_named(modules, name) else {
            return told_reply(alloc, b"18 ", name);
        };
        let reply = counted_reply(alloc, b"modules", modules.len() - 1)?;
        if let Err(fault) = remove_module(alloc, &mut self.design, name) {
            return check_reply(alloc, &fault);
        }
        found.remove(at);
        let_go_unseen(alloc, &self.design, found);
        Ok(reply)
    }
}
