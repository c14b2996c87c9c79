//! Reading a text.

ghost use Rattle.std.specs.Prelude.{◌≡◌, List, [], ◌∷◌, IfOk, Ok, Err};
ghost use Rattle.rtl_lex.specs.Items.{Seen, as_seen};
ghost use Rattle.rtl_grammar.specs.declared.expect.Expect.TheVariants.{Start};
ghost use Rattle.rtl_ir.specs.declared.module.Design.{Design};
ghost use Rattle.rtl_read.specs.declared.read_fault.ReadFault.{ReadFault};
ghost use Rattle.rtl_read.specs.Draft.{nothing};
ghost use Rattle.rtl_read.specs.Gives.{Gives};
ghost use Rattle.rtl_read.specs.Reads.{AreItemsOf, Reads, refusal, IsFirstFault, OnFault};
ghost use Rattle.rtl_read.specs.Taking.{reading, GoesOn, design_read};

use crate::draft::{Draft, nothing};
use crate::read_fault::ReadFault;
use crate::stack::Stack;
use rtl_bits::{Memory, Seq};
use rtl_grammar::{Expect, after};
use rtl_ir::Design;
use rtl_lex::{Item, Next, Place, Sort, next_item};
use std::alloc::Global;
use std::mem;

/// The fault of an item that cannot stand where it stands.
fn refusal(item: &Item<'_>) -> ReadFault
    ensures { result ≡ refusal (as_seen item.now) }
{
    match item.sort {
        Sort::Bad => ReadFault::Lex(item.place),
        _ => ReadFault::Syntax(item.place),
    }
}

/// What is still expected, the next of it on top, and what has been read.
#[derive(Drop)]
struct Reader {
    expected: Stack<Expect>,
    draft: Draft,
}

impl Reader {
    /// Before the first item of a text. It is large, so it stands on the heap.
    fn make(alloc: Global) -> Result<Box<Reader>, Memory>
        ensures { IfOk result (λ reader. reader.value ≡ record { expected = Start ∷ []; draft = nothing }) }
    {
        let mut expected = Stack::make(alloc);
        expected.push(Expect::Start)?;
        let draft = nothing(alloc);
        Ok(Box::new(alloc, Reader { expected, draft })?)
    }

    /// Takes an item: it stands where the top of what is expected says, does what it does there,
    /// and what is expected behind it comes on top.
    fn take(&mut self, alloc: Global, item: &Item<'_>) -> Result<(), ReadFault>
        ensures { (others : List Seen) → GoesOn result
            (reading (as_seen item.now ∷ others) self.old.expected self.old.draft)
            (reading others self.new.expected self.new.draft) }
    {
        let Some(role) = self.expected.pop() else {
            return Err(refusal(item));
        };
        let Some(body) = after(role, item.sort) else {
            return Err(refusal(item));
        };
        if let Err(fault) = self.draft.act(alloc, role, item) {
            return Err(fault);
        }
        self.expected.raise(body)?;
        Ok(())
    }

    /// Takes all items of the text.
    fn take_all(&mut self, alloc: Global, text: &[u8]) -> Result<(), ReadFault>
        ensures { (items : List Seen) → AreItemsOf text.now items → GoesOn result
            (reading items self.old.expected self.old.draft)
            (reading [] self.new.expected self.new.draft) }
    {
        let mut at = Some((Place::start(), false));
        while let Some((from, line)) = at {
            let Next { item, rest } = next_item(text, from, line);
            if let Err(fault) = self.take(alloc, &item) {
                return Err(fault);
            }
            at = rest;
        }
        Ok(())
    }

    /// The design, behind the last item.
    fn finish(&mut self, alloc: Global) -> Result<Design, ReadFault>
        ensures { Gives result (design_read (reading [] self.old.expected self.old.draft)) }
    {
        if self.expected.depth() > 0 {
            return Err(ReadFault::Syntax(Place::start()));
        }
        let modules = mem::replace(&mut self.draft.modules, Seq::make(alloc));
        Ok(Design { modules })
    }

    /// The design that all items of the text give.
    #[tactic(auto, using(crate::proofs::Faults::fails_on))]
    fn design(&mut self, alloc: Global, text: &[u8]) -> Result<Design, ReadFault>
        ensures { (items : List Seen) → AreItemsOf text.now items →
            Gives result (design_read (reading items self.old.expected self.old.draft)) }
    {
        match self.take_all(alloc, text) {
            Ok(()) => self.finish(alloc),
            Err(fault) => Err(fault),
        }
    }
}

/// What all items of the text give.
fn read_all(alloc: Global, text: &[u8]) -> Result<Design, ReadFault>
    ensures { (items : List Seen) → AreItemsOf text.now items →
        Gives result (design_read (reading items (Start ∷ []) nothing)) }
{
    let mut reader = Reader::make(alloc)?;
    reader.design(alloc, text)
}

/// The design of the text, or the text's first fault.
pub fn read(alloc: Global, text: &[u8]) -> Result<Design, ReadFault>
    // What is read is what the text says.
    ensures reads { IfOk result (Reads text.now) }
    // What the text says is read, unless memory runs out.
    ensures only { (design : Design) → Reads text.now design → Gives result (Ok design) }
    // A fault is the first.
    ensures first_fault { OnFault result (IsFirstFault text.now) }
    // A text with a fault is refused with the first, unless memory runs out.
    ensures refused { (fault : ReadFault) → IsFirstFault text.now fault → Gives result (Err fault) }
{
    read_all(alloc, text)
}
