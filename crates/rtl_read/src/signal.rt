//! Signals.

ghost use Rattle.std.specs.Prelude.{◌≡◌, ◌<◌, ◌+◌, Ok, ◌-◌};
ghost use Rattle.rtl_lex.specs.Items.{as_seen};
ghost use Rattle.rtl_sig.specs.Names.{number_of};
ghost use Rattle.rtl_read.specs.Signal.{
  no_signal,
  width_at,
  wire_signal,
  plain_signal,
  begin,
  close_brace,
  inside,
  put_below,
  open_index,
  behind_inside,
  set_high,
  set_low,
  slice,
  behind_index,
  some_bits,
};
ghost use Rattle.rtl_read.specs.Gives.{Gives, Sets};

use crate::constant::{constant, fixed, integer};
use crate::part::Part;
use crate::read_fault::ReadFault;
use crate::stack::Stack;
use rtl_bits::Memory;
use rtl_ir::Wire;
use rtl_ir::limits::{MAX_BITS, MAX_DEPTH};
use rtl_lex::{Item, Place, Sort};
use rtl_sig::{Names, SigBit, SigSpec};
use std::alloc::Global;
use std::mem;

/// The signal that is being read.
#[derive(Drop)]
pub struct OpenSignal {
    /// The part that was read last, and the place of its last token.
    pub part: Part,
    pub place: Place,
    /// What the open braces have so far, the innermost first.
    pub braces: Stack<Stack<SigBit>>,
    /// The open bracket, and its numbers.
    pub bracket: Place,
    pub high: i32,
    pub low: i32,
}

/// The signal in which nothing was read.
pub(crate) fn no_signal(alloc: Global) -> OpenSignal
    ensures { result ≡ no_signal }
{
    OpenSignal {
        part: Part::of(SigSpec::make(alloc)),
        place: Place::start(),
        braces: Stack::make(alloc),
        bracket: Place::start(),
        high: 0,
        low: 0,
    }
}

/// The number of the name, where it was seen.
pub(crate) fn find(names: &Names, text: &[u8]) -> Option<usize>
    ensures { result ≡ number_of names.now text.now }
{
    match names.find(text) {
        Some(id) => Some(id.index),
        None => None,
    }
}

/// The width of the wire at a place of the list.
#[tactic(auto, using(crate::proofs::Signals::width_is, crate::proofs::Signals::width_none))]
fn width_at(wires: &[Wire], at: usize) -> u32
    ensures { result ≡ width_at wires.now at }
{
    if at < wires.len() { wires[at].width } else { 0 }
}

/// The signal of a wire, where its name is known.
fn wire_signal(wires: &[Wire], number: Option<usize>, item: &Item<'_>) -> Result<Part, ReadFault>
    ensures { Gives result (wire_signal wires.now (as_seen item.now) number) }
{
    let Some(number) = number else {
        return Err(ReadFault::UnknownName(item.place));
    };
    // No memory holds more wires than this.
    let Ok(wire) = u32::try_from(number) else {
        return Err(ReadFault::Memory);
    };
    Ok(Part::whole(wire, width_at(wires, number)))
}

/// The signal of a name or a constant.
fn plain_signal(
    alloc: Global,
    wires: &[Wire],
    names: &Names,
    item: &Item<'_>,
) -> Result<Part, ReadFault>
    ensures { Gives result (plain_signal wires.now names.now item.now.sort (as_seen item.now)) }
{
    if item.sort == Sort::Id {
        return wire_signal(wires, find(names, item.text), item);
    }
    match constant(alloc, item) {
        Ok(value) => Ok(Part::of(fixed(alloc, &value)?)),
        Err(fault) => Err(fault),
    }
}

/// The bits of a signal that may not be empty.
pub(crate) fn some_bits(part: SigSpec, item: &Item<'_>) -> Result<SigSpec, ReadFault>
    ensures { Gives result (some_bits part (as_seen item.now)) }
{
    if part.as_slice().is_empty() {
        return Err(ReadFault::Syntax(item.place));
    }
    Ok(part)
}

impl OpenSignal {
    /// The part that was read. Nothing is left, but for the room of the braces.
    pub(crate) fn take(&mut self, alloc: Global) -> Part
        ensures part { result ≡ self.old.part }
        ensures left { self.new ≡ no_signal }
    {
        self.place = Place::start();
        self.braces.clear();
        self.bracket = Place::start();
        self.high = 0;
        self.low = 0;
        mem::replace(&mut self.part, Part::of(SigSpec::make(alloc)))
    }

    /// A signal begins.
    pub(crate) fn begin(
        &mut self,
        alloc: Global,
        wires: &[Wire],
        names: &Names,
        item: &Item<'_>,
    ) -> Result<(), ReadFault>
        ensures { Sets result self.new (begin wires.now names.now item.now.sort (as_seen item.now) self.old) }
    {
        if item.sort == Sort::OpenBrace {
            if self.braces.depth() >= MAX_DEPTH {
                return Err(ReadFault::Limit(item.place));
            }
            self.braces.push(Stack::make(alloc))?;
            return Ok(());
        }
        match plain_signal(alloc, wires, names, item) {
            Ok(part) => {
                self.part = part;
                self.place = item.place;
                Ok(())
            }
            Err(fault) => Err(fault),
        }
    }

    /// The innermost braces close.
    fn close_brace(&mut self, item: &Item<'_>) -> Result<(), ReadFault>
        ensures { Sets result self.new (Ok (close_brace (as_seen item.now) self.old self.old.braces)) }
    {
        if let Some(brace) = self.braces.pop() {
            self.part = Part::of(SigSpec::from_vec(brace.into_vec())?);
            self.place = item.place;
        }
        Ok(())
    }

    /// A token behind an opening brace.
    pub(crate) fn inside(
        &mut self,
        alloc: Global,
        wires: &[Wire],
        names: &Names,
        item: &Item<'_>,
    ) -> Result<(), ReadFault>
        ensures { Sets result self.new (inside wires.now names.now item.now.sort (as_seen item.now) self.old) }
    {
        if item.sort == Sort::CloseBrace {
            return self.close_brace(item);
        }
        self.begin(alloc, wires, names, item)
    }

    /// The part goes below what the innermost braces have so far.
    fn put_below(&mut self) -> Result<(), ReadFault>
        ensures { Sets result self.new (put_below self.old self.old.braces) }
    {
        let Some(mut brace) = self.braces.pop() else {
            return Ok(());
        };
        let width = self.part.len();
        if width > MAX_BITS || width + brace.depth() > MAX_BITS {
            return Err(ReadFault::Limit(self.place));
        }
        self.part.cover(&mut brace)?;
        self.braces.push(brace)?;
        Ok(())
    }

    /// A bracket opens behind the part.
    pub(crate) fn open_index(&mut self, item: &Item<'_>)
        ensures { self.new ≡ open_index (as_seen item.now) self.old }
    {
        self.bracket = item.place;
    }

    /// A token behind a signal in braces.
    #[tactic(auto, using(crate::proofs::Faults::fails_on, crate::proofs::Faults::goes_on))]
    pub(crate) fn behind_inside(
        &mut self,
        alloc: Global,
        wires: &[Wire],
        names: &Names,
        item: &Item<'_>,
    ) -> Result<(), ReadFault>
        ensures { Sets result self.new (behind_inside wires.now names.now item.now.sort (as_seen item.now) self.old) }
    {
        if item.sort == Sort::OpenIndex {
            self.open_index(item);
            return Ok(());
        }
        match self.put_below() {
            Ok(()) => self.inside(alloc, wires, names, item),
            Err(fault) => Err(fault),
        }
    }

    /// The first number in brackets.
    pub(crate) fn set_high(&mut self, item: &Item<'_>) -> Result<(), ReadFault>
        ensures { Sets result self.new (set_high (as_seen item.now) self.old) }
    {
        match integer(item) {
            Ok(number) => {
                self.high = number;
                Ok(())
            }
            Err(fault) => Err(fault),
        }
    }

    /// The second number in brackets.
    pub(crate) fn set_low(&mut self, item: &Item<'_>) -> Result<(), ReadFault>
        ensures { Sets result self.new (set_low (as_seen item.now) self.old) }
    {
        match integer(item) {
            Ok(number) => {
                self.low = number;
                Ok(())
            }
            Err(fault) => Err(fault),
        }
    }

    /// The bits from one number up to another.
    pub(crate) fn slice(
        &mut self,
        alloc: Global,
        low: i32,
        high: i32,
        item: &Item<'_>,
    ) -> Result<(), ReadFault>
        ensures { Sets result self.new (slice (as_seen item.now) low high self.old) }
    {
        let (Ok(low), Ok(high)) = (usize::try_from(low), usize::try_from(high)) else {
            return Err(ReadFault::Range(self.bracket));
        };
        if high < low || self.part.len() <= high {
            return Err(ReadFault::Range(self.bracket));
        }
        self.part = self.part.between(alloc, low, high)?;
        self.place = item.place;
        Ok(())
    }

    /// A token behind the first number in brackets.
    pub(crate) fn behind_index(&mut self, alloc: Global, item: &Item<'_>) -> Result<(), ReadFault>
        ensures { Sets result self.new (behind_index item.now.sort (as_seen item.now) self.old) }
    {
        if item.sort == Sort::CloseIndex {
            return self.slice(alloc, self.high, self.high, item);
        }
        Ok(())
    }
}
