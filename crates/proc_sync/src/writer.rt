//! Lines that have become write ports, and the numbers that come next.

ghost use Rattle.std.specs.Prelude.{◌≡◌, ◌+◌, IfOk};
ghost use Rattle.proc_sync.specs.Counts.{AreCounts};
ghost use Rattle.proc_sync.specs.Lines.{numbers_of};

use crate::counts::{Counts, count_of, counts_of};
use crate::masks::Numbered;
use rtl_bits::Memory;
use rtl_ir::Module;
use std::alloc::Global;

/// The lines of a module that have become ports so far, in order.
#[derive(Drop)]
pub(crate) struct Writer<'a> {
    body: &'a Module,
    counts: Counts<'a>,
    done: Vec<Numbered<'a>>,
    ghost agree: { AreCounts counts body.now (numbers_of done.items) },
}

impl<'a> Writer<'a> {
    ghost use Rattle.std.specs.Prelude.{◌≡◌, ◌≤◌, ◌∷◌, ◌++◌, [], IfOk, drop, length};
    ghost use Rattle.net_model.specs.Proc.Sync.{line_number};
    ghost use Rattle.proc_sync.specs.Lines.{numbers_of};
    ghost use Rattle.proc_sync.specs.Writer.{body_of, done_of};

    /// No line.
    pub(crate) fn of(alloc: Global, body: &'a Module) -> Result<Writer<'a>, Memory>
        ensures body { IfOk result (λ writer. body_of writer ≡ body.now) }
        ensures done { IfOk result (λ writer. done_of writer ≡ []) }
    {
        let counts = counts_of(alloc, body.cells.as_slice())?;
        Ok(Writer {
            body,
            counts,
            done: Vec::new(alloc),
        })
    }

    /// How many lines there are.
    pub(crate) fn count(&self) -> usize
        ensures value { result ≡ length (done_of self.now) }
    {
        self.done.len()
    }

    /// The lines behind so many.
    pub(crate) fn behind(&self, count: usize) -> &[Numbered<'a>]
        requires few { count ≤ length (done_of self.now) }
        ensures value { numbers_of result.now ≡ drop count (done_of self.now) }
    {
        &self.done.as_slice()[count..]
    }

    /// The number of the next line of the memory.
    pub(crate) fn next(&self, memory: &[u8]) -> u32
        ensures value { result ≡ line_number (body_of self.now) (done_of self.now) memory.now }
    {
        count_of(&self.counts, memory)
    }

    /// The next line of the memory is a port. More than 2^32 of them are taken for want of memory.
    pub(crate) fn with_line(self, memory: &'a [u8]) -> Result<Writer<'a>, Memory>
        ensures body { IfOk result (λ writer. body_of writer ≡ body_of self.entry) }
        ensures done { IfOk result (λ writer. done_of writer ≡ done_of self.entry
            ++ record {
              memory = memory.now;
              number = line_number (body_of self.entry)
                  (done_of self.entry) memory.now;
            } ∷ []) }
    {
        let number = self.next(memory);
        let above = next_of(number)?;
        let Writer {
            body,
            mut counts,
            mut done,
        } = self;
        counts.insert(memory, above)?;
        done.push(Numbered { memory, number })?;
        Ok(Writer { body, counts, done })
    }
}

/// The next number. One of 2^32 is taken for want of memory.
fn next_of(number: u32) -> Result<u32, Memory>
    ensures value { IfOk result (λ next. next ≡ number + 1) }
{
    match number.checked_add(1) {
        Some(next) => Ok(next),
        None => Err(Memory),
    }
}
