//! Memories: options, and then a name.

ghost use Rattle.rtl_grammar.specs.Bodies.{IsBody};
ghost use Rattle.rtl_grammar.specs.Grammar.Memory.{
  after_memory_option,
  after_memory_width,
  after_memory_size,
  after_memory_offset,
};

use crate::expect::Expect;
use rtl_lex::Sort;

/// The options of a memory, up to its name.
pub(crate) fn after_memory_option(sort: Sort) -> Option<&'static [Expect]>
    ensures { IsBody (after_memory_option sort) result }
{
    match sort {
        Sort::Width => Some(&[Expect::MemoryOption, Expect::MemoryWidth]),
        Sort::Size => Some(&[Expect::MemoryOption, Expect::MemorySize]),
        Sort::Offset => Some(&[Expect::MemoryOption, Expect::MemoryOffset]),
        Sort::Id => Some(&[Expect::EndOfLine]),
        _ => None,
    }
}

/// The number behind `width`.
pub(crate) fn after_memory_width(sort: Sort) -> Option<&'static [Expect]>
    ensures { IsBody (after_memory_width sort) result }
{
    match sort {
        Sort::Int => Some(&[]),
        _ => None,
    }
}

/// The number behind `size`.
pub(crate) fn after_memory_size(sort: Sort) -> Option<&'static [Expect]>
    ensures { IsBody (after_memory_size sort) result }
{
    match sort {
        Sort::Int => Some(&[]),
        _ => None,
    }
}

/// The number behind `offset`.
pub(crate) fn after_memory_offset(sort: Sort) -> Option<&'static [Expect]>
    ensures { IsBody (after_memory_offset sort) result }
{
    match sort {
        Sort::Int => Some(&[]),
        _ => None,
    }
}
