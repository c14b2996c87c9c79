//! Syncs: an event, and lines up to the next sync or the end of the process.

ghost use Rattle.rtl_grammar.specs.Bodies.{IsBody};
ghost use Rattle.rtl_grammar.specs.Grammar.Sync.{
  after_sync_event,
  after_behind_event,
  after_sync_body,
  after_next_write,
  after_write_memory,
  after_behind_address,
  after_behind_value,
  after_behind_enable,
};

use crate::expect::Expect;
use rtl_lex::Sort;

/// The event of a sync, up to the end of the line.
pub(crate) fn after_sync_event(sort: Sort) -> Option<&'static [Expect]>
    ensures { IsBody (after_sync_event sort) result }
{
    match sort {
        Sort::Low | Sort::High | Sort::Posedge | Sort::Negedge | Sort::Edge => Some(&[
            Expect::BehindEvent,
            Expect::Signal,
        ]),
        Sort::Global | Sort::Init | Sort::Always => Some(&[Expect::EndOfLine]),
        _ => None,
    }
}

/// What stands behind the signal of an event: a slice of it, or the end of the line.
pub(crate) fn after_behind_event(sort: Sort) -> Option<&'static [Expect]>
    ensures { IsBody (after_behind_event sort) result }
{
    match sort {
        Sort::OpenIndex => Some(&[Expect::BehindEvent, Expect::Index]),
        Sort::Line => Some(&[]),
        _ => None,
    }
}

/// The lines of a sync and the syncs behind it, up to the end of the process.
pub(crate) fn after_sync_body(sort: Sort) -> Option<&'static [Expect]>
    ensures { IsBody (after_sync_body sort) result }
{
    match sort {
        Sort::Update => Some(&[Expect::SyncBody, Expect::BehindLeft, Expect::Signal]),
        Sort::Attribute => Some(&[Expect::SyncBody, Expect::NextWrite, Expect::AttributeName]),
        Sort::Memwr => Some(&[Expect::SyncBody, Expect::WriteMemory]),
        Sort::Sync => Some(&[Expect::SyncBody, Expect::SyncEvent]),
        Sort::End => Some(&[Expect::EndOfLine]),
        _ => None,
    }
}

/// The `memwr` line behind its attributes.
pub(crate) fn after_next_write(sort: Sort) -> Option<&'static [Expect]>
    ensures { IsBody (after_next_write sort) result }
{
    match sort {
        Sort::Attribute => Some(&[Expect::NextWrite, Expect::AttributeName]),
        Sort::Memwr => Some(&[Expect::WriteMemory]),
        _ => None,
    }
}

/// The memory that a `memwr` line writes, and the address.
pub(crate) fn after_write_memory(sort: Sort) -> Option<&'static [Expect]>
    ensures { IsBody (after_write_memory sort) result }
{
    match sort {
        Sort::Id => Some(&[Expect::BehindAddress, Expect::Signal]),
        _ => None,
    }
}

/// What stands behind the address: a slice of it, or the value.
pub(crate) fn after_behind_address(sort: Sort) -> Option<&'static [Expect]>
    ensures { IsBody (after_behind_address sort) result }
{
    match sort {
        Sort::OpenIndex => Some(&[Expect::BehindAddress, Expect::Index]),
        Sort::Id | Sort::Value | Sort::Int | Sort::Chars => Some(&[Expect::BehindValue]),
        Sort::OpenBrace => Some(&[Expect::BehindValue, Expect::Inside]),
        _ => None,
    }
}

/// What stands behind the value: a slice of it, or the enable.
pub(crate) fn after_behind_value(sort: Sort) -> Option<&'static [Expect]>
    ensures { IsBody (after_behind_value sort) result }
{
    match sort {
        Sort::OpenIndex => Some(&[Expect::BehindValue, Expect::Index]),
        Sort::Id | Sort::Value | Sort::Int | Sort::Chars => Some(&[Expect::BehindEnable]),
        Sort::OpenBrace => Some(&[Expect::BehindEnable, Expect::Inside]),
        _ => None,
    }
}

/// What stands behind the enable: a slice of it, or the mask.
pub(crate) fn after_behind_enable(sort: Sort) -> Option<&'static [Expect]>
    ensures { IsBody (after_behind_enable sort) result }
{
    match sort {
        Sort::OpenIndex => Some(&[Expect::BehindEnable, Expect::Index]),
        Sort::Value | Sort::Int | Sort::Chars => Some(&[Expect::EndOfLine]),
        _ => None,
    }
}
