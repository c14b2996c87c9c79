//! Processes: assigns and switches, and then syncs, up to `end`.

ghost use Rattle.rtl_grammar.specs.Bodies.{IsBody};
ghost use Rattle.rtl_grammar.specs.Grammar.Process.{after_process_name, after_process_body, after_next_switch};

use crate::expect::Expect;
use rtl_lex::Sort;

/// The name of a process, and its statements.
pub(crate) fn after_process_name(sort: Sort) -> Option<&'static [Expect]>
    ensures { IsBody (after_process_name sort) result }
{
    match sort {
        Sort::Id => Some(&[Expect::ProcessBody, Expect::EndOfLine]),
        _ => None,
    }
}

/// The assigns and switches of a process, up to its end or its first sync.
pub(crate) fn after_process_body(sort: Sort) -> Option<&'static [Expect]>
    ensures { IsBody (after_process_body sort) result }
{
    match sort {
        Sort::Assign => Some(&[Expect::ProcessBody, Expect::BehindLeft, Expect::Signal]),
        Sort::Attribute => Some(&[
            Expect::ProcessBody,
            Expect::NextSwitch,
            Expect::AttributeName,
        ]),
        Sort::Switch => Some(&[Expect::ProcessBody, Expect::BehindSwitch, Expect::Signal]),
        Sort::Sync => Some(&[Expect::SyncBody, Expect::SyncEvent]),
        Sort::End => Some(&[Expect::EndOfLine]),
        _ => None,
    }
}

/// The switch behind its attributes.
pub(crate) fn after_next_switch(sort: Sort) -> Option<&'static [Expect]>
    ensures { IsBody (after_next_switch sort) result }
{
    match sort {
        Sort::Attribute => Some(&[Expect::NextSwitch, Expect::AttributeName]),
        Sort::Switch => Some(&[Expect::BehindSwitch, Expect::Signal]),
        _ => None,
    }
}
