//! Switches: a signal, and cases up to `end`.

ghost use Rattle.rtl_grammar.specs.Bodies.{IsBody};
ghost use Rattle.rtl_grammar.specs.Grammar.Switch.{
  after_behind_switch,
  after_cases,
  after_next_case,
  after_patterns,
  after_behind_pattern,
  after_case_body,
  after_next_in_case,
};

use crate::expect::Expect;
use rtl_lex::Sort;

/// What stands behind the signal of a switch: a slice of it, or the end of the line and the cases.
pub(crate) fn after_behind_switch(sort: Sort) -> Option<&'static [Expect]>
    ensures { IsBody (after_behind_switch sort) result }
{
    match sort {
        Sort::OpenIndex => Some(&[Expect::BehindSwitch, Expect::Index]),
        Sort::Line => Some(&[Expect::Cases]),
        _ => None,
    }
}

/// The first case of a switch, or its end.
pub(crate) fn after_cases(sort: Sort) -> Option<&'static [Expect]>
    ensures { IsBody (after_cases sort) result }
{
    match sort {
        Sort::Attribute => Some(&[Expect::NextCase, Expect::AttributeName]),
        Sort::Case => Some(&[Expect::Patterns]),
        Sort::End => Some(&[Expect::EndOfLine]),
        _ => None,
    }
}

/// The case behind its attributes.
pub(crate) fn after_next_case(sort: Sort) -> Option<&'static [Expect]>
    ensures { IsBody (after_next_case sort) result }
{
    match sort {
        Sort::Attribute => Some(&[Expect::NextCase, Expect::AttributeName]),
        Sort::Case => Some(&[Expect::Patterns]),
        _ => None,
    }
}

/// What stands behind `case`: the first pattern, or the end of the line.
pub(crate) fn after_patterns(sort: Sort) -> Option<&'static [Expect]>
    ensures { IsBody (after_patterns sort) result }
{
    match sort {
        Sort::Id | Sort::Value | Sort::Int | Sort::Chars => Some(&[Expect::BehindPattern]),
        Sort::OpenBrace => Some(&[Expect::BehindPattern, Expect::Inside]),
        Sort::Line => Some(&[Expect::CaseBody]),
        _ => None,
    }
}

/// What stands behind a pattern: a slice of it, the next pattern, or the end of the line.
pub(crate) fn after_behind_pattern(sort: Sort) -> Option<&'static [Expect]>
    ensures { IsBody (after_behind_pattern sort) result }
{
    match sort {
        Sort::OpenIndex => Some(&[Expect::BehindPattern, Expect::Index]),
        Sort::Comma => Some(&[Expect::BehindPattern, Expect::Signal]),
        Sort::Line => Some(&[Expect::CaseBody]),
        _ => None,
    }
}

/// The assigns and switches of a case, and the cases behind it, up to the end of the switch.
pub(crate) fn after_case_body(sort: Sort) -> Option<&'static [Expect]>
    ensures { IsBody (after_case_body sort) result }
{
    match sort {
        Sort::Assign => Some(&[Expect::CaseBody, Expect::BehindLeft, Expect::Signal]),
        Sort::Attribute => Some(&[Expect::NextInCase, Expect::AttributeName]),
        Sort::Switch => Some(&[Expect::CaseBody, Expect::BehindSwitch, Expect::Signal]),
        Sort::Case => Some(&[Expect::Patterns]),
        Sort::End => Some(&[Expect::EndOfLine]),
        _ => None,
    }
}

/// The switch of a case, or the next case, behind its attributes.
pub(crate) fn after_next_in_case(sort: Sort) -> Option<&'static [Expect]>
    ensures { IsBody (after_next_in_case sort) result }
{
    match sort {
        Sort::Attribute => Some(&[Expect::NextInCase, Expect::AttributeName]),
        Sort::Switch => Some(&[Expect::CaseBody, Expect::BehindSwitch, Expect::Signal]),
        Sort::Case => Some(&[Expect::Patterns]),
        _ => None,
    }
}
