//! Signals: constants, wires, braces round signals, and slices.

ghost use Rattle.rtl_grammar.specs.Bodies.{IsBody};
ghost use Rattle.rtl_grammar.specs.Grammar.Signal.{
  after_signal,
  after_inside,
  after_behind_inside,
  after_index,
  after_behind_index,
  after_low_index,
  after_index_end,
};

use crate::expect::Expect;
use rtl_lex::Sort;

/// A signal without its slices.
pub(crate) fn after_signal(sort: Sort) -> Option<&'static [Expect]>
    ensures { IsBody (after_signal sort) result }
{
    match sort {
        Sort::Id | Sort::Value | Sort::Int | Sort::Chars => Some(&[]),
        Sort::OpenBrace => Some(&[Expect::Inside]),
        _ => None,
    }
}

/// What stands behind an opening brace: the first signal, or the closing brace.
pub(crate) fn after_inside(sort: Sort) -> Option<&'static [Expect]>
    ensures { IsBody (after_inside sort) result }
{
    match sort {
        Sort::Id | Sort::Value | Sort::Int | Sort::Chars => Some(&[Expect::BehindInside]),
        Sort::OpenBrace => Some(&[Expect::BehindInside, Expect::Inside]),
        Sort::CloseBrace => Some(&[]),
        _ => None,
    }
}

/// What stands behind a signal in braces: a slice of it, the next signal, or the closing brace.
pub(crate) fn after_behind_inside(sort: Sort) -> Option<&'static [Expect]>
    ensures { IsBody (after_behind_inside sort) result }
{
    match sort {
        Sort::OpenIndex => Some(&[Expect::BehindInside, Expect::Index]),
        Sort::Id | Sort::Value | Sort::Int | Sort::Chars => Some(&[Expect::BehindInside]),
        Sort::OpenBrace => Some(&[Expect::BehindInside, Expect::Inside]),
        Sort::CloseBrace => Some(&[]),
        _ => None,
    }
}

/// The first number in brackets.
pub(crate) fn after_index(sort: Sort) -> Option<&'static [Expect]>
    ensures { IsBody (after_index sort) result }
{
    match sort {
        Sort::Int => Some(&[Expect::BehindIndex]),
        _ => None,
    }
}

/// What stands behind it: the closing bracket, or a colon and the second number.
pub(crate) fn after_behind_index(sort: Sort) -> Option<&'static [Expect]>
    ensures { IsBody (after_behind_index sort) result }
{
    match sort {
        Sort::CloseIndex => Some(&[]),
        Sort::Colon => Some(&[Expect::LowIndex]),
        _ => None,
    }
}

/// The second number in brackets.
pub(crate) fn after_low_index(sort: Sort) -> Option<&'static [Expect]>
    ensures { IsBody (after_low_index sort) result }
{
    match sort {
        Sort::Int => Some(&[Expect::IndexEnd]),
        _ => None,
    }
}

/// The closing bracket behind the second number.
pub(crate) fn after_index_end(sort: Sort) -> Option<&'static [Expect]>
    ensures { IsBody (after_index_end sort) result }
{
    match sort {
        Sort::CloseIndex => Some(&[]),
        _ => None,
    }
}
