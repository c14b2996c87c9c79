//! Pairs of signals, up to the end of the line: those of `connect`, `assign` and `update`.

ghost use Rattle.rtl_grammar.specs.Bodies.{IsBody};
ghost use Rattle.rtl_grammar.specs.Grammar.Pair.{after_behind_left, after_behind_right};

use crate::expect::Expect;
use rtl_lex::Sort;

/// What stands behind the left signal: a slice of it, or the right signal.
pub(crate) fn after_behind_left(sort: Sort) -> Option<&'static [Expect]>
    ensures { IsBody (after_behind_left sort) result }
{
    match sort {
        Sort::OpenIndex => Some(&[Expect::BehindLeft, Expect::Index]),
        Sort::Id | Sort::Value | Sort::Int | Sort::Chars => Some(&[Expect::BehindRight]),
        Sort::OpenBrace => Some(&[Expect::BehindRight, Expect::Inside]),
        _ => None,
    }
}

/// What stands behind the right signal: a slice of it, or the end of the line.
pub(crate) fn after_behind_right(sort: Sort) -> Option<&'static [Expect]>
    ensures { IsBody (after_behind_right sort) result }
{
    match sort {
        Sort::OpenIndex => Some(&[Expect::BehindRight, Expect::Index]),
        Sort::Line => Some(&[]),
        _ => None,
    }
}
