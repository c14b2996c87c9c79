//! Cells: a type, a name, and lines up to `end`.

ghost use Rattle.rtl_grammar.specs.Bodies.{IsBody};
ghost use Rattle.rtl_grammar.specs.Grammar.Cell.{
  after_cell_kind,
  after_cell_name,
  after_cell_body,
  after_cell_parameter,
  after_cell_parameter_name,
  after_cell_parameter_value,
  after_pin_name,
  after_behind_pin,
};

use crate::expect::Expect;
use rtl_lex::Sort;

/// The type of a cell.
pub(crate) fn after_cell_kind(sort: Sort) -> Option<&'static [Expect]>
    ensures { IsBody (after_cell_kind sort) result }
{
    match sort {
        Sort::Id => Some(&[Expect::CellName]),
        _ => None,
    }
}

/// The name of a cell, and its lines.
pub(crate) fn after_cell_name(sort: Sort) -> Option<&'static [Expect]>
    ensures { IsBody (after_cell_name sort) result }
{
    match sort {
        Sort::Id => Some(&[Expect::CellBody, Expect::EndOfLine]),
        _ => None,
    }
}

/// The lines of a cell, up to its end.
pub(crate) fn after_cell_body(sort: Sort) -> Option<&'static [Expect]>
    ensures { IsBody (after_cell_body sort) result }
{
    match sort {
        Sort::Parameter => Some(&[Expect::CellBody, Expect::CellParameter]),
        Sort::Connect => Some(&[Expect::CellBody, Expect::PinName]),
        Sort::End => Some(&[Expect::EndOfLine]),
        _ => None,
    }
}

/// What stands behind `parameter`: `signed`, or the name.
pub(crate) fn after_cell_parameter(sort: Sort) -> Option<&'static [Expect]>
    ensures { IsBody (after_cell_parameter sort) result }
{
    match sort {
        Sort::Signed => Some(&[Expect::CellParameterName]),
        Sort::Id => Some(&[Expect::CellParameterValue]),
        _ => None,
    }
}

/// The name of a parameter of a cell.
pub(crate) fn after_cell_parameter_name(sort: Sort) -> Option<&'static [Expect]>
    ensures { IsBody (after_cell_parameter_name sort) result }
{
    match sort {
        Sort::Id => Some(&[Expect::CellParameterValue]),
        _ => None,
    }
}

/// Its value, and the end of the line.
pub(crate) fn after_cell_parameter_value(sort: Sort) -> Option<&'static [Expect]>
    ensures { IsBody (after_cell_parameter_value sort) result }
{
    match sort {
        Sort::Value | Sort::Int | Sort::Chars => Some(&[Expect::EndOfLine]),
        _ => None,
    }
}

/// The name of a pin, and its signal.
pub(crate) fn after_pin_name(sort: Sort) -> Option<&'static [Expect]>
    ensures { IsBody (after_pin_name sort) result }
{
    match sort {
        Sort::Id => Some(&[Expect::BehindPin, Expect::Signal]),
        _ => None,
    }
}

/// What stands behind the signal of a pin: a slice of it, or the end of the line.
pub(crate) fn after_behind_pin(sort: Sort) -> Option<&'static [Expect]>
    ensures { IsBody (after_behind_pin sort) result }
{
    match sort {
        Sort::OpenIndex => Some(&[Expect::BehindPin, Expect::Index]),
        Sort::Line => Some(&[]),
        _ => None,
    }
}
