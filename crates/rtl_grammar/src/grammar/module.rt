//! Modules: a name, and statements up to `end`.

ghost use Rattle.rtl_grammar.specs.Bodies.{IsBody};
ghost use Rattle.rtl_grammar.specs.Grammar.Module.{
  after_module_name,
  after_body,
  after_next_item,
  after_parameter_name,
  after_parameter_value,
};

use crate::expect::Expect;
use rtl_lex::Sort;

/// The name of a module, and its statements.
pub(crate) fn after_module_name(sort: Sort) -> Option<&'static [Expect]>
    ensures { IsBody (after_module_name sort) result }
{
    match sort {
        Sort::Id => Some(&[Expect::Body, Expect::EndOfLine]),
        _ => None,
    }
}

/// The statements of a module, up to its end.
pub(crate) fn after_body(sort: Sort) -> Option<&'static [Expect]>
    ensures { IsBody (after_body sort) result }
{
    match sort {
        Sort::Attribute => Some(&[Expect::NextItem, Expect::AttributeName]),
        Sort::Parameter => Some(&[Expect::Body, Expect::ParameterName]),
        Sort::Wire => Some(&[Expect::Body, Expect::WireOption]),
        Sort::Memory => Some(&[Expect::Body, Expect::MemoryOption]),
        Sort::Cell => Some(&[Expect::Body, Expect::CellKind]),
        Sort::Process => Some(&[Expect::Body, Expect::ProcessName]),
        Sort::Connect => Some(&[Expect::Body, Expect::BehindLeft, Expect::Signal]),
        Sort::End => Some(&[Expect::EndOfLine]),
        _ => None,
    }
}

/// The item behind its attributes, and the statements behind it.
pub(crate) fn after_next_item(sort: Sort) -> Option<&'static [Expect]>
    ensures { IsBody (after_next_item sort) result }
{
    match sort {
        Sort::Attribute => Some(&[Expect::NextItem, Expect::AttributeName]),
        Sort::Wire => Some(&[Expect::Body, Expect::WireOption]),
        Sort::Memory => Some(&[Expect::Body, Expect::MemoryOption]),
        Sort::Cell => Some(&[Expect::Body, Expect::CellKind]),
        Sort::Process => Some(&[Expect::Body, Expect::ProcessName]),
        _ => None,
    }
}

/// The name of a parameter of a module.
pub(crate) fn after_parameter_name(sort: Sort) -> Option<&'static [Expect]>
    ensures { IsBody (after_parameter_name sort) result }
{
    match sort {
        Sort::Id => Some(&[Expect::ParameterValue]),
        _ => None,
    }
}

/// Its value, or the end of the line where it has none.
pub(crate) fn after_parameter_value(sort: Sort) -> Option<&'static [Expect]>
    ensures { IsBody (after_parameter_value sort) result }
{
    match sort {
        Sort::Value | Sort::Int | Sort::Chars => Some(&[Expect::EndOfLine]),
        Sort::Line => Some(&[]),
        _ => None,
    }
}
