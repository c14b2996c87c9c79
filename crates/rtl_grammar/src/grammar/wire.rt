//! Wires: options, and then a name.

ghost use Rattle.rtl_grammar.specs.Bodies.{IsBody};
ghost use Rattle.rtl_grammar.specs.Grammar.Wire.{
  after_wire_option,
  after_wire_width,
  after_wire_offset,
  after_port_number,
};

use crate::expect::Expect;
use rtl_lex::Sort;

/// The options of a wire, up to its name.
pub(crate) fn after_wire_option(sort: Sort) -> Option<&'static [Expect]>
    ensures { IsBody (after_wire_option sort) result }
{
    match sort {
        Sort::Width => Some(&[Expect::WireOption, Expect::WireWidth]),
        Sort::Offset => Some(&[Expect::WireOption, Expect::WireOffset]),
        Sort::Input | Sort::Output | Sort::Inout => Some(&[Expect::WireOption, Expect::PortNumber]),
        Sort::Upto | Sort::Signed => Some(&[Expect::WireOption]),
        Sort::Id => Some(&[Expect::EndOfLine]),
        _ => None,
    }
}

/// The number behind `width`.
pub(crate) fn after_wire_width(sort: Sort) -> Option<&'static [Expect]>
    ensures { IsBody (after_wire_width sort) result }
{
    match sort {
        Sort::Int => Some(&[]),
        _ => None,
    }
}

/// The number behind `offset`.
pub(crate) fn after_wire_offset(sort: Sort) -> Option<&'static [Expect]>
    ensures { IsBody (after_wire_offset sort) result }
{
    match sort {
        Sort::Int => Some(&[]),
        _ => None,
    }
}

/// The number of a port.
pub(crate) fn after_port_number(sort: Sort) -> Option<&'static [Expect]>
    ensures { IsBody (after_port_number sort) result }
{
    match sort {
        Sort::Int => Some(&[]),
        _ => None,
    }
}
