//! Attributes, each of which stands before the item that it speaks of.

ghost use Rattle.rtl_grammar.specs.Bodies.{IsBody};
ghost use Rattle.rtl_grammar.specs.Grammar.Attribute.{after_attribute_name, after_attribute_value};

use crate::expect::Expect;
use rtl_lex::Sort;

/// The name of an attribute.
pub(crate) fn after_attribute_name(sort: Sort) -> Option<&'static [Expect]>
    ensures { IsBody (after_attribute_name sort) result }
{
    match sort {
        Sort::Id => Some(&[Expect::AttributeValue]),
        _ => None,
    }
}

/// The value of an attribute, and the end of its line.
pub(crate) fn after_attribute_value(sort: Sort) -> Option<&'static [Expect]>
    ensures { IsBody (after_attribute_value sort) result }
{
    match sort {
        Sort::Value | Sort::Int | Sort::Chars => Some(&[Expect::EndOfLine]),
        _ => None,
    }
}
