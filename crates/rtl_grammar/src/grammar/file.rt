//! Files: an optional `autoidx`, then modules.

ghost use Rattle.rtl_grammar.specs.Bodies.{IsBody};
ghost use Rattle.rtl_grammar.specs.Grammar.File.{
  after_start,
  after_file_head,
  after_autoidx_number,
  after_modules,
  after_next_module,
  after_end_of_line,
};

use crate::expect::Expect;
use rtl_lex::Sort;

/// Where a text begins: an end of line there is skipped.
pub(crate) fn after_start(sort: Sort) -> Option<&'static [Expect]>
    ensures { IsBody (after_start sort) result }
{
    match sort {
        Sort::Line => Some(&[Expect::FileHead]),
        _ => after_file_head(sort),
    }
}

/// Where the first statement of a file stands: `autoidx`, or a module, or the end.
pub(crate) fn after_file_head(sort: Sort) -> Option<&'static [Expect]>
    ensures { IsBody (after_file_head sort) result }
{
    match sort {
        Sort::Autoidx => Some(&[Expect::Modules, Expect::EndOfLine, Expect::AutoidxNumber]),
        Sort::Attribute => Some(&[Expect::NextModule, Expect::AttributeName]),
        Sort::Module => Some(&[Expect::Modules, Expect::ModuleName]),
        Sort::Finish => Some(&[]),
        _ => None,
    }
}

/// The number behind `autoidx`.
pub(crate) fn after_autoidx_number(sort: Sort) -> Option<&'static [Expect]>
    ensures { IsBody (after_autoidx_number sort) result }
{
    match sort {
        Sort::Int => Some(&[]),
        _ => None,
    }
}

/// The modules of a file, up to its end.
pub(crate) fn after_modules(sort: Sort) -> Option<&'static [Expect]>
    ensures { IsBody (after_modules sort) result }
{
    match sort {
        Sort::Attribute => Some(&[Expect::NextModule, Expect::AttributeName]),
        Sort::Module => Some(&[Expect::Modules, Expect::ModuleName]),
        Sort::Finish => Some(&[]),
        _ => None,
    }
}

/// The module behind its attributes, and the modules behind it.
pub(crate) fn after_next_module(sort: Sort) -> Option<&'static [Expect]>
    ensures { IsBody (after_next_module sort) result }
{
    match sort {
        Sort::Attribute => Some(&[Expect::NextModule, Expect::AttributeName]),
        Sort::Module => Some(&[Expect::Modules, Expect::ModuleName]),
        _ => None,
    }
}

/// The end of a statement.
pub(crate) fn after_end_of_line(sort: Sort) -> Option<&'static [Expect]>
    ensures { IsBody (after_end_of_line sort) result }
{
    match sort {
        Sort::Line => Some(&[]),
        _ => None,
    }
}
