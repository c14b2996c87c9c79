//! The tree of decisions that is open.

ghost use Rattle.std.specs.Prelude.{◌≡◌, [], OnOk};
ghost use Rattle.rtl_lex.specs.Items.{as_seen};
ghost use Rattle.rtl_read.specs.Gives.{Sets};
ghost use Rattle.rtl_read.specs.Meaning.Tree.{
  plain_case,
  plain_tree,
  case_of,
  deeper,
  enter_switch,
  open_case,
  close_case,
  close_switch,
  with_pattern,
  with_assign,
};

use crate::fitted::fitted;
use crate::read_fault::ReadFault;
use crate::stack::Stack;
use rtl_bits::{Memory, Seq};
use rtl_ir::limits::MAX_DEPTH;
use rtl_ir::{Attribute, Case, Link, Switch};
use rtl_lex::Item;
use rtl_sig::SigSpec;
use std::alloc::Global;
use std::mem;

/// A case to which lines are added.
#[derive(Drop)]
pub struct OpenCase {
    pub patterns: Seq<SigSpec>,
    pub assigns: Seq<Link>,
    pub switches: Seq<Switch>,
    pub attributes: Seq<Attribute>,
}

/// A switch to which cases are added, and the case that it stands in.
#[derive(Drop)]
pub struct OpenSwitch {
    pub case: OpenCase,
    pub signal: SigSpec,
    pub cases: Seq<Case>,
    pub attributes: Seq<Attribute>,
}

/// The innermost open case, and the open switches round it.
#[derive(Drop)]
pub struct OpenTree {
    pub case: OpenCase,
    /// The innermost first.
    pub outer: Stack<OpenSwitch>,
    /// The attributes of the switch whose signal is being read.
    pub attributes: Seq<Attribute>,
}

/// A case with these attributes, in which there is nothing yet.
fn plain_case(alloc: Global, attributes: Seq<Attribute>) -> OpenCase
    ensures { result ≡ plain_case attributes }
{
    OpenCase {
        patterns: Seq::make(alloc),
        assigns: Seq::make(alloc),
        switches: Seq::make(alloc),
        attributes,
    }
}

/// A tree of one case in which there is nothing yet.
pub(crate) fn plain_tree(alloc: Global) -> OpenTree
    ensures { result ≡ plain_tree }
{
    OpenTree {
        case: plain_case(alloc, Seq::make(alloc)),
        outer: Stack::make(alloc),
        attributes: Seq::make(alloc),
    }
}

/// A case that is whole.
pub(crate) fn case_of(case: OpenCase) -> Case
    ensures { result ≡ case_of case }
{
    let OpenCase {
        patterns,
        assigns,
        switches,
        attributes,
    } = case;
    Case {
        patterns: fitted(patterns),
        assigns: fitted(assigns),
        switches: fitted(switches).into_vec(),
        attributes,
    }
}

impl OpenTree {
    /// The word `switch`, with the attributes of the switch.
    pub(crate) fn deeper(
        &mut self,
        item: &Item<'_>,
        attributes: Seq<Attribute>,
    ) -> Result<(), ReadFault>
        ensures { Sets result self.new (deeper (as_seen item.now) attributes self.old) }
    {
        if self.outer.depth() >= MAX_DEPTH {
            return Err(ReadFault::Limit(item.place));
        }
        self.attributes = attributes;
        Ok(())
    }

    /// The innermost case so far; an empty one takes its place.
    pub(crate) fn take_case(&mut self, alloc: Global) -> OpenCase
        ensures case { result ≡ self.old.case }
        ensures left { self.new ≡ open_case [] self.old }
    {
        mem::replace(&mut self.case, plain_case(alloc, Seq::make(alloc)))
    }

    /// The end of the line of a switch with this signal.
    pub(crate) fn enter_switch(&mut self, alloc: Global, signal: SigSpec) -> Result<(), Memory>
        ensures { OnOk result (self.new ≡ enter_switch signal self.old) }
    {
        let case = self.take_case(alloc);
        let attributes = mem::replace(&mut self.attributes, Seq::make(alloc));
        self.outer.push(OpenSwitch {
            case,
            signal,
            cases: Seq::make(alloc),
            attributes,
        })
    }

    /// A case begins.
    pub(crate) fn open_case(&mut self, alloc: Global, attributes: Seq<Attribute>)
        ensures { self.new ≡ open_case attributes self.old }
    {
        self.case = plain_case(alloc, attributes);
    }

    /// The open case is whole.
    pub(crate) fn close_case(&mut self, alloc: Global) -> Result<(), Memory>
        ensures { OnOk result (self.new ≡ close_case self.old) }
    {
        let case = case_of(self.take_case(alloc));
        if let Some(mut switch) = self.outer.pop() {
            switch.cases.push(case)?;
            self.outer.push(switch)?;
        }
        Ok(())
    }

    /// The innermost switch is whole.
    pub(crate) fn close_switch(&mut self) -> Result<(), Memory>
        ensures { OnOk result (self.new ≡ close_switch self.old) }
    {
        if let Some(switch) = self.outer.pop() {
            let OpenSwitch {
                mut case,
                signal,
                cases,
                attributes,
            } = switch;
            case.switches.push(Switch {
                signal,
                cases: fitted(cases).into_vec(),
                attributes,
            })?;
            self.case = case;
        }
        Ok(())
    }

    pub(crate) fn add_pattern(&mut self, pattern: SigSpec) -> Result<(), Memory>
        ensures { OnOk result (self.new ≡ with_pattern pattern self.old) }
    {
        self.case.patterns.push(pattern)
    }

    pub(crate) fn add_assign(&mut self, link: Link) -> Result<(), Memory>
        ensures { OnOk result (self.new ≡ with_assign link self.old) }
    {
        self.case.assigns.push(link)
    }
}
