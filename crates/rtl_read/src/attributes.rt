//! The attributes that wait for their item.

ghost use Rattle.std.specs.Prelude.{◌≡◌, OnOk, IfOk};
ghost use Rattle.rtl_read.specs.Meaning.Attribute.{no_attributes, put_at, with_attribute};

use crate::few_names::FewNames;
use crate::fitted::fitted;
use rtl_bits::{Memory, Seq, Text};
use rtl_ir::{Attribute, Value};
use std::alloc::Global;
use std::mem;

/// Attributes, each name once, and the table of their names.
#[derive(Drop)]
pub struct Attributes {
    pub items: Seq<Attribute>,
    pub names: FewNames,
}

/// No attributes.
pub(crate) fn no_attributes(alloc: Global) -> Attributes
    ensures { result ≡ no_attributes }
{
    Attributes {
        items: Seq::make(alloc),
        names: FewNames::make(alloc),
    }
}

/// Puts an attribute at a place of the list, or at its end.
fn put_at(at: usize, attribute: Attribute, items: Seq<Attribute>) -> Result<Seq<Attribute>, Memory>
    ensures { IfOk result (λ new. new ≡ put_at at attribute items) }
{
    let mut items = items.into_vec();
    if at < items.len() {
        items[at] = attribute;
    } else {
        if items.is_empty() {
            items.reserve_exact(1)?;
        }
        items.push(attribute)?;
    }
    Ok(Seq::from_vec(items))
}

impl Attributes {
    /// Adds an attribute; a name that is there keeps its place, with the new value.
    pub(crate) fn put(&mut self, alloc: Global, name: Text, value: Value) -> Result<(), Memory>
        ensures { OnOk result (self.new ≡ with_attribute name value self.old) }
    {
        let at = self.names.intern(alloc, name.as_slice())?;
        let items = mem::replace(&mut self.items, Seq::make(alloc));
        self.items = put_at(at, Attribute { name, value }, items)?;
        Ok(())
    }

    /// Gives the attributes to their item; none are left.
    pub(crate) fn take(&mut self, alloc: Global) -> Seq<Attribute>
        ensures items { result ≡ self.old.items }
        ensures none { self.new ≡ no_attributes }
    {
        self.names.clear(alloc);
        fitted(mem::replace(&mut self.items, Seq::make(alloc)))
    }
}
