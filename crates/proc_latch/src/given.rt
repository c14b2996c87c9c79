//! What the assigns of cases give a bit.

ghost use Rattle.std.specs.Prelude.{◌≡◌, ◌≤◌, drop, length, take};
ghost use Rattle.proc_latch.specs.Givens.{AllBelow, AllFrom, AreInOrder, has_between, value_at};

use rtl_sig::SigBit;

/// What a place of an assign gives a bit, in the case whose node has this number.
#[derive(Clone, Copy)]
pub(crate) struct Given {
    pub(crate) node: usize,
    pub(crate) source: SigBit,
}

/// The last that the assigns of the case at this node give, where they give anything.
pub(crate) fn value_at(given: &[Given], node: usize) -> Option<SigBit>
    requires in_order { AreInOrder given.now }
    ensures value { result ≡ value_at given.now node }
{
    let first = first_from(given, node);
    first_value(&given[first..], node)
}

/// The last that the assigns of the case at this node give, where no node stands before it.
fn first_value(given: &[Given], node: usize) -> Option<SigBit>
    requires in_order { AreInOrder given.now }
    requires from { AllFrom node given.now }
    ensures value { result ≡ value_at given.now node }
{
    let mut found = None;
    for one in given {
        if one.node != node {
            return found;
        }
        found = Some(one.source);
    }
    found
}

/// Whether one of the nodes stands from one number on and before another.
pub(crate) fn has_between(given: &[Given], low: usize, high: usize) -> bool
    requires in_order { AreInOrder given.now }
    ensures value { result ≡ has_between given.now low high }
{
    match given.get(first_from(given, low)) {
        Some(one) => one.node < high,
        None => false,
    }
}

/// How many stand before a node.
fn first_from(given: &[Given], node: usize) -> usize
    requires in_order { AreInOrder given.now }
    ensures bound { result ≤ length given.now }
    ensures before { AllBelow node (take result given.now) }
    ensures behind { AllFrom node (drop result given.now) }
{
    given.partition_point(|one| one.node < node)
}
