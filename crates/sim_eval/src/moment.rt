//! The time at which a netlist settles.

use net_model::Order;
use rtl_bits::Bit;

/// Before the first step; or a step, with the values of the step before by number, the input vector, whether it is the
/// first step, and the order of time in which it is taken.
#[derive(Clone, Copy)]
pub(crate) enum Moment<'a> {
    Start,
    Step {
        before: &'a [Bit],
        inputs: &'a [Bit],
        first: bool,
        order: Order,
    },
}
