//! The order of time: what the edge of a clock takes where an asynchronous control is given up in the same step.

/// What a register takes at an edge of its clock in a step in which its asynchronous reset, load, set or clear
/// changes too. The two orders differ there alone.
#[derive(Clone, Copy, Debug, PartialEq, Eq)]
pub enum Order {
    /// The edge and the change come together: a register takes its data, then the control as it is now acts;
    /// a process with two edges has what all ways through them have in common.
    Together,
    /// The edge takes the value under the control as it was before the step, then the control as it is now acts,
    /// as in Verilog where a register makes the reset of other registers of its clock.
    Released,
}
