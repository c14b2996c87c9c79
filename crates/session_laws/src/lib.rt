//! Sessions as clients see them: the desks of one input answer as sessions do, and a reply is out before more is read. It
//! is definitions and their laws; the program calls none of it.
#![tactic(auto)]

mod laws;

pub use laws::{desks_are_sessions, one_desk_is_a_session, replies_are_out};
