//! Replies, and the lines that they are made of.
#![tactic(auto)]

mod fault;
mod reply;

pub use fault::{check_reply, place_reply, read_reply};
pub use reply::{
    Reply, counted, counted_reply, error_reply, last_reply, number_reply, ok_line, ok_reply,
    put_counted, put_number, text_reply, told_reply,
};
