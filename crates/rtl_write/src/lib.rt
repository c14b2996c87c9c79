//! The canonical text of designs and of their parts, and how parts are read again from it.
#![tactic(auto)]

mod bodies;
mod constant;
mod laws;
mod port_table;
mod ports;
mod process;
mod run;
mod signal;
mod statement;
mod tree;
mod whole;

pub use bodies::read_body;
pub use laws::{bodies_have_their_texts, reads_again, tables_of_readable_designs};
pub use port_table::read_ports;
pub use ports::ports_text;
pub use whole::{body_text, module_text, put_named, write};
