//! What drives each bit of a module and what reads it, by tables over the numbers of its bits.
#![tactic(auto)]

mod builder;
mod builder_fault;
mod builder_given;
mod builder_items;
mod builder_params;
mod driver;
mod driver_fill;
mod driver_patterns;
mod driver_rules;
mod driver_tree;
mod drivers;
mod fresh;
mod index;
mod index_table;
mod index_ways;
mod limits;
mod numbering;
mod outputs;
mod reader;
mod reader_fill;
mod reader_links;
mod reader_sort;
mod readers;
mod types;

pub use builder::Builder;
pub use builder_fault::PassFault;
pub use builder_given::{length_param, memory_param, number_param, value_param};
pub use builder_items::whole;
pub use driver::{CellPin, Driver};
pub use driver_fill::cell_drivers;
pub use driver_patterns::always_matches;
pub use driver_rules::{is_dropped, match_every_value};
pub use driver_tree::assigned_bits;
pub use drivers::Drivers;
pub use fresh::{first_number, made_name};
pub use index::Index;
pub use index_table::BitTable;
pub use limits::{check_limits, count_bits};
pub use numbering::Numbering;
pub use outputs::drives_pin;
pub use reader::Reader;
pub use types::{CellType, Port, PortNames, Types};
