//! The records of a design, as a text gives them, and what they say.
#![tactic(auto)]

mod assigns;
mod attributes;
mod build;
mod cell;
mod constants;
mod follow;
pub mod limits;
mod line_masks;
mod machine;
mod module;
mod outputs;
mod parameters;
mod plan;
mod ports;
mod process;
mod rules;
mod same;
mod shape;
mod signals;
mod sources;
mod starts;
mod store;
mod table;
mod trigger;
mod value;
mod wire;
mod write_ports;

pub use assigns::{add_left_bits, add_wire_bits, left_bits};
pub use attributes::{attribute_bits, is_kept};
pub use build::{bits_param, integer_param, pin_of};
pub use cell::{Cell, CellParam, Pin};
pub use constants::{char_bits, low_bits, unsigned_of, value_bits};
pub use follow::{Join, add_all_joins, add_joins, all_joins, init_joins, joins};
pub use line_masks::line_mask;
pub use machine::Machine;
pub use module::{Design, Link, Module, Parameter};
pub use outputs::{is_output, output_pin};
pub use parameters::{
    chars_in, given_params, memory_name, number_in, pin_signal, signal_at, value_in,
};
pub use plan::{MemPlan, ReadPort, WritePort};
pub use ports::{ModulePorts, PortLine, PortTable};
pub use process::{Case, Event, Process, Switch, SyncRule, WriteLine};
pub use rules::{acts, has_line};
pub use same::Same;
pub use shape::{cell_kind, cell_shape, fitting_shape};
pub use signals::{
    constant_of, constants_of, is_all_constant, is_constant, same_bit, same_place, same_signal,
    same_value,
};
pub use sources::{Sources, source_of, sources_of};
pub use starts::{inits, start};
pub use store::Store;
pub use table::{DesignPorts, is_library_cell, is_port, port_table, port_wires};
pub use trigger::{Trigger, edge_trigger, level_trigger, trigger_at, write_trigger};
pub use value::{Attribute, Value};
pub use wire::{Role, Wire};
pub use write_ports::{clock_level, is_of_memory, is_write_cell, is_write_port, port_number};
