//! The cell library: the kinds of cells, their names, and the shape that a cell's parameters and
//! pins give it.
#![tactic(auto)]

mod fault;
mod gate;
mod given;
mod kind;
mod letters;
mod level;
mod levels;
mod memory;
mod names;
mod number;
mod param_name;
mod params;
mod pin_name;
mod pins;
mod reading;
mod shape;
mod storage;
mod storage_gate;
mod unsupported;
mod widths;
mod word;

pub use fault::CellFault;
pub use gate::GateKind;
pub use given::{Param, PinWidth};
pub use kind::{CellKind, kind_of};
pub use level::Level;
pub use levels::Levels;
pub use memory::MemoryKind;
pub use param_name::ParamName;
pub use params::params_of;
pub use pin_name::PinName;
pub use pins::pins_of;
pub use shape::{Port, Resets, Shape, Signs, Widths, shape_of};
pub use storage::StorageKind;
pub use storage_gate::StorageGate;
pub use unsupported::is_unsupported;
pub use word::{
    ArithKind, BitwiseKind, DivisionKind, EqualKind, FoldKind, LogicKind, OrderKind, ShiftKind,
    UnaryKind, WordKind,
};
