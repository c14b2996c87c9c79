//! The grammar, by cases on tokens.
//!
//! Each name of the grammar has a function, which says for each token that may stand there what is
//! expected behind it. The functions stand in a file for each part of a text.

mod attribute;
mod cell;
mod file;
mod memory;
mod module;
mod pair;
mod process;
mod signal;
mod switch;
mod sync;
mod wire;

ghost use Rattle.rtl_grammar.specs.Bodies.{IsBody};
ghost use Rattle.rtl_grammar.specs.Grammar.{after};

use crate::expect::Expect;
use attribute::{after_attribute_name, after_attribute_value};
use cell::{
    after_behind_pin, after_cell_body, after_cell_kind, after_cell_name, after_cell_parameter,
    after_cell_parameter_name, after_cell_parameter_value, after_pin_name,
};
use file::{
    after_autoidx_number, after_end_of_line, after_file_head, after_modules, after_next_module,
    after_start,
};
use memory::{after_memory_offset, after_memory_option, after_memory_size, after_memory_width};
use module::{
    after_body, after_module_name, after_next_item, after_parameter_name, after_parameter_value,
};
use pair::{after_behind_left, after_behind_right};
use process::{after_next_switch, after_process_body, after_process_name};
use rtl_lex::Sort;
use signal::{
    after_behind_index, after_behind_inside, after_index, after_index_end, after_inside,
    after_low_index, after_signal,
};
use switch::{
    after_behind_pattern, after_behind_switch, after_case_body, after_cases, after_next_case,
    after_next_in_case, after_patterns,
};
use sync::{
    after_behind_address, after_behind_enable, after_behind_event, after_behind_value,
    after_next_write, after_sync_body, after_sync_event, after_write_memory,
};
use wire::{after_port_number, after_wire_offset, after_wire_option, after_wire_width};

/// What is expected behind this token, the next of it last; nothing where the token cannot stand here.
pub fn after(role: Expect, sort: Sort) -> Option<&'static [Expect]>
    ensures { IsBody (after role sort) result }
{
    match role {
        Expect::Start => after_start(sort),
        Expect::FileHead => after_file_head(sort),
        Expect::AutoidxNumber => after_autoidx_number(sort),
        Expect::Modules => after_modules(sort),
        Expect::NextModule => after_next_module(sort),
        Expect::EndOfLine => after_end_of_line(sort),
        Expect::AttributeName => after_attribute_name(sort),
        Expect::AttributeValue => after_attribute_value(sort),
        Expect::ModuleName => after_module_name(sort),
        Expect::Body => after_body(sort),
        Expect::NextItem => after_next_item(sort),
        Expect::ParameterName => after_parameter_name(sort),
        Expect::ParameterValue => after_parameter_value(sort),
        Expect::WireOption => after_wire_option(sort),
        Expect::WireWidth => after_wire_width(sort),
        Expect::WireOffset => after_wire_offset(sort),
        Expect::PortNumber => after_port_number(sort),
        Expect::MemoryOption => after_memory_option(sort),
        Expect::MemoryWidth => after_memory_width(sort),
        Expect::MemorySize => after_memory_size(sort),
        Expect::MemoryOffset => after_memory_offset(sort),
        Expect::CellKind => after_cell_kind(sort),
        Expect::CellName => after_cell_name(sort),
        Expect::CellBody => after_cell_body(sort),
        Expect::CellParameter => after_cell_parameter(sort),
        Expect::CellParameterName => after_cell_parameter_name(sort),
        Expect::CellParameterValue => after_cell_parameter_value(sort),
        Expect::PinName => after_pin_name(sort),
        Expect::BehindPin => after_behind_pin(sort),
        Expect::BehindLeft => after_behind_left(sort),
        Expect::BehindRight => after_behind_right(sort),
        Expect::ProcessName => after_process_name(sort),
        Expect::ProcessBody => after_process_body(sort),
        Expect::NextSwitch => after_next_switch(sort),
        Expect::BehindSwitch => after_behind_switch(sort),
        Expect::Cases => after_cases(sort),
        Expect::NextCase => after_next_case(sort),
        Expect::Patterns => after_patterns(sort),
        Expect::BehindPattern => after_behind_pattern(sort),
        Expect::CaseBody => after_case_body(sort),
        Expect::NextInCase => after_next_in_case(sort),
        Expect::SyncEvent => after_sync_event(sort),
        Expect::BehindEvent => after_behind_event(sort),
        Expect::SyncBody => after_sync_body(sort),
        Expect::NextWrite => after_next_write(sort),
        Expect::WriteMemory => after_write_memory(sort),
        Expect::BehindAddress => after_behind_address(sort),
        Expect::BehindValue => after_behind_value(sort),
        Expect::BehindEnable => after_behind_enable(sort),
        Expect::Signal => after_signal(sort),
        Expect::Inside => after_inside(sort),
        Expect::BehindInside => after_behind_inside(sort),
        Expect::Index => after_index(sort),
        Expect::BehindIndex => after_behind_index(sort),
        Expect::LowIndex => after_low_index(sort),
        Expect::IndexEnd => after_index_end(sort),
    }
}
