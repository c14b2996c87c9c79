//! What each token does, by the place in the grammar where it stands.
//!
//! Each name of the grammar has a method of `Draft`. The methods stand in a file for each part of a
//! text.

mod attribute;
mod cell;
mod file;
mod memory;
mod module;
mod pair;
mod process;
mod signal;
mod switch;
mod sync;
mod wire;

ghost use Rattle.rtl_lex.specs.Items.{as_seen};
ghost use Rattle.rtl_read.specs.Gives.{Sets};
ghost use Rattle.rtl_read.specs.Act.{act};

use crate::draft::Draft;
use crate::read_fault::ReadFault;
use rtl_grammar::Expect;
use rtl_lex::Item;
use std::alloc::Global;

impl Draft {
    /// What a token does that stands here. After a fault nothing is promised of the draft.
    pub(crate) fn act(
        &mut self,
        alloc: Global,
        role: Expect,
        item: &Item<'_>,
    ) -> Result<(), ReadFault>
        ensures { Sets result self.new (act role (as_seen item.now) self.old) }
    {
        match role {
            Expect::Start => self.act_modules(item),
            Expect::FileHead => self.act_modules(item),
            Expect::AutoidxNumber => self.act_autoidx_number(item),
            Expect::Modules => self.act_modules(item),
            Expect::NextModule => self.act_modules(item),
            Expect::EndOfLine => Ok(()),
            Expect::AttributeName => self.act_attribute_name(alloc, item),
            Expect::AttributeValue => self.act_attribute_value(alloc, item),
            Expect::ModuleName => self.act_module_name(alloc, item),
            Expect::Body => self.act_body(alloc, item),
            Expect::NextItem => self.act_next_item(alloc, item),
            Expect::ParameterName => self.act_parameter_name(alloc, item),
            Expect::ParameterValue => self.act_parameter_value(alloc, item),
            Expect::WireOption => self.act_wire_option(alloc, item),
            Expect::WireWidth => self.act_wire_width(item),
            Expect::WireOffset => self.act_wire_offset(item),
            Expect::PortNumber => self.act_port_number(item),
            Expect::MemoryOption => self.act_memory_option(alloc, item),
            Expect::MemoryWidth => self.act_memory_width(item),
            Expect::MemorySize => self.act_memory_size(item),
            Expect::MemoryOffset => self.act_memory_offset(item),
            Expect::CellKind => self.act_cell_kind(alloc, item),
            Expect::CellName => self.act_cell_name(alloc, item),
            Expect::CellBody => self.act_cell_body(alloc, item),
            Expect::CellParameter => self.act_cell_parameter(alloc, item),
            Expect::CellParameterName => self.act_cell_parameter_name(alloc, item),
            Expect::CellParameterValue => self.act_cell_parameter_value(alloc, item),
            Expect::PinName => self.act_pin_name(alloc, item),
            Expect::BehindPin => self.act_behind_pin(alloc, item),
            Expect::BehindLeft => self.act_behind_left(alloc, item),
            Expect::BehindRight => self.act_behind_right(alloc, item),
            Expect::ProcessName => self.act_process_name(alloc, item),
            Expect::ProcessBody => self.act_process_body(alloc, item),
            Expect::NextSwitch => self.act_next_switch(alloc, item),
            Expect::BehindSwitch => self.act_behind_switch(alloc, item),
            Expect::Cases => self.act_cases(alloc, item),
            Expect::NextCase => self.act_next_case(alloc, item),
            Expect::Patterns => self.act_patterns(alloc, item),
            Expect::BehindPattern => self.act_behind_pattern(alloc, item),
            Expect::CaseBody => self.act_case_body(alloc, item),
            Expect::NextInCase => self.act_next_in_case(alloc, item),
            Expect::SyncEvent => self.act_sync_event(alloc, item),
            Expect::BehindEvent => self.act_behind_event(alloc, item),
            Expect::SyncBody => self.act_sync_body(alloc, item),
            Expect::NextWrite => self.act_next_write(alloc, item),
            Expect::WriteMemory => self.act_write_memory(alloc, item),
            Expect::BehindAddress => self.act_behind_address(alloc, item),
            Expect::BehindValue => self.act_behind_value(alloc, item),
            Expect::BehindEnable => self.act_behind_enable(alloc, item),
            Expect::Signal => self.act_signal(alloc, item),
            Expect::Inside => self.act_inside(alloc, item),
            Expect::BehindInside => self.act_behind_inside(alloc, item),
            Expect::Index => self.act_index(item),
            Expect::BehindIndex => self.act_behind_index(alloc, item),
            Expect::LowIndex => self.act_low_index(item),
            Expect::IndexEnd => self.act_index_end(alloc, item),
        }
    }
}
