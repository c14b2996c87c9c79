//! Lines that write become write ports.

ghost use Rattle.std.specs.Prelude.{◌≡◌, ◌≤◌, [], Err, IfOk, OnOk, flat_map, length};
ghost use Rattle.rtl_ir.specs.declared.process.Process.{Process};
ghost use Rattle.net_index.specs.Builder.{IsInLimits, PassesLimit, new_params};
ghost use Rattle.net_model.specs.Proc.Sync.{lines_step, write_cell, writes_step};
ghost use Rattle.proc_sync.specs.Lines.{mask_of, numbers_of};
ghost use Rattle.proc_sync.specs.Writer.{body_of, done_of, writing_of};
ghost use Rattle.proc_sync.specs.Writes.{line_step, write_params, write_pins};

use crate::masks::{Numbered, ports_in};
use crate::writer::Writer;
use cell_types::{CellKind, Level, MemoryKind, Param, ParamName, PinName};
use match_cells::polarity_of;
use net_index::{Builder, PassFault, length_param, memory_param, number_param, value_param};
use rtl_bits::{Bit, Bits, Memory};
use rtl_ir::{
    Event, Pin, Process, SyncRule, WriteLine, line_mask, pin_of, value_bits, write_trigger,
};
use rtl_sig::SigBit;
use std::alloc::Global;

/// The parameters of a write port. A number of 2^31 or more is taken for want of memory.
fn write_params(
    alloc: Global,
    line: &WriteLine,
    level: Level,
    number: u32,
    mask: &[Bit],
) -> Result<Vec<Param>, Memory>
    ensures value { IfOk result (λ params. new_params params.items ≡
        write_params line.now.memory (length line.now.address) (length line.now.value) level number mask.now) }
{
    let mut params = Vec::new(alloc);
    params.push(memory_param(alloc, line.memory.as_slice())?)?;
    let address = line.address.as_slice().len();
    params.push(length_param(alloc, ParamName::Abits, address)?)?;
    let width = line.value.as_slice().len();
    params.push(length_param(alloc, ParamName::Width, width)?)?;
    params.push(number_param(alloc, ParamName::ClkEnable, 1)?)?;
    params.push(number_param(alloc, ParamName::ClkPolarity, polarity_of(level))?)?;
    params.push(length_param(alloc, ParamName::Portid, number as usize)?)?;
    params.push(value_param(alloc, ParamName::PriorityMask, mask)?)?;
    Ok(params)
}

/// The pins CLK, EN, ADDR and DATA.
fn write_pins(alloc: Global, clk: &[SigBit], line: &WriteLine) -> Result<Vec<Pin>, Memory>
    ensures value { IfOk result (λ pins. pins.items ≡
        write_pins clk.now line.now.enable line.now.address line.now.value) }
{
    let mut pins = Vec::new(alloc);
    pins.push(pin_of(alloc, PinName::Clk, clk)?)?;
    pins.push(pin_of(alloc, PinName::En, line.enable.as_slice())?)?;
    pins.push(pin_of(alloc, PinName::Addr, line.address.as_slice())?)?;
    pins.push(pin_of(alloc, PinName::Data, line.value.as_slice())?)?;
    Ok(pins)
}

/// The mask of the port that the line becomes.
fn mask_of(
    alloc: Global,
    line: &WriteLine,
    number: u32,
    rule: &[Numbered<'_>],
) -> Result<Bits, Memory>
    ensures value { IfOk result (λ bits. bits ≡ mask_of number (numbers_of rule.now) line.now) }
{
    let mask = value_bits(alloc, &line.mask)?;
    let ports = ports_in(alloc, line.memory.as_slice(), rule)?;
    line_mask(alloc, number, ports.as_slice(), mask.as_slice())
}

/// A line that writes as a cell of this number, behind these lines of its rule.
fn write_cell(
    alloc: Global,
    event: &Event,
    line: &WriteLine,
    number: u32,
    rule: &[Numbered<'_>],
    builder: &mut Builder,
) -> Result<(), PassFault>
    ensures exact { OnOk result (builder.new ≡ write_cell event.now line.now number (numbers_of rule.now) builder.old) }
    ensures over { result ≡ Err PassFault.Over →
        PassesLimit (write_cell event.now line.now number (numbers_of rule.now) builder.old) }
    ensures within { OnOk result (IsInLimits builder.new) }
{
    let control = write_trigger(event);
    let mask = mask_of(alloc, line, number, rule)?;
    let params = write_params(alloc, line, control.level, number, mask.as_slice())?;
    let pins = write_pins(alloc, control.signal, line)?;
    let kind = CellKind::Memory(MemoryKind::MemwrV2);
    builder.add_cell(kind, params.as_slice(), pins.as_slice())?;
    Ok(())
}

/// A line becomes a port, where the lines of its rule stand behind so many.
fn line_step<'a>(
    alloc: Global,
    event: &Event,
    start: usize,
    line: &'a WriteLine,
    writer: Writer<'a>,
    builder: &mut Builder,
) -> Result<Writer<'a>, PassFault>
    requires few { start ≤ length (done_of writer) }
    ensures body { IfOk result (λ after. body_of after ≡ body_of writer.entry) }
    ensures exact { IfOk result (λ after. writing_of after builder.new ≡
        line_step (body_of writer.entry) event.now start line.now (writing_of writer.entry builder.old)) }
    ensures over { result ≡ Err PassFault.Over →
        PassesLimit
        (line_step (body_of writer.entry) event.now start line.now (writing_of writer.entry builder.old)).building }
    ensures within { IsInLimits builder.old → OnOk result (IsInLimits builder.new) }
{
    let memory = line.memory.as_slice();
    let number = writer.next(memory);
    write_cell(alloc, event, line, number, writer.behind(start), builder)?;
    Ok(writer.with_line(memory)?)
}

/// The lines of a rule.
fn lines_step<'a>(
    alloc: Global,
    rule: &'a SyncRule,
    writer: Writer<'a>,
    builder: &mut Builder,
) -> Result<Writer<'a>, PassFault>
    ensures body { IfOk result (λ after. body_of after ≡ body_of writer.entry) }
    ensures exact { IfOk result (λ after. writing_of after builder.new ≡
        lines_step (body_of writer.entry) rule.now.event [] rule.now.writes (writing_of writer.entry builder.old)) }
    ensures over { result ≡ Err PassFault.Over →
        PassesLimit
        (lines_step (body_of writer.entry) rule.now.event [] rule.now.writes
        (writing_of writer.entry builder.old)).building }
    ensures within { IsInLimits builder.old → OnOk result (IsInLimits builder.new) }
{
    let start = writer.count();
    let mut writer = writer;
    for line in rule.writes.as_slice() {
        writer = line_step(alloc, &rule.event, start, line, writer, builder)?;
    }
    Ok(writer)
}

/// The lines of rules.
fn rules_step<'a>(
    alloc: Global,
    rules: &'a [SyncRule],
    writer: Writer<'a>,
    builder: &mut Builder,
) -> Result<Writer<'a>, PassFault>
    ensures body { IfOk result (λ after. body_of after ≡ body_of writer.entry) }
    ensures exact { IfOk result (λ after. writing_of after builder.new ≡
        writes_step (body_of writer.entry) rules.now (writing_of writer.entry builder.old)) }
    ensures over { result ≡ Err PassFault.Over →
        PassesLimit (writes_step (body_of writer.entry) rules.now (writing_of writer.entry builder.old)).building }
    ensures within { IsInLimits builder.old → OnOk result (IsInLimits builder.new) }
{
    let mut writer = writer;
    for rule in rules {
        writer = lines_step(alloc, rule, writer, builder)?;
    }
    Ok(writer)
}

/// The lines of processes. After an error the builder holds the ports of some.
pub(crate) fn writes_step<'a>(
    alloc: Global,
    processes: &'a [Process],
    writer: Writer<'a>,
    builder: &mut Builder,
) -> Result<(), PassFault>
    ensures exact { OnOk result (builder.new ≡
        (writes_step (body_of writer.entry) (flat_map (λ (p : Process). p.syncs) processes.now)
        (writing_of writer.entry builder.old)).building) }
    ensures over { result ≡ Err PassFault.Over →
        PassesLimit (writes_step (body_of writer.entry) (flat_map (λ (p : Process). p.syncs) processes.now)
        (writing_of writer.entry builder.old)).building }
    ensures within { IsInLimits builder.old → OnOk result (IsInLimits builder.new) }
{
    let mut writer = writer;
    for process in processes {
        writer = rules_step(alloc, process.syncs.as_slice(), writer, builder)?;
    }
    Ok(())
}
