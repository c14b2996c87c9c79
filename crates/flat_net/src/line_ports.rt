//! The lines of processes that write a memory, as write ports.

ghost use Rattle.std.specs.Prelude.{◌≡◌, ◌+◌, ◌++◌, ◌∷◌, [], List, IfOk, OnOk, length, map, option_map};
ghost use Rattle.net_model.specs.Mem.Gather.{write_port};
ghost use Rattle.rtl_ir.specs.declared.process.Event.{Event};
ghost use Rattle.rtl_ir.specs.declared.process.WriteLine.{WriteLine};
ghost use Rattle.rtl_ir.specs.Flat.Access.{line_access, line_accesses, rule_accesses};
ghost use Rattle.flat_net.specs.Accesses.{event_of, have_line, next_of, rules_of};

use rtl_bits::{Copied, Memory};
use rtl_ir::{Event, Process, SyncRule, WriteLine, WritePort, line_mask, value_bits};
use std::alloc::Global;

/// The first number behind those of the ports. One of 2^32 is taken for want of memory.
pub(crate) fn next_number(ports: &[WritePort]) -> Result<u32, Memory>
    ensures value { IfOk result (λ next. next ≡ next_of ports.now) }
{
    let mut next = 0;
    for at in (0..ports.len()).rev() {
        next = ports[at].number.checked_add(1).ok_or(Memory)?.max(next);
    }
    Ok(next)
}

/// The number of so many ports behind a number. More than 2^32 are taken for want of memory.
fn number_behind(number: u32, count: usize) -> Result<u32, Memory>
    ensures value { IfOk result (λ behind. behind ≡ number + count) }
{
    let count = u32::try_from(count).ok().ok_or(Memory)?;
    number.checked_add(count).ok_or(Memory)
}

/// The lines that write the memory of this name, as ports numbered from here on.
pub(crate) fn line_ports(
    alloc: Global,
    name: &[u8],
    number: u32,
    processes: &[Process],
) -> Result<Vec<WritePort>, Memory>
    ensures value { IfOk result (λ ports. ports.items ≡
        map write_port (rule_accesses name.now number (rules_of processes.now))) }
{
    let mut ports = Vec::new(alloc);
    for process in processes {
        put_rules(alloc, name, number, process.syncs.as_slice(), &mut ports)?;
    }
    Ok(ports)
}

/// Puts the lines of the rules that write the memory last.
fn put_rules(
    alloc: Global,
    name: &[u8],
    number: u32,
    rules: &[SyncRule],
    ports: &mut Vec<WritePort>,
) -> Result<(), Memory>
    ensures ok { OnOk result (ports.new.items ≡
        ports.old.items ++ map write_port (rule_accesses name.now (number + length ports.old.items) rules.now)) }
{
    for rule in rules {
        put_lines(alloc, name, number, rule.writes.as_slice(), ports)?;
    }
    Ok(())
}

/// Puts the lines of a rule that write the memory last.
fn put_lines(
    alloc: Global,
    name: &[u8],
    number: u32,
    lines: &[WriteLine],
    ports: &mut Vec<WritePort>,
) -> Result<(), Memory>
    ensures ok { (event : Event) →
        OnOk result (ports.new.items ≡ ports.old.items ++ map write_port (line_accesses name.now event
        (number + length ports.old.items) [] lines.now)) }
{
    let mut before = Vec::new(alloc);
    for line in lines {
        put_line(alloc, name, number, line, &mut before, ports)?;
    }
    Ok(())
}

/// Puts a line last among the lines of its rule, and where it writes the memory last among the ports.
fn put_line(
    alloc: Global,
    name: &[u8],
    number: u32,
    line: &WriteLine,
    before: &mut Vec<Option<u32>>,
    ports: &mut Vec<WritePort>,
) -> Result<(), Memory>
    ensures ok { (event : Event) (rest : List WriteLine) → OnOk result (
        ports.old.items ++ map write_port
        (line_accesses name.now event (number + length ports.old.items) before.old.items (line.now ∷ rest))
        ≡ ports.new.items ++ map write_port (line_accesses name.now event (number + length ports.new.items)
        before.new.items rest)) }
{
    if name == line.memory.as_slice() {
        let at = number_behind(number, ports.len())?;
        let port = line_port(alloc, at, before.as_slice(), line)?;
        ports.push(port)?;
        before.push(Some(at))?;
        return Ok(());
    }
    before.push(None)?;
    Ok(())
}

/// A line as the port of a number, behind these lines of its rule.
fn line_port(
    alloc: Global,
    number: u32,
    before: &[Option<u32>],
    line: &WriteLine,
) -> Result<WritePort, Memory>
    ensures value { (event : Event) →
        IfOk result (λ port. port ≡ write_port (line_access event number before.now line.now)) }
{
    let mask = value_bits(alloc, &line.mask)?;
    Ok(WritePort {
        number,
        address: line.address.copy()?,
        data: line.value.copy()?,
        enable: line.enable.copy()?,
        mask: line_mask(alloc, number, before, mask.as_slice())?,
    })
}

/// The event of the first rule with a line that writes the memory of this name.
pub(crate) fn first_event<'a>(name: &[u8], processes: &'a [Process]) -> Option<&'a Event>
    ensures value { option_map (λ e. e.now) result ≡ event_of name.now (rules_of processes.now) }
{
    for process in processes {
        if let Some(event) = first_rule(name, process.syncs.as_slice()) {
            return Some(event);
        }
    }
    None
}

/// The event of the first of the rules with a line that writes the memory.
fn first_rule<'a>(name: &[u8], rules: &'a [SyncRule]) -> Option<&'a Event>
    ensures value { option_map (λ e. e.now) result ≡ event_of name.now rules.now }
{
    for rule in rules {
        if writes(name, rule.writes.as_slice()) {
            return Some(&rule.event);
        }
    }
    None
}

/// Whether one of the lines writes the memory.
fn writes(name: &[u8], lines: &[WriteLine]) -> bool
    ensures value { result ≡ have_line name.now lines.now }
{
    for line in lines {
        if name == line.memory.as_slice() {
            return true;
        }
    }
    false
}
