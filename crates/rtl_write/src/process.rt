//! Processes and their rules.

ghost use Rattle.std.specs.Prelude.{◌≡◌, ◌++◌, OnOk, IfOk};
ghost use Rattle.std.specs.List.{flat_map};
ghost use Rattle.rtl_write.specs.Signal.{signal_text};
ghost use Rattle.rtl_write.specs.Text.{
  indent,
  event_text,
  update_text,
  write_signals,
  write_text,
  sync_text,
  process_text,
};

use crate::constant::put_value;
use crate::signal::put_signal;
use crate::statement::{put_attributes, put_indent};
use crate::tree::put_case_body;
use rtl_bits::{Memory, Text};
use rtl_ir::{Event, Link, Process, SyncRule, Wire, WriteLine};
use rtl_sig::SigSpec;
use std::alloc::Global;

/// Writes the word of an event, and its signal.
fn put_level(out: &mut Text, wires: &[Wire], word: &[u8], signal: &SigSpec) -> Result<(), Memory>
    ensures ok { OnOk result (out.new ≡ out.old ++ (word.now ++ signal_text wires.now signal.now)) }
{
    out.extend(word)?;
    put_signal(out, wires, signal.as_slice())
}

#[tactic(auto, unfolding(crate::specs::Text::event_text))]
fn put_event(out: &mut Text, wires: &[Wire], event: &Event) -> Result<(), Memory>
    ensures ok { OnOk result (out.new ≡ out.old ++ event_text wires.now event.now) }
{
    match event {
        Event::Low(signal) => put_level(out, wires, b"low ", signal),
        Event::High(signal) => put_level(out, wires, b"high ", signal),
        Event::Posedge(signal) => put_level(out, wires, b"posedge ", signal),
        Event::Negedge(signal) => put_level(out, wires, b"negedge ", signal),
        Event::Edge(signal) => put_level(out, wires, b"edge ", signal),
        Event::Global => out.extend(b"global"),
        Event::Init => out.extend(b"init"),
        Event::Always => out.extend(b"always"),
    }
}

#[tactic(auto, unfolding(crate::specs::Text::update_text))]
fn put_update(out: &mut Text, wires: &[Wire], link: &Link) -> Result<(), Memory>
    ensures ok { OnOk result (out.new ≡ out.old ++ update_text wires.now link.now) }
{
    put_indent(out, 3)?;
    out.extend(b"update ")?;
    put_signal(out, wires, link.left.as_slice())?;
    out.push(b' ')?;
    put_signal(out, wires, link.right.as_slice())?;
    out.push(b'\n')
}

fn put_updates(out: &mut Text, wires: &[Wire], links: &[Link]) -> Result<(), Memory>
    ensures ok { OnOk result (out.new ≡ out.old ++ flat_map (update_text wires.now) links.now) }
{
    for link in links {
        put_update(out, wires, link)?;
    }
    Ok(())
}

#[tactic(auto, unfolding(crate::specs::Text::write_signals))]
fn put_write_signals(out: &mut Text, wires: &[Wire], line: &WriteLine) -> Result<(), Memory>
    ensures ok { OnOk result (out.new ≡ out.old ++ write_signals wires.now line.now) }
{
    out.extend(line.memory.as_slice())?;
    out.push(b' ')?;
    put_signal(out, wires, line.address.as_slice())?;
    out.push(b' ')?;
    put_signal(out, wires, line.value.as_slice())?;
    out.push(b' ')?;
    put_signal(out, wires, line.enable.as_slice())
}

/// The blanks of the lines of a rule.
fn line_blanks(alloc: Global) -> Result<Text, Memory>
    ensures value { IfOk result (λ blanks. blanks ≡ indent 3) }
{
    let mut blanks = Text::make(alloc);
    put_indent(&mut blanks, 3)?;
    Ok(blanks)
}

#[tactic(auto, unfolding(crate::specs::Text::write_text))]
fn put_write(out: &mut Text, wires: &[Wire], line: &WriteLine) -> Result<(), Memory>
    ensures ok { OnOk result (out.new ≡ out.old ++ write_text wires.now line.now) }
{
    let blanks = line_blanks(out.allocator())?;
    put_attributes(out, blanks.as_slice(), line.attributes.as_slice())?;
    out.extend(blanks.as_slice())?;
    out.extend(b"memwr ")?;
    put_write_signals(out, wires, line)?;
    out.push(b' ')?;
    put_value(out, &line.mask)?;
    out.push(b'\n')
}

fn put_writes(out: &mut Text, wires: &[Wire], lines: &[WriteLine]) -> Result<(), Memory>
    ensures ok { OnOk result (out.new ≡ out.old ++ flat_map (write_text wires.now) lines.now) }
{
    for line in lines {
        put_write(out, wires, line)?;
    }
    Ok(())
}

#[tactic(auto, unfolding(crate::specs::Text::sync_text))]
fn put_sync(out: &mut Text, wires: &[Wire], rule: &SyncRule) -> Result<(), Memory>
    ensures ok { OnOk result (out.new ≡ out.old ++ sync_text wires.now rule.now) }
{
    out.extend(b"    sync ")?;
    put_event(out, wires, &rule.event)?;
    out.push(b'\n')?;
    put_updates(out, wires, rule.updates.as_slice())?;
    put_writes(out, wires, rule.writes.as_slice())
}

fn put_syncs(out: &mut Text, wires: &[Wire], rules: &[SyncRule]) -> Result<(), Memory>
    ensures ok { OnOk result (out.new ≡ out.old ++ flat_map (sync_text wires.now) rules.now) }
{
    for rule in rules {
        put_sync(out, wires, rule)?;
    }
    Ok(())
}

/// The blanks of the statements of a process.
fn statement_blanks(alloc: Global) -> Result<Text, Memory>
    ensures value { IfOk result (λ blanks. blanks ≡ indent 2) }
{
    let mut blanks = Text::make(alloc);
    put_indent(&mut blanks, 2)?;
    Ok(blanks)
}

/// Writes a process over the wires of its module.
#[tactic(auto, unfolding(crate::specs::Text::process_text))]
pub fn put_process(out: &mut Text, wires: &[Wire], process: &Process) -> Result<(), Memory>
    ensures ok { OnOk result (out.new ≡ out.old ++ process_text wires.now process.now) }
{
    let blanks = statement_blanks(out.allocator())?;
    put_attributes(out, b"  ", process.attributes.as_slice())?;
    out.extend(b"  process ")?;
    out.extend(process.name.as_slice())?;
    out.push(b'\n')?;
    put_case_body(out, wires, blanks.as_slice(), &process.root)?;
    put_syncs(out, wires, process.syncs.as_slice())?;
    out.extend(b"  end\n")
}
