//! The process that is open.

ghost use Rattle.std.specs.Prelude.{◌≡◌, OnOk};
ghost use Rattle.rtl_lex.specs.Items.{as_seen};
ghost use Rattle.rtl_read.specs.Meaning.Process.{
  event_of,
  event_with,
  plain_rule,
  plain_write,
  plain_process,
  with_process_name,
  open_rule,
  with_event,
  close_rule,
  with_update,
  open_write,
  with_memory,
  with_address,
  with_value,
  close_write,
  process_of,
};

use crate::fitted::fitted;
use crate::tree::{OpenTree, case_of, plain_tree};
use rtl_bits::{Memory, Seq, Text};
use rtl_ir::{Attribute, Event, Link, Process, SyncRule, Value, WriteLine};
use rtl_lex::{Item, Sort};
use rtl_sig::SigSpec;
use std::alloc::Global;
use std::mem;

/// A process to which statements are added.
#[derive(Drop)]
pub struct OpenProcess {
    pub name: Text,
    pub attributes: Seq<Attribute>,
    pub tree: OpenTree,
    pub syncs: Seq<SyncRule>,
    /// The rule and the `memwr` line that are open.
    pub rule: SyncRule,
    pub write: WriteLine,
}

/// The event of a word, without its signal.
fn event_of(alloc: Global, sort: Sort) -> Event
    ensures { result ≡ event_of sort }
{
    match sort {
        Sort::Low => Event::Low(SigSpec::make(alloc)),
        Sort::High => Event::High(SigSpec::make(alloc)),
        Sort::Posedge => Event::Posedge(SigSpec::make(alloc)),
        Sort::Negedge => Event::Negedge(SigSpec::make(alloc)),
        Sort::Edge => Event::Edge(SigSpec::make(alloc)),
        Sort::Global => Event::Global,
        Sort::Init => Event::Init,
        _ => Event::Always,
    }
}

/// The event with its signal.
fn event_with(signal: SigSpec, event: Event) -> Event
    ensures { result ≡ event_with signal event }
{
    match event {
        Event::Low(_) => Event::Low(signal),
        Event::High(_) => Event::High(signal),
        Event::Posedge(_) => Event::Posedge(signal),
        Event::Negedge(_) => Event::Negedge(signal),
        Event::Edge(_) => Event::Edge(signal),
        other => other,
    }
}

/// A rule without lines.
fn plain_rule(alloc: Global, event: Event) -> SyncRule
    ensures { result ≡ plain_rule event }
{
    SyncRule {
        event,
        updates: Seq::make(alloc),
        writes: Seq::make(alloc),
    }
}

/// A `memwr` line with these attributes, in which there is nothing yet.
fn plain_write(alloc: Global, attributes: Seq<Attribute>) -> WriteLine
    ensures { result ≡ plain_write attributes }
{
    WriteLine {
        memory: Text::make(alloc),
        address: SigSpec::make(alloc),
        value: SigSpec::make(alloc),
        enable: SigSpec::make(alloc),
        mask: Value::Int(0),
        attributes,
    }
}

/// A process with these attributes, in which there is nothing yet.
pub(crate) fn plain_process(alloc: Global, attributes: Seq<Attribute>) -> OpenProcess
    ensures { result ≡ plain_process attributes }
{
    OpenProcess {
        name: Text::make(alloc),
        attributes,
        tree: plain_tree(alloc),
        syncs: Seq::make(alloc),
        rule: plain_rule(alloc, Event::Always),
        write: plain_write(alloc, Seq::make(alloc)),
    }
}

/// A process that is whole.
pub(crate) fn process_of(process: OpenProcess) -> Process
    ensures { result ≡ process_of process }
{
    let OpenProcess {
        name,
        attributes,
        tree,
        syncs,
        ..
    } = process;
    let OpenTree { case, .. } = tree;
    Process {
        name,
        root: case_of(case),
        syncs: fitted(syncs),
        attributes,
    }
}

impl OpenProcess {
    /// Its name.
    pub(crate) fn set_name(&mut self, alloc: Global, item: &Item<'_>) -> Result<(), Memory>
        ensures { OnOk result (self.new ≡ with_process_name (as_seen item.now) self.old) }
    {
        self.name = Text::from_slice(alloc, item.text)?;
        Ok(())
    }

    /// A rule begins.
    pub(crate) fn open_rule(&mut self, alloc: Global, sort: Sort)
        ensures { self.new ≡ open_rule sort self.old }
    {
        self.rule = plain_rule(alloc, event_of(alloc, sort));
    }

    /// The rule has its signal.
    pub(crate) fn set_event(&mut self, signal: SigSpec)
        ensures { self.new ≡ with_event signal self.old }
    {
        let event = mem::replace(&mut self.rule.event, Event::Always);
        self.rule.event = event_with(signal, event);
    }

    /// The rule is whole.
    pub(crate) fn close_rule(&mut self, alloc: Global) -> Result<(), Memory>
        ensures { OnOk result (self.new ≡ close_rule self.old) }
    {
        let rule = mem::replace(&mut self.rule, plain_rule(alloc, Event::Always));
        self.syncs.push(SyncRule {
            updates: fitted(rule.updates),
            writes: fitted(rule.writes),
            ..rule
        })
    }

    pub(crate) fn add_update(&mut self, link: Link) -> Result<(), Memory>
        ensures { OnOk result (self.new ≡ with_update link self.old) }
    {
        self.rule.updates.push(link)
    }

    /// A `memwr` line begins.
    pub(crate) fn open_write(&mut self, alloc: Global, attributes: Seq<Attribute>)
        ensures { self.new ≡ open_write attributes self.old }
    {
        self.write = plain_write(alloc, attributes);
    }

    /// It has its memory.
    pub(crate) fn set_memory(&mut self, alloc: Global, item: &Item<'_>) -> Result<(), Memory>
        ensures { OnOk result (self.new ≡ with_memory (as_seen item.now) self.old) }
    {
        self.write.memory = Text::from_slice(alloc, item.text)?;
        Ok(())
    }

    /// It has its address.
    pub(crate) fn set_address(&mut self, signal: SigSpec)
        ensures { self.new ≡ with_address signal self.old }
    {
        self.write.address = signal;
    }

    /// It has its value.
    pub(crate) fn set_value(&mut self, signal: SigSpec)
        ensures { self.new ≡ with_value signal self.old }
    {
        self.write.value = signal;
    }

    /// It has its enable and its mask, with which it is whole.
    pub(crate) fn close_write(
        &mut self,
        alloc: Global,
        enable: SigSpec,
        mask: Value,
    ) -> Result<(), Memory>
        ensures { OnOk result (self.new ≡ close_write enable mask self.old) }
    {
        let write = plain_write(alloc, Seq::make(alloc));
        let mut write = mem::replace(&mut self.write, write);
        write.enable = enable;
        write.mask = mask;
        self.rule.writes.push(write)
    }
}
