//! The edges and levels at which rules act.

ghost use Rattle.std.specs.Prelude.{◌≡◌, option_map};
ghost use Rattle.rtl_ir.specs.Flat.Access.{write_trigger};
ghost use Rattle.rtl_ir.specs.Flat.Process.{edge_trigger, level_trigger};
ghost use Rattle.rtl_ir.specs.Triggers.{trigger_of};

use crate::process::Event;
use cell_types::Level;
use rtl_sig::SigBit;

/// An edge, or a level: its signal, and the level, of an edge that after it.
#[derive(Clone, Copy)]
pub struct Trigger<'a> {
    pub signal: &'a [SigBit],
    pub level: Level,
}

/// The edge or the level of this signal and this level.
pub fn trigger_at(signal: &[SigBit], level: Level) -> Trigger<'_>
    ensures value { trigger_of result ≡ record { signal = signal.now; level = level } }
{
    Trigger { signal, level }
}

/// The edge of an event, where it is one.
pub fn edge_trigger(event: &Event) -> Option<Trigger<'_>>
    ensures value { option_map trigger_of result ≡ edge_trigger event.now }
{
    match event {
        Event::Posedge(signal) => Some(trigger_at(signal.as_slice(), Level::High)),
        Event::Negedge(signal) => Some(trigger_at(signal.as_slice(), Level::Low)),
        _ => None,
    }
}

/// The level of an event, where it is one.
pub fn level_trigger(event: &Event) -> Option<Trigger<'_>>
    ensures value { option_map trigger_of result ≡ level_trigger event.now }
{
    match event {
        Event::High(signal) => Some(trigger_at(signal.as_slice(), Level::High)),
        Event::Low(signal) => Some(trigger_at(signal.as_slice(), Level::Low)),
        _ => None,
    }
}

/// The edge at which the lines of a rule write. The rule of one has an edge; of any other there is no signal.
pub fn write_trigger(event: &Event) -> Trigger<'_>
    ensures value { trigger_of result ≡ write_trigger event.now }
{
    match event {
        Event::Posedge(signal) => trigger_at(signal.as_slice(), Level::High),
        Event::Negedge(signal) => trigger_at(signal.as_slice(), Level::Low),
        _ => trigger_at(&[], Level::Low),
    }
}
