//! The rules of a process.

ghost use Rattle.std.specs.Prelude.{◌≡◌, ◌&&◌, not};
ghost use Rattle.rtl_ir.specs.Rules.{has_line, is_init};

use crate::process::{Event, SyncRule};

/// Whether the rule has a line.
pub fn has_line(rule: &SyncRule) -> bool
    ensures value { result ≡ has_line rule.now }
{
    !rule.updates.as_slice().is_empty() || !rule.writes.as_slice().is_empty()
}

/// Whether the rule acts: it has a line, and gives no start values.
pub fn acts(rule: &SyncRule) -> bool
    ensures value { result ≡ (has_line rule.now && not (is_init rule.now.event)) }
{
    has_line(rule) && !matches!(rule.event, Event::Init)
}
