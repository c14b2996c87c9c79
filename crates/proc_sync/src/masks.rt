//! Which write ports a line may follow.

ghost use Rattle.std.specs.Prelude.{◌≡◌, Some, None, IfOk, if◌then◌else◌};
ghost use Rattle.std.specs.Str.{bytes_eq};
ghost use Rattle.net_model.specs.Proc.Sync.{ports_in};
ghost use Rattle.proc_sync.specs.Lines.{numbers_of};

use rtl_bits::Memory;
use std::alloc::Global;

/// A line that has become a port: its memory and its number.
#[derive(Clone, Copy)]
pub(crate) struct Numbered<'a> {
    pub(crate) memory: &'a [u8],
    pub(crate) number: u32,
}

/// The number of the line, where it is one of the memory.
fn port_in(memory: &[u8], line: &Numbered<'_>) -> Option<u32>
    ensures value { result ≡ (if bytes_eq line.now.memory.now memory.now then Some line.now.number else None) }
{
    if line.memory == memory {
        Some(line.number)
    } else {
        None
    }
}

/// The ports that lines of a rule are, those of another memory left out.
pub(crate) fn ports_in(
    alloc: Global,
    memory: &[u8],
    lines: &[Numbered<'_>],
) -> Result<Vec<Option<u32>>, Memory>
    ensures value { IfOk result (λ ports. ports.items ≡ ports_in memory.now (numbers_of lines.now)) }
{
    let mut ports = Vec::with_capacity(alloc, lines.len())?;
    for at in 0..lines.len() {
        ports.push(port_in(memory, &lines[at]))?;
    }
    Ok(ports)
}
