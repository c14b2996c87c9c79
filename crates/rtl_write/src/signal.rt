//! Signals.

ghost use Rattle.std.specs.Prelude.{◌≡◌, ◌<◌, ◌+◌, ◌^◌, ◌++◌, OnOk, IfOk, map};
ghost use Rattle.std.specs.Option.{option_copied};
ghost use Rattle.rtl_write.specs.Signal.{constant_of, part_text, run_text, braces_text, signal_text};

use crate::constant::{put_bits, put_number};
use crate::run::runs_in;
use rtl_bits::{Bit, Memory, Text};
use rtl_ir::Wire;
use rtl_sig::SigBit;
use std::alloc::Global;

fn constant_of(bit: SigBit) -> Bit
    ensures value { result ≡ constant_of bit }
{
    match bit {
        SigBit::Fixed(bit) => bit,
        SigBit::Wire(_) => Bit::X,
    }
}

/// The bits of a run of constants.
fn constants(alloc: Global, run: &[SigBit]) -> Result<Vec<Bit>, Memory>
    ensures value { IfOk result (λ bits. bits.items ≡ map constant_of run.now) }
{
    Ok(run.iter().map(|bit| constant_of(*bit)).collect(alloc)?)
}

/// Writes `count` bits of the wire from bit `low` on.
#[tactic(auto, unfolding(crate::specs::Signal::part_text))]
fn put_part(out: &mut Text, wire: Option<&Wire>, low: u32, count: usize) -> Result<(), Memory>
    requires some { 0 < count }
    requires small { count < 2 ^ 63 }
    ensures ok { OnOk result (out.new ≡ out.old ++ part_text (option_copied wire.entry) low count) }
{
    let Some(wire) = wire else {
        return Ok(());
    };
    out.extend(wire.name.as_slice())?;
    if low == 0 && count as u64 == u64::from(wire.width) {
        return Ok(());
    }
    out.extend(b" [")?;
    if count != 1 {
        put_number(out, u64::from(low) + count as u64 - 1)?;
        out.extend(b":")?;
    }
    put_number(out, u64::from(low))?;
    out.extend(b"]")
}

/// Writes a run: a value, or a part of a wire.
#[tactic(auto, unfolding(crate::specs::Signal::run_text))]
fn put_run(out: &mut Text, wires: &[Wire], run: &[SigBit]) -> Result<(), Memory>
    ensures ok { OnOk result (out.new ≡ out.old ++ run_text wires.now run.now) }
{
    match run {
        [] => Ok(()),
        [SigBit::Fixed(_), ..] => {
            let bits = constants(out.allocator(), run)?;
            put_bits(out, bits.as_slice(), false)
        }
        [SigBit::Wire(first), ..] => {
            put_part(out, wires.get(first.wire as usize), first.at, run.len())
        }
    }
}

/// Writes runs in braces.
fn put_braces(out: &mut Text, wires: &[Wire], runs: &[&[SigBit]]) -> Result<(), Memory>
    ensures ok { OnOk result (out.new ≡ out.old ++ braces_text wires.now (map (λ run. run.now) runs.now)) }
{
    out.push(b'{')?;
    for run in runs {
        out.push(b' ')?;
        put_run(out, wires, run)?;
    }
    out.extend(b" }")
}

/// Writes a signal over the wires of its module.
#[tactic(auto, unfolding(crate::specs::Signal::signal_text))]
pub fn put_signal(out: &mut Text, wires: &[Wire], bits: &[SigBit]) -> Result<(), Memory>
    ensures ok { OnOk result (out.new ≡ out.old ++ signal_text wires.now bits.now) }
{
    let runs = runs_in(out.allocator(), bits)?;
    match runs.as_slice() {
        [run] => put_run(out, wires, run),
        runs => put_braces(out, wires, runs),
    }
}
