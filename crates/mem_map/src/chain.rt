//! The write chains of words.

ghost use Rattle.std.specs.Prelude.{◌≡◌, Err, IfOk, OnOk};
ghost use Rattle.net_index.specs.Builder.{IsInLimits, PassesLimit};
ghost use Rattle.net_model.specs.Mem.Expand.{port_runs, port_step, ports_step, word_step, words_step};
ghost use Rattle.mem_map.specs.Words.{word, words_of};

use crate::cells::{address_match, register_cell, run_select};
use crate::reach::reaches;
use crate::runs::{cut, low_bit, run_lengths};
use crate::words::Words;
use match_cells::mux_cell;
use net_index::{Builder, PassFault};
use rtl_bits::{Copied, Seq};
use rtl_ir::{MemPlan, WritePort};
use rtl_sig::{SigBit, SigSpec};
use std::alloc::Global;

/// Each run of a word through a multiplexer: from the value so far, and what the port writes.
fn port_runs(
    matched: SigBit,
    runs: &[usize],
    acc: &[SigBit],
    written: &[SigBit],
    enable: &[SigBit],
    builder: &mut Builder,
) -> Result<SigSpec, PassFault>
    ensures exact { IfOk result (λ value. (value, builder.new) ≡
        port_runs matched runs.now acc.now written.now enable.now builder.old) }
    ensures over { result ≡ Err PassFault.Over →
        PassesLimit (port_runs matched runs.now acc.now written.now enable.now builder.old).1 }
    ensures within { IsInLimits builder.old → OnOk result (IsInLimits builder.new) }
{
    let alloc = builder.allocator();
    let mut value = Seq::make(alloc);
    let (mut acc, mut written, mut enable) = (acc, written, enable);
    for count in runs {
        let select = run_select(alloc, matched, low_bit(enable), builder)?;
        let (old, old_rest) = cut(acc, *count);
        let (new, new_rest) = cut(written, *count);
        let mux = mux_cell(alloc, old, new, select, builder)?;
        value.extend(mux.as_slice())?;
        acc = old_rest;
        written = new_rest;
        enable = cut(enable, *count).1;
    }
    Ok(SigSpec::from_vec(value.into_vec())?)
}

/// A write port on the value so far of the word at an address, where it can reach the address.
#[tactic(auto, using(crate::proofs::Passing::match_over))]
fn port_step(
    alloc: Global,
    address: u64,
    port: &WritePort,
    acc: SigSpec,
    builder: &mut Builder,
) -> Result<SigSpec, PassFault>
    ensures exact { IfOk result (λ value. (value, builder.new) ≡ port_step address port.now acc builder.old) }
    ensures over { result ≡ Err PassFault.Over → PassesLimit (port_step address port.now acc builder.old).1 }
    ensures within { IsInLimits builder.old → OnOk result (IsInLimits builder.new) }
{
    let place = port.address.as_slice();
    if !reaches(address, place.len()) {
        return Ok(acc);
    }
    let matched = address_match(alloc, place, address, builder)?;
    let enable = port.enable.as_slice();
    let runs = run_lengths(alloc, enable)?;
    port_runs(
        matched,
        runs.as_slice(),
        acc.as_slice(),
        port.data.as_slice(),
        enable,
        builder,
    )
}

/// The write ports in the order of their numbers on a word at an address.
fn ports_step(
    alloc: Global,
    address: u64,
    ports: &[WritePort],
    signal: &SigSpec,
    builder: &mut Builder,
) -> Result<SigSpec, PassFault>
    ensures exact { IfOk result (λ value. (value, builder.new) ≡ ports_step address ports.now signal.now builder.old) }
    ensures over { result ≡ Err PassFault.Over → PassesLimit (ports_step address ports.now signal.now builder.old).1 }
    ensures within { IsInLimits builder.old → OnOk result (IsInLimits builder.new) }
{
    let mut acc = signal.copy()?;
    for port in ports {
        acc = port_step(alloc, address, port, acc, builder)?;
    }
    Ok(acc)
}

/// A word at an address: its write chain, and then a `$dff`.
#[tactic(auto, using(crate::proofs::Passing::chain_over))]
fn word_step(
    alloc: Global,
    plan: &MemPlan,
    address: u64,
    signal: &SigSpec,
    builder: &mut Builder,
) -> Result<(), PassFault>
    ensures exact { OnOk result (builder.new ≡ word_step plan.now (word address signal.now) builder.old) }
    ensures over { result ≡ Err PassFault.Over →
        PassesLimit (word_step plan.now (word address signal.now) builder.old) }
    ensures within { IsInLimits builder.old → OnOk result (IsInLimits builder.new) }
{
    let d = ports_step(alloc, address, plan.writes.as_slice(), signal, builder)?;
    register_cell(
        alloc,
        plan.clock,
        plan.rising,
        d.as_slice(),
        signal.as_slice(),
        builder,
    )
}

/// The words with rising address.
pub(crate) fn words_step(
    alloc: Global,
    plan: &MemPlan,
    words: &Words,
    builder: &mut Builder,
) -> Result<(), PassFault>
    ensures exact { OnOk result (builder.new ≡ words_step plan.now (words_of words.now) builder.old) }
    ensures over { result ≡ Err PassFault.Over → PassesLimit (words_step plan.now (words_of words.now) builder.old) }
    ensures within { IsInLimits builder.old → OnOk result (IsInLimits builder.new) }
{
    let mut address = u64::from(words.first);
    for signal in words.signals.as_slice() {
        word_step(alloc, plan, address, signal, builder)?;
        address += 1;
    }
    Ok(())
}
