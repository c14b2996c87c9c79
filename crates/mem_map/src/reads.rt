//! The read trees of a memory.

ghost use Rattle.std.specs.Prelude.{◌≡◌, ◌≤◌, ◌+◌, ◌^◌, Err, IfOk, MatchOption, OnOk, length};
ghost use Rattle.net_index.specs.Builder.{IsInLimits, PassesLimit};
ghost use Rattle.net_model.specs.Mem.Expand.{halves, or_unknown, read_step, read_tree, reads_step, word_at};
ghost use Rattle.mem_map.specs.Words.{has_word, words_of};

use crate::reach::reaches;
use crate::runs::{cut, low_bit};
use crate::words::Words;
use match_cells::mux_cell;
use net_index::{Builder, PassFault};
use rtl_bits::{Bit, Copied, Memory};
use rtl_ir::ReadPort;
use rtl_sig::{SigBit, SigSpec};
use std::alloc::Global;

/// Whether a word stands at one of the 2^`bits` addresses from the base on.
#[tactic(auto, using(crate::proofs::Reaching::word_there, crate::proofs::Reaching::words_end))]
fn has_word(words: &Words, bits: usize, base: u64) -> bool
    ensures value { result ≡ has_word words.now bits base }
{
    let first = u64::from(words.first);
    if base >= words.behind() {
        return false;
    }
    base >= first || reaches(first - base, bits)
}

/// Two halves of a read tree: a `$mux` of them, or the one that holds a word.
fn halves(
    alloc: Global,
    select: SigBit,
    low: Option<SigSpec>,
    high: Option<SigSpec>,
    builder: &mut Builder,
) -> Result<Option<SigSpec>, PassFault>
    ensures exact { IfOk result (λ value. (value, builder.new) ≡ halves select low high builder.old) }
    ensures over { result ≡ Err PassFault.Over → PassesLimit (halves select low high builder.old).1 }
    ensures within { IsInLimits builder.old → OnOk result (IsInLimits builder.new) }
{
    match (low, high) {
        (Some(a), Some(b)) => {
            let mux = mux_cell(alloc, a.as_slice(), b.as_slice(), select, builder)?;
            Ok(Some(mux))
        }
        (Some(a), None) => Ok(Some(a)),
        (None, other) => Ok(other),
    }
}

/// The word at an address.
fn word_at(words: &Words, address: u64) -> Result<Option<SigSpec>, Memory>
    ensures value { IfOk result (λ word. word ≡ word_at (words_of words.now) address) }
{
    match words.at(address) {
        Some(signal) => Ok(Some(signal.copy()?)),
        None => Ok(None),
    }
}

/// The read tree over so many low bits of an address, from a base on. Where no word is, nothing is looked at.
#[cycle(tree)]
fn read_tree(
    alloc: Global,
    words: &Words,
    address: &[SigBit],
    bits: usize,
    base: u64,
    builder: &mut Builder,
) -> Result<Option<SigSpec>, PassFault>
    ensures exact { IfOk result (λ value. (value, builder.new) ≡
        read_tree (words_of words.now) address.now bits base builder.old) }
    ensures over { result ≡ Err PassFault.Over →
        PassesLimit (read_tree (words_of words.now) address.now bits base builder.old).1 }
    ensures within { IsInLimits builder.old → OnOk result (IsInLimits builder.new) }
{
    if !has_word(words, bits, base) {
        return Ok(None);
    }
    if bits == 0 {
        return Ok(word_at(words, base)?);
    }
    let low = read_tree(alloc, words, address, bits - 1, base, builder)?;
    let high = high_half(alloc, words, address, bits - 1, base, builder)?;
    let select = low_bit(cut(address, bits - 1).1);
    halves(alloc, select, low, high, builder)
}

/// The address 2^`bits` behind the base, where words go on that far.
#[tactic(auto, using(crate::proofs::Reaching::far_above, crate::proofs::Reaching::past_above))]
fn above(words: &Words, bits: usize, base: u64) -> Option<u64>
    ensures value { MatchOption result (words.now.first + length words.now.signals ≤ base + 2 ^ bits) (λ above. above ≡
        base + 2 ^ bits) }
{
    let behind = words.behind();
    if bits >= 64 {
        return None;
    }
    match base.checked_add(1 << bits) {
        Some(above) => { if above < behind { Some(above) } else { None } }
        None => None,
    }
}

/// The read tree behind 2^`bits` addresses from the base on.
#[cycle(tree)]
fn high_half(
    alloc: Global,
    words: &Words,
    address: &[SigBit],
    bits: usize,
    base: u64,
    builder: &mut Builder,
) -> Result<Option<SigSpec>, PassFault>
    ensures exact { IfOk result (λ value. (value, builder.new) ≡
        read_tree (words_of words.now) address.now bits (base + 2 ^ bits) builder.old) }
    ensures over { result ≡ Err PassFault.Over →
        PassesLimit (read_tree (words_of words.now) address.now bits (base + 2 ^ bits) builder.old).1 }
    ensures within { IsInLimits builder.old → OnOk result (IsInLimits builder.new) }
{
    match above(words, bits, base) {
        Some(above) => read_tree(alloc, words, address, bits, above, builder),
        None => Ok(None),
    }
}

/// What is read, of this width: unknown constants where no word is.
fn or_unknown(alloc: Global, width: usize, value: Option<SigSpec>) -> Result<SigSpec, Memory>
    ensures value { IfOk result (λ signal. signal ≡ or_unknown width value) }
{
    match value {
        Some(signal) => Ok(signal),
        None => SigSpec::from_vec(vec![in alloc; SigBit::Fixed(Bit::X); width]?),
    }
}

/// The data of a read port are connected to its read tree.
#[tactic(auto, using(crate::proofs::Passing::tree_over))]
fn read_step(
    alloc: Global,
    words: &Words,
    port: &ReadPort,
    builder: &mut Builder,
) -> Result<(), PassFault>
    ensures exact { OnOk result (builder.new ≡ read_step (words_of words.now) port.now builder.old) }
    ensures over { result ≡ Err PassFault.Over → PassesLimit (read_step (words_of words.now) port.now builder.old) }
    ensures within { IsInLimits builder.old → OnOk result (IsInLimits builder.new) }
{
    let address = port.address.as_slice();
    let tree = read_tree(alloc, words, address, address.len(), 0, builder)?;
    let value = or_unknown(alloc, port.data.as_slice().len(), tree)?;
    builder.connect(&port.data, &value)?;
    Ok(())
}

/// The read ports in the order of their cells.
pub(crate) fn reads_step(
    alloc: Global,
    words: &Words,
    ports: &[ReadPort],
    builder: &mut Builder,
) -> Result<(), PassFault>
    ensures exact { OnOk result (builder.new ≡ reads_step (words_of words.now) ports.now builder.old) }
    ensures over { result ≡ Err PassFault.Over → PassesLimit (reads_step (words_of words.now) ports.now builder.old) }
    ensures within { IsInLimits builder.old → OnOk result (IsInLimits builder.new) }
{
    for port in ports {
        read_step(alloc, words, port, builder)?;
    }
    Ok(())
}
