//! The start words of a memory, by a table over its addresses.

ghost use Rattle.std.specs.Prelude.{◌≡◌, ◌<◌, ◌+◌, ◌*◌, ◌^◌, ℕ, IfOk, OnOk, map, nat_abs, replicate, slice_index_or};
ghost use Rattle.std.specs.List.{range_with_len};
ghost use Rattle.rtl_bits.specs.Tables.{seen_of};
ghost use Rattle.rtl_bits.specs.declared.bit.Bit.{Bit};
ghost use Rattle.rtl_bits.specs.declared.bit.Bit.TheVariants.{X};
ghost use Rattle.cell_types.specs.Given.{number_in};
ghost use Rattle.cell_types.specs.PinName.{pin_text};
ghost use Rattle.cell_types.specs.declared.param_name.ParamName.TheVariants as param;
ghost use Rattle.cell_types.specs.declared.pin_name.PinName.TheVariants as pin;
ghost use Rattle.rtl_ir.specs.Faults.MemoryCells.{first_address};
ghost use Rattle.rtl_ir.specs.Flat.Cell.{cell_kind};
ghost use Rattle.rtl_ir.specs.Flat.Memory.{init_enable};
ghost use Rattle.rtl_ir.specs.Parameters.{given_params, signal_at};
ghost use Rattle.net_model.specs.Mem.Gather.{words_of};
ghost use Rattle.mem_gather.specs.Tables.{after, constant_at, put_start, start_bit, started, table};

use crate::inits::{Init, init_cells};
use cell_types::{CellKind, MemoryKind, ParamName, PinName, kind_of};
use rtl_bits::{Bit, Bits, Memory, Seq, bit_mux, number_of};
use rtl_ir::{Cell, Store, constant_of, constants_of, number_in, pin_signal};
use rtl_sig::SigBit;
use std::alloc::Global;

/// The constant at a place of a signal, past the end x.
fn constant_at(signal: &[SigBit], at: u128) -> Bit
    ensures value { result ≡ constant_at signal.now at }
{
    if at >= signal.len() as u128 {
        return Bit::X;
    }
    constant_of(signal[at as usize])
}

/// The bit at a place, past the end x.
pub(crate) fn bit_at(bits: &[Bit], at: usize) -> Bit
    ensures value { result ≡ slice_index_or bits.now at X }
{
    match bits.get(at) {
        Some(bit) => *bit,
        None => Bit::X,
    }
}

/// The address of the first start word of a cell. The addresses of a checked design are below 2^33, so memory alone can
/// be missing; one of 2^63 or more is answered with `Memory` too.
fn first_address(alloc: Global, cell: &Cell) -> Result<u64, Memory>
    ensures value { IfOk result (λ first. first ≡ first_address cell.now) }
    ensures small { IfOk result (λ first. first < 2 ^ 63) }
{
    let bits = constants_of(alloc, pin_signal(cell.pins.as_slice(), PinName::Addr))?;
    match number_of(bits.as_slice()) {
        Some(first) if first < 1 << 63 => Ok(first),
        _ => Err(Memory),
    }
}

/// How many start words a cell has. In a checked design they fit into a signal, so memory alone can be missing; 2^63 or
/// more are answered with `Memory` too.
fn word_count(alloc: Global, cell: &Cell) -> Result<u64, Memory>
    ensures value { IfOk result (λ count. count ≡ number_in (given_params cell.now.params) param.Words) }
    ensures small { IfOk result (λ count. count < 2 ^ 63) }
{
    match number_in(alloc, cell.params.as_slice(), ParamName::Words)? {
        Some(count) if count < 1 << 63 => Ok(count),
        _ => Err(Memory),
    }
}

/// What a cell says for a bit of a word, whether it sets it.
#[tactic(auto, unfolding(rtl_ir::specs::Flat::Cell::cell_kind))]
fn enable_at(cell: &Cell, at: usize) -> Bit
    ensures value { result ≡ init_enable (cell_kind cell.now) cell.now at }
{
    match kind_of(cell.kind_name.as_slice()) {
        Some(CellKind::Memory(MemoryKind::MeminitV2)) => {
            constant_at(pin_signal(cell.pins.as_slice(), PinName::En), at as u128)
        }
        _ => Bit::S1,
    }
}

/// A bit of the start word of a number of a cell, over what the word was.
fn start_bit(width: u32, cell: &Cell, data: &[SigBit], number: u64, old: &[Bit], at: u32) -> Bit
    requires signal { «data».now ≡ signal_at cell.now.pins (pin_text pin.Data) }
    ensures value { result ≡ start_bit width cell.now number old.now at }
{
    let place = u128::from(number) * u128::from(width) + u128::from(at);
    let old = bit_at(old, at as usize);
    bit_mux(old, constant_at(data, place), enable_at(cell, at as usize))
}

/// The start word of a number of a cell, over what the word was.
fn start_word(
    alloc: Global,
    width: u32,
    cell: &Cell,
    number: u64,
    old: &[Bit],
) -> Result<Bits, Memory>
    ensures value { IfOk result (λ word. word ≡
        map (start_bit width cell.now number old.now) (range_with_len 0 width)) }
{
    let data = pin_signal(cell.pins.as_slice(), PinName::Data);
    let mut word = Bits::make(alloc);
    for at in 0..width {
        word.push(start_bit(width, cell, data, number, old, at))?;
    }
    Ok(word)
}

/// The start word of this number of a cell whose first one stands at this address goes into the words, where its
/// address is one of them.
fn put_word(
    base: u32,
    width: u32,
    words: &mut Vec<Bits>,
    cell: &Cell,
    first: u64,
    number: u64,
) -> Result<(), Memory>
    requires small { first + number < 2 ^ 64 }
    ensures ok { OnOk result (words.new.items ≡ put_start base width cell.now (first + number) number words.old.items) }
{
    let address = first + number;
    let base = u64::from(base);
    if address < base || address - base >= words.len() as u64 {
        return Ok(());
    }
    let at = (address - base) as usize;
    let alloc = *words.allocator();
    let word = start_word(alloc, width, cell, number, words[at].as_slice())?;
    words[at] = word;
    Ok(())
}

/// The start words of a cell go into the words.
fn put_cell(
    alloc: Global,
    base: u32,
    width: u32,
    words: &mut Vec<Bits>,
    cell: &Cell,
) -> Result<(), Memory>
    ensures ok { OnOk result ((size : ℕ) (f : ℕ → ℕ → Bit) → words.old.items ≡ table base size width f →
        words.new.items ≡ table base size width (after width cell.now f)) }
{
    let first = first_address(alloc, cell)?;
    let count = word_count(alloc, cell)?;
    for number in 0..count {
        put_word(base, width, words, cell, first, number)?;
    }
    Ok(())
}

/// So many words of unknown bits.
fn unknown_words(alloc: Global, size: u32, width: u32) -> Result<Vec<Bits>, Memory>
    ensures value { IfOk result (λ words. words.items ≡ replicate size (replicate width X)) }
{
    let mut words = Vec::new(alloc);
    for _ in 0..size {
        words.push(Bits::filled(alloc, Bit::X, width)?)?;
    }
    Ok(words)
}

/// The bits as cells see them.
fn seen_word(alloc: Global, word: &[Bit]) -> Result<Bits, Memory>
    ensures value { IfOk result (λ seen. seen ≡ map seen_of word.now) }
{
    let mut seen = Bits::make(alloc);
    for bit in word {
        seen.push(bit.seen())?;
    }
    Ok(seen)
}

/// The words as cells see them.
fn seen_words(alloc: Global, words: &[Bits]) -> Result<Seq<Bits>, Memory>
    ensures value { IfOk result (λ seen. seen ≡ map (map seen_of) words.now) }
{
    let mut seen = Seq::make(alloc);
    for word in words {
        seen.push(seen_word(alloc, word.as_slice())?)?;
    }
    Ok(seen)
}

/// The address of the first word.
fn offset_of(store: &Store) -> u32
    ensures value { result ≡ nat_abs store.now.offset }
{
    store.offset.unsigned_abs()
}

/// How many words there are.
fn size_of(store: &Store) -> u32
    ensures value { result ≡ nat_abs store.now.size }
{
    store.size.unsigned_abs()
}

/// The words after all cells that give start words.
fn started_words(alloc: Global, store: &Store, inits: &[Init<'_>]) -> Result<Vec<Bits>, Memory>
    ensures value { IfOk result (λ words. words.items ≡
        table (nat_abs store.now.offset) (nat_abs store.now.size) store.now.width (started store.now.width inits.now)) }
{
    let base = offset_of(store);
    let size = size_of(store);
    let mut words = unknown_words(alloc, size, store.width)?;
    for init in inits {
        put_cell(alloc, base, store.width, &mut words, init.cell())?;
    }
    Ok(words)
}

/// The words of a memory before the first step, in order of address. A word that no cell sets is unknown.
pub(crate) fn start_words(alloc: Global, store: &Store, cells: &[Cell]) -> Result<Seq<Bits>, Memory>
    ensures value { IfOk result (λ words. words ≡ words_of store.now cells.now) }
{
    let inits = init_cells(alloc, store.name.as_slice(), cells)?;
    let words = started_words(alloc, store, inits.as_slice())?;
    seen_words(alloc, words.as_slice())
}
