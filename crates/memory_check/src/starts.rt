//! The start words of memories.

ghost use Rattle.std.specs.Prelude.{◌≡◌, ℕ};
ghost use Rattle.cell_types.specs.declared.memory.MemoryKind.{MemoryKind};
ghost use Rattle.cell_types.specs.Shape.{small};
ghost use Rattle.rtl_ir.specs.Faults.MemoryCells as cells;
ghost use Rattle.memory_check.specs.Shapes.{HasShape};
ghost use Rattle.memory_check.specs.Starts.{are_inside, IsNumber};

use cell_types::{PinName, Shape};
use rtl_bits::Bit;
use rtl_ir::{Cell, Store, constant_of, is_all_constant, pin_signal};
use rtl_sig::SigBit;

/// A number that is past the addresses of every memory.
const PAST: u64 = 1 << 33;

/// Whether the start words of a cell of this shape are constants, and stand at addresses of the memory.
pub(crate) fn are_words(store: &Store, cell: &Cell, shape: &Shape) -> bool
    ensures value { (kind : MemoryKind) → HasShape shape.now kind cell.now →
        result ≡ cells.are_words store.now cell.now }
{
    let pins = cell.pins.as_slice();
    is_all_constant(pin_signal(pins, PinName::Data))
        && are_inside(store, pin_signal(pins, PinName::Addr), shape.port.words)
}

/// Whether so many words from this address on stand in the memory, where the count may be cut off at the greatest
/// `u32`. Of no words nothing is asked.
fn are_inside(store: &Store, address: &[SigBit], count: u32) -> bool
    ensures value { (words : ℕ) → count ≡ small words → result ≡ are_inside store.now address.now words }
{
    if count == 0 {
        return true;
    }
    match constant_number(address) {
        Some(first) => {
            let base = u64::from(store.offset.unsigned_abs());
            let end = base + u64::from(store.size.unsigned_abs());
            base <= first && first + u64::from(count) <= end
        }
        None => false,
    }
}

/// The number of a signal of known constants. A number that is past all addresses may be given as another one.
fn constant_number(signal: &[SigBit]) -> Option<u64>
    ensures value { IsNumber signal.now result }
{
    let mut number = 0;
    for at in (0..signal.len()).rev() {
        let digit = match constant_of(signal[at]) {
            Bit::S0 => 0,
            Bit::S1 => 1,
            _ => return None,
        };
        number = PAST.min(2 * number + digit);
    }
    Some(number)
}

/// Whether constants tell which bits of the start words of a cell of this shape are set.
pub(crate) fn are_enables(cell: &Cell, shape: &Shape) -> bool
    ensures value { (kind : MemoryKind) → HasShape shape.now kind cell.now → result ≡ cells.are_enables cell.now }
{
    is_all_constant(pin_signal(cell.pins.as_slice(), PinName::En)) || shape.port.words == 0
}
