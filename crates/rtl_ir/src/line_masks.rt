//! The masks of the lines of processes that write a memory, as masks of write ports.

ghost use Rattle.std.specs.Prelude.{
  ◌≡◌,
  ◌<◌,
  ◌==◌,
  ◌∷◌,
  ◌||◌,
  [],
  ℕ,
  false,
  IfOk,
  if◌then◌else◌,
  length,
  slice_index_or,
};
ghost use Rattle.rtl_ir.specs.Flat.Access.{line_follows, line_mask};

use rtl_bits::{Bit, Bits, Memory, Seq, is_one};
use std::alloc::Global;

/// The mask of a line as that of a port of this number: a bit for each number before it, at least one bit.
pub fn line_mask(
    alloc: Global,
    number: u32,
    before: &[Option<u32>],
    mask: &[Bit],
) -> Result<Bits, Memory>
    ensures value { IfOk result (λ bits. bits ≡ line_mask number before.now mask.now) }
{
    let count = number.max(1) as usize;
    let marks = followed(alloc, count, before, mask)?;
    let mut bits = Vec::with_capacity(alloc, count)?;
    for port in 0..count {
        bits.push(mask_bit(marks[port]))?;
    }
    Ok(Seq::from_vec(bits))
}

/// Which of the first `count` ports a line may follow: of the earlier lines of its rule those that are ports, where the
/// bit of the mask is set.
fn followed(
    alloc: Global,
    count: usize,
    before: &[Option<u32>],
    mask: &[Bit],
) -> Result<Vec<bool>, Memory>
    ensures length { IfOk result (λ marks. length marks.items ≡ count) }
    ensures value { IfOk result (λ marks. (k : ℕ) → k < count →
        slice_index_or marks.items k false ≡ line_follows k before.now mask.now) }
{
    let mut marks = vec![in alloc; false; count]?;
    for at in 0..before.len().min(mask.len()) {
        put_mark(&mut marks, before[at], mask[at]);
    }
    Ok(marks)
}

/// Marks the port that an earlier line is, where it is one of the ports and the bit of the mask is set.
fn put_mark(marks: &mut Vec<bool>, port: Option<u32>, bit: Bit)
    ensures marks { (k : ℕ) → k < length marks.old.items → slice_index_or marks.new.items k false ≡
        (line_follows k (port ∷ []) (bit ∷ []) || slice_index_or marks.old.items k false) }
    ensures length { length marks.new.items ≡ length marks.old.items }
{
    if let Some(number) = port {
        if is_one(bit) {
            mark(marks, number);
        }
    }
}

/// Marks the number, where it is one of the numbers.
fn mark(marks: &mut Vec<bool>, number: u32)
    ensures marks { (k : ℕ) → k < length marks.old.items →
        slice_index_or marks.new.items k false ≡ ((number == k) || slice_index_or marks.old.items k false) }
    ensures length { length marks.new.items ≡ length marks.old.items }
{
    if let Some(mark) = marks.get_mut(number as usize) {
        *mark = true;
    }
}

/// The bit of a mark.
fn mask_bit(mark: bool) -> Bit
    ensures value { result ≡ (if mark then Bit.S1 else Bit.S0) }
{
    if mark { Bit::S1 } else { Bit::S0 }
}
