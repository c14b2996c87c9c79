//! The numbers of the bits of a module.

ghost use Rattle.std.specs.Prelude.{◌≡◌, ◌+◌, ◌^◌, ◌<◌, IfOk, IfSome};
ghost use Rattle.net_index.specs.Numbering.{bit_count, number_of, widths_of};

use rtl_bits::Memory;
use rtl_ir::Wire;
use rtl_sig::WireBit;
use std::alloc::Global;
use std::marker::Model;

/// A wire: how many bits stand before it, and how many it has.
#[derive(Clone, Copy)]
pub(crate) struct Row {
    pub(crate) start: u32,
    pub(crate) width: u32,
}

/// The bits of the wires of a module in one row: those of each wire behind those of the wires before it.
#[derive(Drop)]
pub struct Numbering {
    rows: Vec<Row>,
    count: u32,
}

impl Model for Numbering {
    ghost use Rattle.std.specs.Prelude.{◌≡◌, ℕ, List, map};
    ghost use Rattle.net_index.specs.Numbering.{bit_count, rows_from};
    ghost use Rattle.net_index.specs.declared.numbering.Row.{Row};

    ghost Value = { List ℕ };

    ghost view = { λ n. map (λ (row : Row). row.width) n.rows.items };

    ghost invariant = { λ n. (n.rows.items ≡ rows_from 0 (map (λ (row : Row). row.width) n.rows.items))
        × (n.count ≡ bit_count (map (λ (row : Row). row.width) n.rows.items)) };
}

impl Numbering {
    /// The numbering of the bits of these wires. More than 2^32 of them are taken for want of memory.
    pub fn of(alloc: Global, wires: &[Wire]) -> Result<Numbering, Memory>
        ensures widths { IfOk result (λ n. n ≡ widths_of wires.now) }
    {
        let mut rows = Vec::with_capacity(alloc, wires.len())?;
        let mut count: u32 = 0;
        for wire in wires {
            let width = wire.width;
            rows.push(Row {
                start: count,
                width,
            })?;
            count = count.checked_add(width).ok_or(Memory)?;
        }
        Ok(Numbering { rows, count })
    }

    /// How many bits there are.
    pub fn count(&self) -> usize
        ensures value { result ≡ bit_count self.now }
        ensures fits { result < 2 ^ 32 }
    {
        self.count as usize
    }

    /// The number of the bit, where a wire has it. It takes no memory.
    pub fn find(&self, bit: WireBit) -> Option<usize>
        ensures value { result ≡ number_of self.now bit }
        ensures within { IfSome result (λ number. number < bit_count self.now) }
        ensures fits { IfSome result (λ number. number < 2 ^ 32) }
    {
        let rows = self.rows.as_slice();
        // The count bounds each number.
        let _count = self.count;
        let wire = bit.wire as usize;
        if wire < rows.len() && bit.at < rows[wire].width {
            Some(rows[wire].start as usize + bit.at as usize)
        } else {
            None
        }
    }
}
