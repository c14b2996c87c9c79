//! What the assigns of the cases of a tree give each bit.

ghost use Rattle.std.specs.Prelude.{◌≡◌, ◌+◌, IfOk, OnOk, if◌then◌else◌};
ghost use Rattle.rtl_ir.specs.Follow.{all_joins, joins};
ghost use Rattle.rtl_ir.specs.Signals.{same_bit};
ghost use Rattle.rtl_sig.specs.declared.sig.WireBit.{WireBit};
ghost use Rattle.match_cells.specs.Numbers.{behind_case, behind_switch};
ghost use Rattle.proc_mux.specs.Lines.{is_bit};
ghost use Rattle.proc_mux.specs.Rows.{AreRows, case_row, ends_at, joins_row, row_at, source_at, switch_row};
ghost use Rattle.proc_mux.specs.Rows.{with_placed};

use rtl_bits::{Bit, Memory};
use rtl_ir::{Case, Link, Switch};
use rtl_sig::{SigBit, WireBit};
use std::alloc::Global;
use std::collections::HashMap;

/// What a case gives a bit, by the number of the node of the case.
#[derive(Clone, Copy)]
pub(crate) struct Placed {
    pub(crate) node: usize,
    pub(crate) source: SigBit,
}

/// For each bit what the cases give it that assign it, in the order of their nodes.
pub(crate) type Rows = HashMap<WireBit, Vec<Placed>>;

/// What the cases of the tree give each bit. The tree is node 0.
pub(crate) fn rows_of(alloc: Global, root: &Case) -> Result<Rows, Memory>
    ensures rows { IfOk result (λ rows. AreRows rows root.now) }
{
    let mut rows = HashMap::new(alloc);
    put_case(alloc, &mut rows, 0, root)?;
    Ok(rows)
}

/// Puts in what the case and those below it give. The answer is the first node behind the case.
#[cycle(rows)]
fn put_case(alloc: Global, rows: &mut Rows, node: usize, case: &Case) -> Result<usize, Memory>
    ensures rows { OnOk result ((b : WireBit) → row_at rows.new b ≡ case_row node b case.now (row_at rows.old b)) }
    ensures behind { IfOk result (λ behind. behind ≡ behind_case node case.now.switches) }
{
    put_assigns(alloc, rows, node, case.assigns.as_slice())?;
    let mut next = next_node(node)?;
    for switch in &case.switches {
        next = put_switch(alloc, rows, next, switch)?;
    }
    Ok(next)
}

/// Puts in what the cases below the switch give. The answer is the first node behind the switch.
#[cycle(rows)]
fn put_switch(alloc: Global, rows: &mut Rows, node: usize, switch: &Switch) -> Result<usize, Memory>
    ensures rows { OnOk result ((b : WireBit) → row_at rows.new b ≡ switch_row node b switch.now (row_at rows.old b)) }
    ensures behind { IfOk result (λ behind. behind ≡ behind_switch node switch.now.cases) }
{
    let mut next = next_node(node)?;
    for case in &switch.cases {
        next = put_case(alloc, rows, next, case)?;
    }
    Ok(next)
}

/// The node behind a node. More than 2^64 of them are taken for want of memory.
fn next_node(node: usize) -> Result<usize, Memory>
    ensures value { IfOk result (λ next. next ≡ node + 1) }
{
    node.checked_add(1).ok_or(Memory)
}

/// Puts in what the assigns of the case at this node give.
fn put_assigns(alloc: Global, rows: &mut Rows, node: usize, assigns: &[Link]) -> Result<(), Memory>
    ensures rows { OnOk result ((b : WireBit) → row_at rows.new b ≡
        joins_row node b (all_joins assigns.now) (row_at rows.old b)) }
{
    for line in assigns {
        put_line(
            alloc,
            rows,
            node,
            line.left.as_slice(),
            line.right.as_slice(),
        )?;
    }
    Ok(())
}

/// Puts in what an assign with these sides gives.
fn put_line(
    alloc: Global,
    rows: &mut Rows,
    node: usize,
    left: &[SigBit],
    right: &[SigBit],
) -> Result<(), Memory>
    ensures rows { OnOk result ((b : WireBit) → row_at rows.new b ≡
        joins_row node b (joins left.now right.now) (row_at rows.old b)) }
{
    for at in 0..left.len().min(right.len()) {
        put_place(alloc, rows, node, left[at], right[at])?;
    }
    Ok(())
}

/// Puts in what a place of an assign gives.
fn put_place(
    alloc: Global,
    rows: &mut Rows,
    node: usize,
    left: SigBit,
    source: SigBit,
) -> Result<(), Memory>
    ensures rows { OnOk result ((b : WireBit) → row_at rows.new b ≡
        (if is_bit left b then with_placed node source (row_at rows.old b) else row_at rows.old b)) }
{
    match left {
        SigBit::Fixed(_) => Ok(()),
        SigBit::Wire(bit) => put_bit(alloc, rows, node, bit, source),
    }
}

/// Puts in that the case at this node gives the bit this source.
fn put_bit(
    alloc: Global,
    rows: &mut Rows,
    node: usize,
    bit: WireBit,
    source: SigBit,
) -> Result<(), Memory>
    ensures rows { OnOk result ((b : WireBit) → row_at rows.new b ≡
        (if same_bit bit b then with_placed node source (row_at rows.old b) else row_at rows.old b)) }
{
    let mut row = match rows.remove(&bit) {
        Some(row) => row,
        None => Vec::new(alloc),
    };
    put_placed(&mut row, node, source)?;
    rows.insert(bit, row)?;
    Ok(())
}

/// Puts last in a row that the case at this node gives this source, in the place of what the case gave before.
fn put_placed(row: &mut Vec<Placed>, node: usize, source: SigBit) -> Result<(), Memory>
    ensures row { OnOk result (row.new.items ≡ with_placed node source row.old.items) }
{
    if ends_at(row.as_slice(), node) {
        row.pop();
    }
    row.push(Placed { node, source })?;
    Ok(())
}

/// Whether the last in the row is what the case at this node gives.
fn ends_at(row: &[Placed], node: usize) -> bool
    ensures value { result ≡ ends_at node row.now }
{
    match row.last() {
        Some(last) => last.node == node,
        None => false,
    }
}

/// What the cases give the bit.
pub(crate) fn row_of(rows: &Rows, bit: WireBit) -> &[Placed]
    ensures value { result.now ≡ row_at rows.now bit }
{
    match rows.get(&bit) {
        Some(row) => row.as_slice(),
        None => &[],
    }
}

/// The source at a place of the row.
pub(crate) fn source_at(row: &[Placed], at: usize) -> SigBit
    ensures value { result ≡ source_at row.now at }
{
    if at < row.len() {
        row[at].source
    } else {
        SigBit::Fixed(Bit::X)
    }
}
