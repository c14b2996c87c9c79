//! The other cells, by the bits that their outputs begin with.

ghost use Rattle.std.specs.Prelude.{◌≡◌, List, Some, option_map};
ghost use Rattle.rtl_ir.specs.declared.cell.Cell.{Cell};
ghost use Rattle.opt_expr.specs.Places.{ArePlaces, other_at};
ghost use Rattle.opt_more.specs.Muxtree.{now_at, standing_now};
ghost use Rattle.opt_more.specs.Others.{other_of};

use opt_expr::Places;
use rtl_ir::Cell;
use rtl_sig::WireBit;
use std::collections::VecDeque;

/// The cells but one, as they stand at its turn: those that are done before it, and the rest. The places are those of
/// the module's cells by the bits that their outputs begin with.
#[derive(Clone, Copy)]
pub(crate) struct Others<'a> {
    pub(crate) places: &'a Places,
    pub(crate) done: &'a [Option<Cell>],
    pub(crate) rest: &'a VecDeque<Cell>,
}

/// The cells as they stand at the turn of one of them: the others, and the one.
#[derive(Clone, Copy)]
pub(crate) struct Turn<'a> {
    pub(crate) others: &'a Others<'a>,
    pub(crate) cell: &'a Cell,
}

/// The combinational cell whose output begins with the bit, as it stands now, unless it is the one between those that
/// are done and the rest.
pub(crate) fn other_of<'a>(
    places: &Places,
    done: &'a [Option<Cell>],
    rest: &'a VecDeque<Cell>,
    bit: WireBit,
) -> Option<&'a Cell>
    ensures value { (cells : List Cell) → ArePlaces places.now cells →
        option_map (λ cell. cell.now) result ≡ other_of cells done.now rest.now.items bit }
{
    let place = places.get(&bit).copied()?;
    other_at(place, done, rest)
}

/// The cell at the place, unless it is the one between or has gone.
fn other_at<'a>(
    place: usize,
    done: &'a [Option<Cell>],
    rest: &'a VecDeque<Cell>,
) -> Option<&'a Cell>
    ensures value { option_map (λ cell. cell.now) result ≡ other_at done.now rest.now.items (Some place) }
{
    let count = done.len();
    if place < count {
        done[place].as_ref()
    } else if place > count
        && let Some(cell) = rest.get(place - count - 1)
    {
        Some(cell)
    } else {
        None
    }
}

/// The cell at the place, which may be the one between those that are done and the rest, unless it has gone.
pub(crate) fn now_at<'a>(
    place: usize,
    done: &'a [Option<Cell>],
    cell: &'a Cell,
    rest: &'a VecDeque<Cell>,
) -> Option<&'a Cell>
    ensures value { option_map (λ cell. cell.now) result ≡
        now_at (standing_now done.now cell.now rest.now.items) (Some place) }
{
    let count = done.len();
    if place < count {
        done[place].as_ref()
    } else if place == count {
        Some(cell)
    } else if let Some(cell) = rest.get(place - count - 1) {
        Some(cell)
    } else {
        None
    }
}
