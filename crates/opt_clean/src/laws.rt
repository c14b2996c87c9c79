//! The law of the cells that are kept, as the contract of a function that does nothing.

ghost use Rattle.std.specs.Prelude.{List};
ghost use Rattle.rtl_ir.specs.Types.{Ports};
ghost use Rattle.net_model.specs.Lists.{In};
ghost use Rattle.opt_clean.specs.Kept.{kept_marks, marked};
ghost use Rattle.opt_clean.specs.Least.{IsKept};

use rtl_ir::{Cell, Link, Wire};

/// The cells that are kept are the least set that has each cell that is kept for itself, and each one of which a
/// connection or a kept cell reads an output bit: they are those for which there is a reason.
pub fn kept_cells_are_least()
    ensures reason { (ports : Ports) (wires : List Wire) (links : List Link) (cells : List Cell) (c : Cell) →
        In c (marked (kept_marks ports wires links cells) cells) → IsKept ports wires links cells c }
    ensures kept { (ports : Ports) (wires : List Wire) (links : List Link) (cells : List Cell) (c : Cell) →
        IsKept ports wires links cells c → In c (marked (kept_marks ports wires links cells) cells) }
{}
