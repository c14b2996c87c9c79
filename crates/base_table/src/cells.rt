//! Rows of cells: their names and their shapes.

mod cell;
mod names;
mod shapes;
mod show;

use rtl_bits::Memory;
use std::alloc::Global;
use table_rows::{LINES, Tally};

/// The files of the tables.
const FILES: [&str; 4] = ["cells/names", "cells/cells", "cells/limits", "cells/shapes"];

/// Whether a row of the file of this name holds.
fn holds(alloc: Global, file: &str, fields: &[&[u8]]) -> Result<bool, Memory> {
    match file {
        "cells/names" => names::is_known(alloc, fields),
        "cells/cells" => shapes::is_in_order(alloc, fields),
        "cells/limits" => shapes::is_answered(alloc, fields),
        "cells/shapes" => show::has_shape(alloc, fields),
        _ => Ok(false),
    }
}

/// Counts all rows; cells are asked as they stand, and once more with each item changed.
pub(crate) fn count(rt: &HostRuntime, tally: &mut Tally) -> Result<(), Memory> {
    for file in FILES {
        tally.file(rt, file, LINES, |alloc, fields| holds(alloc, file, fields))?;
    }
    tally.file(rt, "cells/cells", LINES, shapes::is_answered_changed)
}
