//! Which pins a cell drives.

ghost use Rattle.std.specs.Prelude.{◌≡◌};
ghost use Rattle.rtl_ir.specs.Outputs.{drives_pin, is_output, output_pin};
ghost use Rattle.rtl_ir.specs.Types as rtl;
ghost use Rattle.net_index.specs.Types.{IsType};

use crate::types::CellType;
use rtl_ir::{is_output, output_pin};

/// Whether a cell of this type drives its pin of this name. A port of both directions drives nothing.
pub fn drives_pin(cell_type: &CellType, name: &[u8]) -> bool
    ensures value { (type : rtl.CellType) → IsType cell_type.now type → result ≡ drives_pin type name.now }
{
    match cell_type {
        CellType::Library(kind) => match output_pin(*kind) {
            Some(pin) => name == pin.text(),
            None => false,
        },
        CellType::Instance(ports) => match ports.get(name) {
            Some(port) => is_output(port.role),
            None => false,
        },
        CellType::Unsupported | CellType::Unknown => false,
    }
}
