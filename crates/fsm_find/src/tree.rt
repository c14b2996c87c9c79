//! The tree of a flip-flop.

ghost use Rattle.std.specs.Prelude.{◌≡◌, IfOk, MatchOption, None};
ghost use Rattle.rtl_ir.specs.Types.{Ports};
ghost use Rattle.net_model.specs.Fsm.Find.{tree_of};
ghost use Rattle.fsm_find.specs.Found.{IsTreeFound};
ghost use Rattle.fsm_find.specs.View.{IsView};

use crate::order::is_acyclic;
use crate::reach::{Reach, reached};
use crate::view::View;
use cell_types::PinName;
use fsm_parts::{at_pin, followed};
use rtl_bits::Memory;
use rtl_ir::{Cell, Module};

/// The tree at D of a flip-flop, where there is one.
pub(crate) fn tree(view: &View, module: &Module, flop: &Cell) -> Result<Option<Reach>, Memory>
    ensures value { IfOk result (λ reach. (ports : Ports) → IsView view.now ports «module».now →
        MatchOption reach (tree_of «module».now view.now.state flop.now ≡ None)
        (IsTreeFound «module».now view.now.state flop.now)) }
{
    let root = followed(view.alloc, view.index, at_pin(flop, PinName::D))?;
    match reached(view, module, root.as_slice())? {
        None => Ok(None),
        Some(reach) => {
            if is_acyclic(
                view.alloc,
                reach.nodes.as_slice(),
                module.cells.as_slice().len(),
            )? {
                Ok(Some(reach))
            } else {
                Ok(None)
            }
        }
    }
}
