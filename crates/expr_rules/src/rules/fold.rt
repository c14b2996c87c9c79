//! The rule for folds of one bit, and for `$pmux` of one.

ghost use Rattle.std.specs.Prelude.{◌≡◌, IfOk};
ghost use Rattle.expr_rules.specs.Rules.Fold.{folded_bit, one_bit};

use crate::change::{Change, chooser, inverter};
use crate::operands::Operands;
use cell_types::{FoldKind, Shape, WordKind};
use rtl_bits::{Copied, Memory};
use std::alloc::Global;

/// A fold of one bit is that bit; `$logic_not` and `$reduce_xnor` are its inverse, which is made where Y has one bit.
fn folded_bit(
    alloc: Global,
    kind: FoldKind,
    shape: &Shape,
    o: &Operands,
) -> Result<Option<Change>, Memory>
    ensures value { IfOk result (λ change. change ≡ folded_bit kind shape.now.kind shape.now o.now) }
{
    if o.a.as_slice().len() != 1 {
        return Ok(None);
    }
    match kind {
        FoldKind::Xnor | FoldKind::LogicNot => {
            if shape.widths.y == 1 {
                Ok(Some(inverter(alloc, shape.kind, o.a.copy()?)))
            } else {
                Ok(None)
            }
        }
        _ => Ok(Some(Change::Gives(o.a.copy()?))),
    }
}

/// A fold of one bit; `$pmux` of one part, which becomes `$mux`.
pub(crate) fn one_bit(
    alloc: Global,
    kind: WordKind,
    shape: &Shape,
    o: &Operands,
) -> Result<Option<Change>, Memory>
    ensures value { IfOk result (λ change. change ≡ one_bit kind shape.now.kind shape.now o.now) }
{
    match kind {
        WordKind::Fold(kind) => folded_bit(alloc, kind, shape, o),
        WordKind::Pmux if o.s.as_slice().len() == 1 => {
            Ok(Some(chooser(shape.kind, o.a.copy()?, o.b.copy()?, o.s.copy()?)))
        }
        _ => Ok(None),
    }
}
