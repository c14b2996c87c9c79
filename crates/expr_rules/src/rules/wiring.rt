//! Rules for cells that only pass bits on.

ghost use Rattle.std.specs.Prelude.{◌≡◌, IfOk};
ghost use Rattle.expr_rules.specs.Rules.Wiring.{buffer, wiring};

use crate::change::Change;
use crate::operands::Operands;
use crate::signals::{joined, part};
use cell_types::{Shape, UnaryKind, WordKind};
use rtl_bits::{Copied, Memory};
use std::alloc::Global;

/// `$pos`, `$buf`, `$_BUF_`: gives the extended A; of `$buf` that is A itself.
pub(crate) fn buffer(kind: WordKind, o: &Operands) -> Result<Option<Change>, Memory>
    ensures value { IfOk result (λ change. change ≡ buffer kind o.now) }
{
    match kind {
        WordKind::Unary(UnaryKind::Pos) => Ok(Some(Change::Gives(o.left.copy()?))),
        WordKind::Buf => Ok(Some(Change::Gives(o.a.copy()?))),
        _ => Ok(None),
    }
}

/// `$slice`, `$concat`: gives its bits.
pub(crate) fn wiring(
    alloc: Global,
    kind: WordKind,
    shape: &Shape,
    o: &Operands,
) -> Result<Option<Change>, Memory>
    ensures value { IfOk result (λ change. change ≡ wiring kind shape.now o.now) }
{
    match kind {
        WordKind::Slice => {
            let part = part(alloc, o.a.as_slice(), shape.offset as usize, shape.widths.y)?;
            Ok(Some(Change::Gives(part)))
        }
        WordKind::Concat => Ok(Some(Change::Gives(joined(&o.a, &o.b)?))),
        _ => Ok(None),
    }
}
