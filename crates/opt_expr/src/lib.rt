//! The pass `opt_expr`: each cell becomes simpler by the first rule that fits, once.
#![tactic(auto)]

mod formed;
mod inputs;
mod inverters;
mod places;
mod sweep;
mod visit;

ghost use Rattle.std.specs.Prelude.{◌≡◌, true, IfOk};
ghost use Rattle.rtl_ir.specs.Types.{table_ports};
ghost use Rattle.pass_laws.specs.Pass.{IsPass};
ghost use Rattle.pass_laws.specs.Ready.{IsReady};
ghost use Rattle.opt_expr.specs.Sweep.{expr_of};

use crate::sweep::sweep;
pub use inputs::{Followed, followed_cell, followed_signal};
pub use places::{Places, place_of, places_of};
use rtl_bits::{Copied, Memory};
use rtl_ir::{Module, PortTable};
use std::alloc::Global;
pub use sweep::standing;

/// What the pass makes of a module, and whether that is the module itself.
#[derive(Drop)]
pub struct Turn {
    pub after: Module,
    pub is_same: bool,
}

/// The module after one sweep: in order, each cell gets its input bits followed through the connections, and then goes
/// or becomes another one by the first rule that fits, unless it has a nonzero `\keep`. In the Yosys manual, the pass
/// "opt_expr - perform const folding and simple expression rewriting".
pub fn apply(alloc: Global, module: &Module, ports: &PortTable) -> Result<Module, Memory>
    requires ready { IsReady (table_ports ports.now.modules) «module».now }
    ensures exact { IfOk result (λ after. after ≡ expr_of (table_ports ports.now.modules) «module».now) }
    ensures pass { IfOk result (IsPass ports.now «module».now) }
{
    let turn = apply_owned(alloc, module.copy()?, ports)?;
    Ok(turn.after)
}

/// As `apply`, of a module that is given away: when a cell's turn comes, what stays of it moves and the rest is freed,
/// so that the cells before the pass and after it do not stand beside each other.
pub fn apply_owned(alloc: Global, module: Module, ports: &PortTable) -> Result<Turn, Memory>
    requires ready { IsReady (table_ports ports.now.modules) «module» }
    ensures exact { IfOk result (λ turn. turn.after ≡ expr_of (table_ports ports.now.modules) «module») }
    ensures same { IfOk result (λ turn. turn.is_same ≡ true → turn.after ≡ «module») }
    ensures pass { IfOk result (λ turn. IsPass ports.now «module» turn.after) }
{
    let turn = sweep(alloc, module, ports)?;
    Ok(turn)
}
