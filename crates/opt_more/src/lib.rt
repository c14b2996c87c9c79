//! Further passes on folds, multiplexers and registers: `reduce`, `muxtree` and `dff`.
#![tactic(auto)]

mod changed;
mod ends;
mod folds;
mod gather;
mod kinds;
mod muxes;
mod others;
mod registers;
mod sweep;
mod trees;

ghost use Rattle.std.specs.Prelude.{◌≡◌, IfOk};
ghost use Rattle.rtl_ir.specs.Types.{table_ports};
ghost use Rattle.pass_laws.specs.Pass.{IsPass};
ghost use Rattle.pass_laws.specs.Ready.{IsReady};
ghost use Rattle.opt_more.specs.Dff.{dff_of};
ghost use Rattle.opt_more.specs.Muxtree.{muxtree_of};
ghost use Rattle.opt_more.specs.Reduce.{reduce_of};

use crate::sweep::{Pass, sweep};
use crate::trees::sweep_trees;
use rtl_bits::{Copied, Memory};
use rtl_ir::{Module, PortTable};
use std::alloc::Global;

/// The module after one sweep over its `$reduce_or`, `$reduce_bool` and `$reduce_and` cells: each that has no nonzero
/// `\keep` reads, in place of the lowest output bit of another such cell of its kind, what that cell reads, and each
/// bit once. In the Yosys manual, the pass "opt_reduce - simplify large MUXes and AND/OR gates".
pub fn reduce(alloc: Global, module: &Module, ports: &PortTable) -> Result<Module, Memory>
    requires ready { IsReady (table_ports ports.now.modules) «module».now }
    ensures exact { IfOk result (λ after. after ≡ reduce_of (table_ports ports.now.modules) «module».now) }
    ensures pass { IfOk result (IsPass ports.now «module».now) }
{
    let after = sweep(alloc, Pass::Reduce, module.copy()?, ports)?;
    Ok(after)
}

/// The module after one sweep over its `$mux` and `$_MUX_` cells: in place of the whole output of another one of the
/// same type and width with the same select, an arm of each that has no nonzero `\keep` gets what that one has at the
/// arm, as long as there is one. In the Yosys manual, the pass "opt_muxtree - eliminate dead trees in multiplexer
/// trees".
pub fn muxtree(alloc: Global, module: &Module, ports: &PortTable) -> Result<Module, Memory>
    requires ready { IsReady (table_ports ports.now.modules) «module».now }
    ensures exact { IfOk result (λ after. after ≡ muxtree_of (table_ports ports.now.modules) «module».now) }
    ensures pass { IfOk result (IsPass ports.now «module».now) }
{
    let after = sweep_trees(alloc, module.copy()?, ports)?;
    Ok(after)
}

/// The module after one sweep over its registers that have a clock, an enable and a reset to a value at most: of those
/// without a nonzero `\keep` each that always has one value goes, and one that is always enabled loses its enable. In
/// the Yosys manual, the pass "opt_dff - perform DFF optimizations".
pub fn dff(alloc: Global, module: &Module, ports: &PortTable) -> Result<Module, Memory>
    requires ready { IsReady (table_ports ports.now.modules) «module».now }
    ensures exact { IfOk result (λ after. after ≡ dff_of (table_ports ports.now.modules) «module».now) }
    ensures pass { IfOk result (IsPass ports.now «module».now) }
{
    let after = sweep(alloc, Pass::Dff, module.copy()?, ports)?;
    Ok(after)
}
