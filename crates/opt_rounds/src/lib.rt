//! The pass `opt`: `opt_expr`, `opt_merge` and `opt_clean` in turn, until a round changes nothing.
#![tactic(auto)]

pub mod laws;

ghost use Rattle.std.specs.Prelude.{◌≡◌, ◌&&◌, true, IfOk};
ghost use Rattle.rtl_ir.specs.Flat.Tree as flat;
ghost use Rattle.rtl_ir.specs.Types.{table_ports};
ghost use Rattle.net_model.specs.Refine.{IsWellDriven};
ghost use Rattle.pass_laws.specs.Pass.{IsPass};
ghost use Rattle.pass_laws.specs.Ready.{IsReady};
ghost use Rattle.opt_merge.specs.Merge.{merge_of};
ghost use Rattle.opt_clean.specs.Clean.{clean_of};
ghost use Rattle.opt_rounds.specs.Rounds.{opt_of, round_of};

use opt_expr::Turn;
use rtl_bits::Memory;
use rtl_ir::{Module, PortTable};
use std::alloc::Global;

/// The most rounds.
const MAX_ROUNDS: u32 = 32;

/// A module after `opt`.
#[derive(Drop)]
pub struct Settled {
    /// The module.
    pub after: Module,
    /// Whether it is known that one more `opt` changes nothing: the last round changed nothing.
    pub is_settled: bool,
}

/// The module after at most 32 rounds of `opt_expr`, `opt_merge` and `opt_clean`, up to the first that changes nothing.
/// In the Yosys manual, "Optimization passes", the section "The opt pass".
pub fn apply(alloc: Global, module: Module, ports: &PortTable) -> Result<Module, Memory>
    requires ready { IsReady (table_ports ports.now.modules) «module» }
    requires driven { IsWellDriven (flat.table_ports ports.now) «module» }
    ensures exact { IfOk result (λ after. after ≡ opt_of (table_ports ports.now.modules) «module») }
    ensures pass { IfOk result (IsPass ports.now «module») }
{
    let done = settle(alloc, module, ports)?;
    Ok(done.after)
}

/// The module after at most 32 rounds of `opt_expr`, `opt_merge` and `opt_clean`, as `apply` gives it, and whether the last
/// round changed nothing, so that one more `opt` changes nothing. In the Yosys manual, "Optimization passes", the section
/// "The opt pass".
pub fn settle(alloc: Global, module: Module, ports: &PortTable) -> Result<Settled, Memory>
    requires ready { IsReady (table_ports ports.now.modules) «module» }
    requires driven { IsWellDriven (flat.table_ports ports.now) «module» }
    ensures exact { IfOk result (λ done. done.after ≡ opt_of (table_ports ports.now.modules) «module») }
    ensures settled { IfOk result (λ done. done.is_settled ≡ true →
        opt_of (table_ports ports.now.modules) done.after ≡ done.after) }
    ensures pass { IfOk result (λ done. IsPass ports.now «module» done.after) }
{
    rounds(alloc, module, ports)
}

/// Rounds, until one changes nothing.
#[tactic(auto, using(crate::proofs::Rounding::all_left))]
fn rounds(alloc: Global, module: Module, ports: &PortTable) -> Result<Settled, Memory>
    requires ready { IsReady (table_ports ports.now.modules) «module» }
    requires driven { IsWellDriven (flat.table_ports ports.now) «module» }
    ensures exact { IfOk result (λ done. done.after ≡ opt_of (table_ports ports.now.modules) «module») }
    ensures settled { IfOk result (λ done. done.is_settled ≡ true →
        opt_of (table_ports ports.now.modules) done.after ≡ done.after) }
{
    let mut module = module;
    for _round in 0..MAX_ROUNDS {
        let turn = round(alloc, module, ports)?;
        if turn.is_same {
            return Ok(Settled {
                after: turn.after,
                is_settled: true,
            });
        }
        module = turn.after;
    }
    Ok(Settled {
        after: module,
        is_settled: false,
    })
}

/// One round. Each pass takes the module over and frees what goes of it.
fn round(alloc: Global, module: Module, ports: &PortTable) -> Result<Turn, Memory>
    requires ready { IsReady (table_ports ports.now.modules) «module» }
    requires driven { IsWellDriven (flat.table_ports ports.now) «module» }
    ensures exact { IfOk result (λ turn. turn.after ≡ round_of (table_ports ports.now.modules) «module») }
    ensures same { IfOk result (λ turn. turn.is_same ≡ true → turn.after ≡ «module») }
{
    let folded = opt_expr::apply_owned(alloc, module, ports)?;
    let merged = merged(alloc, folded.after, ports)?;
    let cleaned = cleaned(alloc, merged.after, ports)?;
    Ok(Turn {
        after: cleaned.after,
        is_same: are_all(folded.is_same, merged.is_same, cleaned.is_same),
    })
}

/// Whether all three hold.
fn are_all(one: bool, two: bool, three: bool) -> bool
    ensures value { result ≡ (one && two && three) }
{
    one && two && three
}

/// `opt_merge`, which takes cells away wherever it changes something.
fn merged(alloc: Global, module: Module, ports: &PortTable) -> Result<Turn, Memory>
    requires ready { IsReady (table_ports ports.now.modules) «module» }
    requires driven { IsWellDriven (flat.table_ports ports.now) «module» }
    ensures exact { IfOk result (λ turn. turn.after ≡ merge_of «module») }
    ensures ready { IfOk result (λ turn. IsReady (table_ports ports.now.modules) turn.after) }
    ensures same { IfOk result (λ turn. turn.is_same ≡ true → turn.after ≡ «module») }
{
    let count = module.cells.as_slice().len();
    let after = opt_merge::apply_owned(alloc, module, ports)?;
    let is_same = after.cells.as_slice().len() == count;
    Ok(Turn { after, is_same })
}

/// `opt_clean`.
fn cleaned(alloc: Global, module: Module, ports: &PortTable) -> Result<Turn, Memory>
    requires ready { IsReady (table_ports ports.now.modules) «module» }
    ensures exact { IfOk result (λ turn. turn.after ≡ clean_of (table_ports ports.now.modules) «module») }
    ensures same { IfOk result (λ turn. turn.is_same ≡ true → turn.after ≡ «module») }
{
    let cleaned = opt_clean::apply_owned(alloc, module, ports)?;
    Ok(Turn {
        after: cleaned.after,
        is_same: cleaned.is_same,
    })
}
