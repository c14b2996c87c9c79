//! Whether no fork is below itself.

ghost use Rattle.std.specs.Prelude.{◌≡◌, ◌<◌, ℕ, true, false, IfOk, MatchBool, OnOk, length, slice_set};
ghost use Rattle.std.specs.List.{list_all};
ghost use Rattle.net_model.specs.Lists.{In};
ghost use Rattle.fsm_find.specs.declared.reach.Node.{Node};
ghost use Rattle.fsm_find.specs.Order.{AreShallow, IsShallow, IsStuck, is_done};

use crate::reach::Node;
use rtl_bits::Memory;
use std::alloc::Global;

/// Whether no fork is below itself, of the forks of a module with so many cells. Sweeps from the last node to the
/// first mark the forks whose forks below are all marked; one sweep is enough where no fork has two above it.
pub(crate) fn is_acyclic(alloc: Global, nodes: &[Node], count: usize) -> Result<bool, Memory>
    ensures value { IfOk result (λ ok. MatchBool ok ((node : Node) → In node nodes.now →
        IsShallow nodes.now count node.fork)
        ((node : Node) × In node nodes.now × ((n : ℕ) → IsShallow nodes.now n node.fork → ⊥))) }
{
    let mut done = vec![in alloc; false; count]?;
    for _round in 0..u64::MAX {
        if are_all_done(nodes, done.as_slice()) {
            return Ok(true);
        }
        if !sweep(nodes, &mut done)? {
            return Ok(false);
        }
    }
    Err(Memory)
}

/// Whether the fork is marked.
fn is_done(done: &[bool], fork: usize) -> bool
    ensures value { result ≡ is_done done.now fork }
{
    if fork < done.len() { done[fork] } else { false }
}

/// Whether the forks are all marked.
fn are_done(done: &[bool], forks: &[usize]) -> bool
    ensures value { result ≡ list_all (is_done done.now) forks.now }
{
    for fork in forks {
        if !is_done(done, *fork) {
            return false;
        }
    }
    true
}

/// Whether the forks of the nodes are all marked.
fn are_all_done(nodes: &[Node], done: &[bool]) -> bool
    ensures value { result ≡ list_all (λ (node : Node). is_done done.now node.fork) nodes.now }
{
    for node in nodes {
        if !is_done(done, node.fork) {
            return false;
        }
    }
    true
}

/// Marks the forks whose forks below are all marked, the last node first, and says whether there was one.
fn sweep(nodes: &[Node], done: &mut Vec<bool>) -> Result<bool, Memory>
    ensures count { OnOk result (length done.new.items ≡ length done.old.items) }
    ensures shallow { OnOk result (AreShallow nodes.now done.old.items → AreShallow nodes.now done.new.items) }
    ensures same { IfOk result (λ moved. moved ≡ false → done.new.items ≡ done.old.items) }
    ensures stuck { IfOk result (λ moved. moved ≡ false → (node : Node) → In node nodes.now →
        IsStuck done.new.items node) }
{
    let mut moved = false;
    for at in (0..nodes.len()).rev() {
        let here = settle(&nodes[at], done)?;
        moved = moved || here;
    }
    Ok(moved)
}

/// Marks the fork of the node if it is not marked and the forks below it are, and says whether it did. A fork past
/// the cells is taken for want of memory.
fn settle(node: &Node, done: &mut Vec<bool>) -> Result<bool, Memory>
    ensures moved { IfOk result (λ moved. MatchBool moved
        ((done.new.items ≡ slice_set done.old.items node.now.fork true) × (node.now.fork < length done.old.items)
        × (is_done done.old.items node.now.fork ≡ false)
        × (list_all (is_done done.old.items) node.now.below.items ≡ true))
        ((done.new.items ≡ done.old.items) × IsStuck done.old.items node.now)) }
{
    if is_done(done.as_slice(), node.fork) || !are_done(done.as_slice(), node.below.as_slice()) {
        return Ok(false);
    }
    if node.fork >= done.len() {
        return Err(Memory);
    }
    done[node.fork] = true;
    Ok(true)
}
