//! Replacements, one after another.

ghost use Rattle.std.specs.Prelude.{◌≡◌, ◌<◌, Err, IfOk, List, None, OnOk, Some, false, suc, true, ℕ};
ghost use Rattle.std.specs.Bool.{OnFalse, OnTrue};
ghost use Rattle.rtl_ir.specs.declared.module.Module.{Module};
ghost use Rattle.flat_pass.specs.Children.{AreChildren};
ghost use Rattle.flat_pass.specs.Flat.{child_of, flat_after, is_within, replaced};
ghost use Rattle.flat_pass.specs.Grown.{IsSound, built};

use crate::children::Children;
use crate::grown::Grown;
use net_index::PassFault;
use rtl_ir::Cell;

/// The most replacements.
const MAX_TURNS: u32 = 1_048_576;

/// Each instance is replaced, until none is left.
pub(crate) fn replace_all(grown: &mut Grown, children: &Children) -> Result<(), PassFault>
    requires sound { IsSound grown.old }
    ensures exact { (below : List Module) → AreChildren children.now below →
        OnOk result (flat_after 1048576 below (built grown.old) ≡ Some (built grown.new).body) }
    ensures over { (below : List Module) → AreChildren children.now below → result ≡ Err PassFault.Over →
        flat_after 1048576 below (built grown.old) ≡ None }
{
    for _turn in 0..MAX_TURNS {
        if replace_first(grown, children)? {
            return Ok(());
        }
    }
    has_none(grown)
}

/// The first instance is replaced. Answers whether there was none.
fn replace_first(grown: &mut Grown, children: &Children) -> Result<bool, PassFault>
    requires sound { IsSound grown.old }
    ensures none { IfOk result (λ none. OnTrue none ((n : ℕ) (below : List Module) →
        flat_after n below (built grown.old) ≡ Some (built grown.new).body)) }
    ensures one { IfOk result (λ none. OnFalse none ((n : ℕ) (below : List Module) → AreChildren children.now below →
        flat_after (suc n) below (built grown.old) ≡ flat_after n below (built grown.new))) }
    ensures over { (n : ℕ) (below : List Module) → AreChildren children.now below → result ≡ Err PassFault.Over →
        flat_after (suc n) below (built grown.old) ≡ None }
    ensures sound { OnOk result (IsSound grown.new) }
{
    match grown.take_first()? {
        Some(instance) => {
            replace_one(grown, children, &instance)?;
            Ok(false)
        }
        None => Ok(true),
    }
}

/// Nothing where there is no instance, else `Over`.
fn has_none(grown: &mut Grown) -> Result<(), PassFault>
    requires sound { IsSound grown.old }
    ensures exact { (below : List Module) →
        OnOk result (flat_after 0 below (built grown.old) ≡ Some (built grown.new).body) }
    ensures over { (below : List Module) → result ≡ Err PassFault.Over → flat_after 0 below (built grown.old) ≡ None }
{
    match grown.take_first()? {
        Some(_instance) => Err(PassFault::Over),
        None => Ok(()),
    }
}

/// An instance, whose cell is taken out, is replaced, where the module is within the limits after that.
fn replace_one(grown: &mut Grown, children: &Children, instance: &Cell) -> Result<(), PassFault>
    requires sound { IsSound grown.old }
    ensures exact { (below : List Module) → AreChildren children.now below →
        OnOk result (built grown.new ≡
        replaced (child_of below instance.now.kind_name) instance.now (built grown.old)) }
    ensures over { (below : List Module) → AreChildren children.now below → result ≡ Err PassFault.Over →
        is_within (replaced (child_of below instance.now.kind_name) instance.now (built grown.old)) ≡ false }
    ensures within { OnOk result (is_within (built grown.new) ≡ true) }
    ensures sound { OnOk result (IsSound grown.new) }
{
    put_child(grown, children, instance)?;
    grown.check_limits()
}

/// An instance, whose cell is taken out, is replaced by the module that it is of. No module of a design without faults
/// is missing; one that is counts as one in which there is nothing.
fn put_child(grown: &mut Grown, children: &Children, instance: &Cell) -> Result<(), PassFault>
    requires sound { IsSound grown.old }
    ensures exact { (below : List Module) → AreChildren children.now below →
        OnOk result (built grown.new ≡
        replaced (child_of below instance.now.kind_name) instance.now (built grown.old)) }
    ensures over { (below : List Module) → AreChildren children.now below → result ≡ Err PassFault.Over →
        1000000000 < (replaced (child_of below instance.now.kind_name) instance.now (built grown.old)).next }
    ensures sound { OnOk result (IsSound grown.new) }
{
    match children.find(instance.kind_name.as_slice()) {
        Some(child) => grown.replace(child, instance),
        None => Ok(()),
    }
}
