//! The rules by which the cases of a switch are read.

ghost use Rattle.std.specs.Prelude.{◌≡◌, IfOk, OnOk};
ghost use Rattle.std.specs.List.{list_any};
ghost use Rattle.rtl_ir.specs.SwitchRules as rules;
ghost use Rattle.process_trees.specs.Reading.{constants_after, constants_with, left_with, reading_of};

use net_index::{always_matches, is_dropped, match_every_value};
use rtl_bits::{Copied, Memory, Seq};
use rtl_ir::is_all_constant;
use rtl_sig::{SigBit, SigSpec};
use std::alloc::Global;

/// How a case is read.
#[derive(Drop)]
pub(crate) enum Reading {
    /// It never acts.
    Dropped,
    /// It acts where one of these patterns matches.
    Kept(Seq<SigSpec>),
    /// It acts wherever it is reached, and no case behind it does.
    Last,
}

/// How the case with these patterns is read behind cases with these patterns of constants, to which its own are added.
pub(crate) fn read_case(
    alloc: Global,
    signal: &[SigBit],
    earlier: &mut Vec<SigSpec>,
    patterns: &[SigSpec],
) -> Result<Reading, Memory>
    ensures value { IfOk result (λ reading. reading ≡ reading_of signal.now earlier.old.items patterns.now) }
    ensures earlier { OnOk result (earlier.new.items ≡ constants_after signal.now earlier.old.items patterns.now) }
{
    let left = patterns_left(alloc, signal, earlier, patterns)?;
    if patterns.is_empty() {
        return Ok(Reading::Last);
    }
    if left.is_empty() {
        return Ok(Reading::Dropped);
    }
    if takes_the_rest(alloc, signal, left.as_slice(), earlier.as_slice())? {
        return Ok(Reading::Last);
    }
    Ok(Reading::Kept(Seq::from_vec(left)))
}

/// What is left of these patterns behind those of constants, to which their own are added.
fn patterns_left(
    alloc: Global,
    signal: &[SigBit],
    earlier: &mut Vec<SigSpec>,
    patterns: &[SigSpec],
) -> Result<Vec<SigSpec>, Memory>
    ensures value { IfOk result (λ left. left.items ≡ rules.patterns_left signal.now earlier.old.items patterns.now) }
    ensures earlier { OnOk result (earlier.new.items ≡ constants_after signal.now earlier.old.items patterns.now) }
{
    let mut left = Vec::new(alloc);
    for pattern in patterns {
        keep_pattern(signal, earlier, &mut left, pattern)?;
    }
    Ok(left)
}

/// Puts the pattern last, where it is not dropped, and among those of constants, where it is one.
fn keep_pattern(
    signal: &[SigBit],
    earlier: &mut Vec<SigSpec>,
    left: &mut Vec<SigSpec>,
    pattern: &SigSpec,
) -> Result<(), Memory>
    ensures left { OnOk result (left.new.items ≡ left_with signal.now earlier.old.items pattern.now left.old.items) }
    ensures earlier { OnOk result (earlier.new.items ≡ constants_with signal.now earlier.old.items pattern.now) }
{
    let bits = pattern.as_slice();
    if is_dropped(signal, earlier.as_slice(), bits) {
        return Ok(());
    }
    if is_all_constant(bits) {
        earlier.push(pattern.copy()?)?;
    }
    left.push(pattern.copy()?)?;
    Ok(())
}

/// Whether the case takes whatever reaches it: one of its patterns always matches, or no value is left by the
/// patterns of constants up to it.
fn takes_the_rest(
    alloc: Global,
    signal: &[SigBit],
    patterns: &[SigSpec],
    constants: &[SigSpec],
) -> Result<bool, Memory>
    ensures value { IfOk result (λ takes. takes ≡ rules.takes_the_rest signal.now patterns.now constants.now) }
{
    if one_always_matches(signal, patterns) {
        return Ok(true);
    }
    match_every_value(alloc, signal, constants)
}

/// Whether one of the patterns always matches.
fn one_always_matches(signal: &[SigBit], patterns: &[SigSpec]) -> bool
    ensures value { result ≡ list_any (rules.always_matches signal.now) patterns.now }
{
    patterns
        .iter()
        .any(|pattern| always_matches(signal, pattern.as_slice()))
}
