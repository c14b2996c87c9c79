//! The rules by which the cases of a switch are read, as far as they tell which cases act.

ghost use Rattle.std.specs.Prelude.{◌≡◌, ◌≤◌, ◌^◌, IfOk, OnOk};
ghost use Rattle.std.specs.List.{list_any};
ghost use Rattle.rtl_ir.specs.SwitchRules as rules;
ghost use Rattle.net_index.specs.DriverRules.{constants_after, left_after, left_of, pattern_kept, reading_of};

use crate::driver_patterns::{always_matches, is_covered_by, matches_value, never_matches};
use rtl_bits::{Bits, Copied, Memory};
use rtl_ir::is_all_constant;
use rtl_sig::{SigBit, SigSpec};
use std::alloc::Global;

/// How a case is read.
#[derive(Clone, Copy)]
pub(crate) enum Reading {
    /// It never acts.
    Dropped,
    /// It acts where one of its patterns matches.
    Kept,
    /// It acts wherever it is reached, and no case behind it does.
    Last,
}

/// What is left of the patterns of a case: whether there are any, and whether one of them always matches.
#[derive(Clone, Copy)]
pub(crate) struct Left {
    any: bool,
    sure: bool,
}

/// How the case with these patterns is read behind cases with these patterns of constants, to which its own are added.
pub(crate) fn read_case(
    alloc: Global,
    signal: &[SigBit],
    earlier: &mut Vec<SigSpec>,
    patterns: &[SigSpec],
) -> Result<Reading, Memory>
    ensures value { IfOk result (λ reading. reading ≡ reading_of signal.now earlier.old.items patterns.now) }
    ensures earlier { OnOk result (earlier.new.items ≡ constants_after signal.now earlier.old.items patterns.now) }
{
    let left = read_patterns(signal, earlier, patterns)?;
    if patterns.is_empty() {
        return Ok(Reading::Last);
    }
    if !left.any {
        return Ok(Reading::Dropped);
    }
    if left.sure {
        return Ok(Reading::Last);
    }
    if match_every_value(alloc, signal, earlier.as_slice())? {
        return Ok(Reading::Last);
    }
    Ok(Reading::Kept)
}

/// What is left of these patterns behind those of constants, to which their own are added.
fn read_patterns(
    signal: &[SigBit],
    earlier: &mut Vec<SigSpec>,
    patterns: &[SigSpec],
) -> Result<Left, Memory>
    ensures value { IfOk result (λ left. left ≡
        left_of signal.now (rules.patterns_left signal.now earlier.old.items patterns.now)) }
    ensures earlier { OnOk result (earlier.new.items ≡ constants_after signal.now earlier.old.items patterns.now) }
{
    let mut left = Left {
        any: false,
        sure: false,
    };
    for pattern in patterns {
        left = read_pattern(signal, earlier, left, pattern)?;
    }
    Ok(left)
}

/// What is left of the patterns so far and this one behind those of constants, to which its own are added.
fn read_pattern(
    signal: &[SigBit],
    earlier: &mut Vec<SigSpec>,
    left: Left,
    pattern: &SigSpec,
) -> Result<Left, Memory>
    ensures value { IfOk result (λ after. after ≡ left_after signal.now earlier.old.items pattern.now left) }
    ensures earlier { OnOk result (earlier.new.items ≡ pattern_kept signal.now earlier.old.items pattern.now) }
{
    let bits = pattern.as_slice();
    if is_dropped(signal, earlier.as_slice(), bits) {
        return Ok(left);
    }
    if is_all_constant(bits) {
        earlier.push(pattern.copy()?)?;
    }
    Ok(Left {
        any: true,
        sure: left.sure || always_matches(signal, bits),
    })
}

/// Whether the pattern is dropped behind these patterns of constants.
pub fn is_dropped(signal: &[SigBit], earlier: &[SigSpec], pattern: &[SigBit]) -> bool
    ensures value { result ≡ rules.is_dropped signal.now earlier.now pattern.now }
{
    never_matches(pattern, signal) || (is_all_constant(pattern) && is_covered(earlier, pattern))
}

/// Whether one of these patterns matches whatever the pattern does.
fn is_covered(earlier: &[SigSpec], pattern: &[SigBit]) -> bool
    ensures value { result ≡ list_any (rules.is_covered_by pattern.now) earlier.now }
{
    for other in earlier {
        if is_covered_by(pattern, other.as_slice()) {
            return true;
        }
    }
    false
}

/// Whether the signal has at most 8 bits, and each of its values matches one of the patterns of constants.
pub fn match_every_value(
    alloc: Global,
    signal: &[SigBit],
    patterns: &[SigSpec],
) -> Result<bool, Memory>
    ensures value { IfOk result (λ every. every ≡ rules.match_every_value signal.now patterns.now) }
{
    if signal.len() > 8 {
        return Ok(false);
    }
    let width = signal.len() as u32;
    for number in 0..values_of(width) {
        if !match_value(alloc, width, number, patterns)? {
            return Ok(false);
        }
    }
    Ok(true)
}

/// How many values so many bits have.
fn values_of(width: u32) -> u32
    requires narrow { width ≤ 8 }
    ensures value { result ≡ 2 ^ width }
{
    1 << width
}

/// Whether one of the patterns of constants matches the value of the number.
fn match_value(alloc: Global, width: u32, number: u32, patterns: &[SigSpec]) -> Result<bool, Memory>
    ensures value { IfOk result (λ some. some ≡ list_any (rules.matches_number width number) patterns.now) }
{
    let value = Bits::from_number(alloc, number as u128, width)?;
    for pattern in patterns {
        if matches_value(pattern.as_slice(), value.as_slice()) {
            return Ok(true);
        }
    }
    Ok(false)
}
