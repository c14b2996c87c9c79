//! Patterns of cases, place by place.

ghost use Rattle.std.specs.Prelude.{◌≡◌, zip};
ghost use Rattle.std.specs.List.{list_all};
ghost use Rattle.rtl_ir.specs.SwitchRules as rules;

use rtl_bits::Bit;
use rtl_sig::SigBit;

/// Whether each place of the pattern asks no less than that of the earlier one.
pub(crate) fn is_covered_by(pattern: &[SigBit], earlier: &[SigBit]) -> bool
    ensures value { result ≡ rules.is_covered_by pattern.now earlier.now }
{
    for at in 0..earlier.len().min(pattern.len()) {
        if !asks_as_much(earlier[at], pattern[at]) {
            return false;
        }
    }
    true
}

/// Whether the pattern never matches the signal.
pub(crate) fn never_matches(pattern: &[SigBit], signal: &[SigBit]) -> bool
    ensures value { result ≡ rules.never_matches pattern.now signal.now }
{
    for at in 0..pattern.len().min(signal.len()) {
        if is_refused(pattern[at], signal[at]) {
            return true;
        }
    }
    false
}

/// Whether the pattern always matches the signal.
pub fn always_matches(signal: &[SigBit], pattern: &[SigBit]) -> bool
    ensures value { result ≡ rules.always_matches signal.now pattern.now }
{
    for at in 0..pattern.len().min(signal.len()) {
        if !matches_place(pattern[at], signal[at]) {
            return false;
        }
    }
    true
}

/// Whether the pattern of constants matches the value.
pub(crate) fn matches_value(pattern: &[SigBit], value: &[Bit]) -> bool
    ensures value { result ≡ list_all rules.matches_bit (zip pattern.now value.now) }
{
    for at in 0..pattern.len().min(value.len()) {
        if !matches_bit(pattern[at], value[at]) {
            return false;
        }
    }
    true
}

fn is_refused(pattern: SigBit, signal: SigBit) -> bool
    ensures value { result ≡ rules.is_refused (pattern, signal) }
{
    match (pattern, signal) {
        (SigBit::Fixed(pattern), SigBit::Fixed(signal)) => differ(pattern, signal),
        _ => false,
    }
}

fn asks_as_much(earlier: SigBit, pattern: SigBit) -> bool
    ensures value { result ≡ rules.asks_as_much (earlier, pattern) }
{
    match (earlier, pattern) {
        (SigBit::Fixed(earlier), SigBit::Fixed(pattern)) => {
            !earlier.known() || agree(earlier, pattern)
        }
        _ => false,
    }
}

fn matches_place(pattern: SigBit, signal: SigBit) -> bool
    ensures value { result ≡ rules.matches_place (pattern, signal) }
{
    match (pattern, signal) {
        (SigBit::Fixed(pattern), SigBit::Fixed(signal)) => {
            !pattern.known() || agree(pattern, signal)
        }
        (SigBit::Fixed(pattern), SigBit::Wire(_)) => !pattern.known(),
        (SigBit::Wire(_), _) => false,
    }
}

fn matches_bit(pattern: SigBit, bit: Bit) -> bool
    ensures value { result ≡ rules.matches_bit (pattern, bit) }
{
    match pattern {
        SigBit::Fixed(pattern) => !differ(pattern, bit),
        SigBit::Wire(_) => false,
    }
}

fn differ(a: Bit, b: Bit) -> bool
    ensures value { result ≡ rules.differ a b }
{
    matches!((a, b), (Bit::S0, Bit::S1) | (Bit::S1, Bit::S0))
}

fn agree(a: Bit, b: Bit) -> bool
    ensures value { result ≡ rules.agree a b }
{
    matches!((a, b), (Bit::S0, Bit::S0) | (Bit::S1, Bit::S1))
}
