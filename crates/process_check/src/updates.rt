//! The bits that the rules of a process update.

ghost use Rattle.std.specs.Prelude.{◌≡◌, ◌+◌, ◌++◌, min, List, [], ◌∷◌, IfOk, OnOk, if◌then◌else◌};
ghost use Rattle.rtl_sig.specs.declared.sig.WireBit.{WireBit};
ghost use Rattle.rtl_ir.specs.Rules.{updated_bits};
ghost use Rattle.rtl_ir.specs.Signals.{same_bit};
ghost use Rattle.process_check.specs.Updates.{AreAlike, AreCounts, AreGiven, AreRaised, counted, own_bits};

use process_trees::acts;
use rtl_bits::Memory;
use rtl_ir::{SyncRule, left_bits};
use rtl_sig::WireBit;
use std::alloc::Global;
use std::collections::HashMap;

/// How often bits were met, up to twice.
type Counts = HashMap<WireBit, u8>;

/// The bits that the rules update, each as often as it stands in the rule that has it most often, up to twice.
pub fn updated_bits(alloc: Global, rules: &[SyncRule]) -> Result<Vec<WireBit>, Memory>
    ensures value { IfOk result (λ bits. AreAlike bits.items (updated_bits rules.now)) }
{
    let mut given = Vec::new(alloc);
    let mut most = HashMap::new(alloc);
    for rule in rules {
        put_rule(alloc, &mut given, &mut most, rule)?;
    }
    Ok(given)
}

/// Puts last what the rule has more often than it was given so far, where the rule acts.
fn put_rule(
    alloc: Global,
    given: &mut Vec<WireBit>,
    most: &mut Counts,
    rule: &SyncRule,
) -> Result<(), Memory>
    ensures counts { OnOk result (AreCounts most.old given.old.items → AreCounts most.new given.new.items) }
    ensures raised { OnOk result (AreCounts most.old given.old.items →
        AreRaised given.old.items (own_bits rule.now) given.new.items) }
{
    if !acts(rule) {
        return Ok(());
    }
    let own = left_bits(alloc, rule.updates.as_slice())?;
    put_bits(alloc, given, most, own.as_slice())
}

/// Puts last what these bits of a rule have more often than those given so far.
fn put_bits(
    alloc: Global,
    given: &mut Vec<WireBit>,
    most: &mut Counts,
    own: &[WireBit],
) -> Result<(), Memory>
    ensures counts { OnOk result (AreCounts most.old given.old.items → AreCounts most.new given.new.items) }
    ensures raised { OnOk result (AreCounts most.old given.old.items →
        AreRaised given.old.items own.now given.new.items) }
{
    let mut here = HashMap::new(alloc);
    for bit in own {
        put_bit(given, most, &mut here, *bit)?;
    }
    Ok(())
}

/// Puts a bit of a rule last, where it was not met so often before.
fn put_bit(
    given: &mut Vec<WireBit>,
    most: &mut Counts,
    here: &mut Counts,
    bit: WireBit,
) -> Result<(), Memory>
    ensures ok { OnOk result ((before own : List WireBit) → AreGiven given.old.items most.old here.old before own →
        AreGiven given.new.items most.new here.new before (own ++ (bit ∷ []))) }
{
    let count = one_more(here, bit)?;
    if count_of(most, bit) >= count {
        return Ok(());
    }
    set_count(most, bit, count)?;
    given.push(bit)?;
    Ok(())
}

/// Counts the bit once more, up to twice, and answers its count.
fn one_more(counts: &mut Counts, bit: WireBit) -> Result<u8, Memory>
    ensures count { IfOk result (λ count. count ≡ min 2 (counted counts.old bit + 1)) }
    ensures counts { OnOk result ((b : WireBit) → counted counts.new b ≡
        (if same_bit b bit then min 2 (counted counts.old bit + 1) else counted counts.old b)) }
{
    let count = if count_of(counts, bit) == 0 { 1 } else { 2 };
    set_count(counts, bit, count)?;
    Ok(count)
}

/// Says that the bit was counted so often.
fn set_count(counts: &mut Counts, bit: WireBit, count: u8) -> Result<(), Memory>
    ensures counts { OnOk result ((b : WireBit) → counted counts.new b ≡
        (if same_bit b bit then count else counted counts.old b)) }
{
    counts.insert(bit, count)?;
    Ok(())
}

/// How often the bit was counted.
fn count_of(counts: &Counts, bit: WireBit) -> u8
    ensures value { result ≡ counted counts.now bit }
{
    match counts.get(&bit).copied() {
        Some(count) => count,
        None => 0,
    }
}
