//! The words of a memory, each with the signal that stands for it.

ghost use Rattle.std.specs.Prelude.{◌≡◌, ◌+◌, [], ◌∷◌, Err, IfOk, OnOk, length, option_map};
ghost use Rattle.net_index.specs.Builder.{IsInLimits, PassesLimit};
ghost use Rattle.net_model.specs.Mem.Expand.{fixed_words, word_at, word_wires};
ghost use Rattle.net_model.specs.Proc.Start.{init_attribute};
ghost use Rattle.mem_map.specs.Words.{word_wire, words_of};

use net_index::{Builder, PassFault};
use rtl_bits::{Bits, Copied, Memory, Seq, Text};
use rtl_ir::{Attribute, Value};
use rtl_sig::{SigSpec, fixed};
use std::alloc::Global;

/// The words of a memory, with rising address from the first one on.
#[derive(Drop)]
pub(crate) struct Words {
    /// The address of the first word.
    pub(crate) first: u32,
    /// Of each word the signal that stands for it.
    pub(crate) signals: Seq<SigSpec>,
}

/// Words that are constants.
pub(crate) fn fixed_words(alloc: Global, first: u32, starts: &[Bits]) -> Result<Words, Memory>
    ensures value { IfOk result (λ words. words_of words ≡ fixed_words first starts.now) }
{
    let mut signals = Seq::make(alloc);
    for bits in starts {
        signals.push(fixed(alloc, bits.as_slice())?)?;
    }
    Ok(Words { first, signals })
}

/// Words that are fresh wires with these start values.
pub(crate) fn word_wires(
    alloc: Global,
    first: u32,
    starts: &[Bits],
    builder: &mut Builder,
) -> Result<Words, PassFault>
    ensures exact { IfOk result (λ words. (words_of words, builder.new) ≡ word_wires first starts.now builder.old) }
    ensures over { result ≡ Err PassFault.Over → PassesLimit (word_wires first starts.now builder.old).1 }
    ensures within { IsInLimits builder.old → OnOk result (IsInLimits builder.new) }
{
    let mut signals = Seq::make(alloc);
    for bits in starts {
        signals.push(word_wire(alloc, bits, builder)?)?;
    }
    Ok(Words { first, signals })
}

/// The signal of a fresh wire with these start values.
fn word_wire(alloc: Global, bits: &Bits, builder: &mut Builder) -> Result<SigSpec, PassFault>
    ensures exact { IfOk result (λ signal. (signal, builder.new) ≡ word_wire bits.now builder.old) }
    ensures over { result ≡ Err PassFault.Over → PassesLimit (word_wire bits.now builder.old).1 }
    ensures within { OnOk result (IsInLimits builder.new) }
{
    let attributes = init_attributes(alloc, bits)?;
    builder.fresh_signal(bits.as_slice().len(), attributes)
}

/// The attribute `\init` of these bits alone.
fn init_attributes(alloc: Global, bits: &Bits) -> Result<Seq<Attribute>, Memory>
    ensures value { IfOk result (λ attributes. attributes ≡ init_attribute bits.now ∷ []) }
{
    let mut attributes = Seq::make(alloc);
    attributes.push(Attribute {
        name: Text::from_slice(alloc, b"\\init")?,
        value: Value::Bits(bits.copy()?, false),
    })?;
    Ok(attributes)
}

impl Words {
    /// The first address behind the words.
    pub(crate) fn behind(&self) -> u64
        ensures value { result ≡ self.now.first + length self.now.signals }
    {
        u64::from(self.first) + self.signals.as_slice().len() as u64
    }

    /// The word at an address, where there is one.
    #[tactic(auto, using(crate::proofs::Numbered::word_inside, crate::proofs::Numbered::word_outside))]
    pub(crate) fn at(&self, address: u64) -> Option<&SigSpec>
        ensures value { option_map (λ s. s.now) result ≡ word_at (words_of self.now) address }
    {
        let first = u64::from(self.first);
        let signals = self.signals.as_slice();
        if address < first || address - first >= signals.len() as u64 {
            return None;
        }
        Some(&signals[(address - first) as usize])
    }
}
