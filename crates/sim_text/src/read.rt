//! Stimulus lines.

ghost use Rattle.std.specs.Prelude.{◌≡◌, ◌++◌, Err, IfOk, None, OnOk, Some, map};
ghost use Rattle.std.specs.List.{flat_map};
ghost use Rattle.rtl_ir.specs.declared.wire.Role.TheVariants.{Input};
ghost use Rattle.sim_text.specs.Lines.{step_bits, step_of, word_bits};
ghost use Rattle.sim_text.specs.Ports.{port_widths};

use crate::digit::bit_of;
use crate::line::{are_step_words, words_of};
use crate::ports::port_widths;
use crate::step_fault::StepFault;
use rtl_bits::{Bits, Memory};
use rtl_ir::{Module, Role};
use std::alloc::Global;

/// The input bits that a stimulus line says: those of all input ports in order of number, each port's
/// from its bit 0. The line has a word for each input port in that order, with exactly one of the digits
/// `0`, `1`, `x` and `z` for each bit, the most significant first. Blanks and tabs stand between the
/// words, before them and behind them. Where there is no input port the line is `-`.
pub fn read_step(alloc: Global, line: &[u8], module: &Module) -> Result<Bits, StepFault>
    ensures value { IfOk result (λ bits. step_of (port_widths Input «module».now) line.now ≡ Some bits) }
    ensures bad { result ≡ Err StepFault.Bad → step_of (port_widths Input «module».now) line.now ≡ None }
{
    let widths = port_widths(alloc, Role::Input, module)?;
    let words = words_of(alloc, line)?;
    if !are_step_words(widths.as_slice(), words.as_slice()) {
        return Err(StepFault::Bad);
    }
    Ok(step_bits(alloc, widths.as_slice(), words.as_slice())?)
}

/// The bits that the words of a line say.
fn step_bits(alloc: Global, widths: &[u32], words: &[&[u8]]) -> Result<Bits, Memory>
    ensures value { IfOk result (λ bits. bits ≡ step_bits widths.now (map (λ word. word.now) words.now)) }
{
    let mut bits = Bits::make(alloc);
    if !widths.is_empty() {
        push_words(&mut bits, words)?;
    }
    Ok(bits)
}

/// Puts the bits of the words last, one word after another.
fn push_words(bits: &mut Bits, words: &[&[u8]]) -> Result<(), Memory>
    ensures ok { OnOk result (bits.new ≡ bits.old ++ flat_map word_bits (map (λ word. word.now) words.now)) }
{
    for word in words {
        push_word(bits, word)?;
    }
    Ok(())
}

/// Puts the bits of the word last, that of the last digit first.
fn push_word(bits: &mut Bits, word: &[u8]) -> Result<(), Memory>
    ensures ok { OnOk result (bits.new ≡ bits.old ++ word_bits word.now) }
{
    for digit in word.iter().rev() {
        bits.push(bit_of(*digit))?;
    }
    Ok(())
}
