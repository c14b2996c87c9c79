//! Trace lines.

ghost use Rattle.std.specs.Prelude.{◌≡◌, ◌∷◌, ◌++◌, IfOk, OnOk, length};
ghost use Rattle.std.specs.List.{flat_map, sum};
ghost use Rattle.rtl_ir.specs.declared.wire.Role.TheVariants.{Output};
ghost use Rattle.sim_text.specs.Lines.{port_words, step_line, word_of};
ghost use Rattle.sim_text.specs.Ports.{port_widths};

use crate::digit::digit_of;
use crate::ports::port_widths;
use rtl_bits::{Bit, Bits, Memory, Text};
use rtl_ir::{Module, Role};
use std::alloc::Global;

/// The trace line of these output bits, which are those of all output ports in order of number, each
/// port's from its bit 0. The line has a word for each output port in that order, with the digit of each
/// bit, the most significant first, and one blank between two words; `m` and `-` are written as `x`. It
/// is `-` where there is no output port.
pub fn write_step(alloc: Global, values: &Bits, module: &Module) -> Result<Text, Memory>
    requires length { length values.now ≡ sum (port_widths Output «module».now) }
    ensures value { IfOk result (λ text. text ≡ step_line (port_widths Output «module».now) values.now) }
{
    let widths = port_widths(alloc, Role::Output, module)?;
    let mut out = Text::make(alloc);
    put_line(&mut out, widths.as_slice(), values.as_slice())?;
    Ok(out)
}

/// Writes the line of the bits of ports of these widths.
fn put_line(out: &mut Text, widths: &[u32], bits: &[Bit]) -> Result<(), Memory>
    requires length { length bits.now ≡ sum widths.now }
    ensures ok { OnOk result (out.new ≡ out.old ++ step_line widths.now bits.now) }
{
    match widths.split_first() {
        None => out.push(b'-'),
        Some((first, others)) => {
            let (word, rest) = bits.split_at(*first as usize);
            put_word(out, word)?;
            put_words(out, others, rest)
        }
    }
}

/// Writes the words of the bits of ports of these widths, each behind a blank.
fn put_words(out: &mut Text, widths: &[u32], bits: &[Bit]) -> Result<(), Memory>
    requires length { length bits.now ≡ sum widths.now }
    ensures ok { OnOk result (out.new ≡ out.old ++ flat_map (λ word. 32 ∷ word) (port_words widths.now bits.now)) }
{
    let mut rest = bits;
    for width in widths {
        let (word, others) = rest.split_at(*width as usize);
        out.push(b' ')?;
        put_word(out, word)?;
        rest = others;
    }
    Ok(())
}

/// Writes the word of the bits of a port.
fn put_word(out: &mut Text, bits: &[Bit]) -> Result<(), Memory>
    ensures ok { OnOk result (out.new ≡ out.old ++ word_of bits.now) }
{
    for bit in bits.iter().rev() {
        out.push(digit_of(*bit))?;
    }
    Ok(())
}
