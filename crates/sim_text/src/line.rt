//! The words of a line.

ghost use Rattle.std.specs.Prelude.{◌≡◌, IfOk, map};
ghost use Rattle.std.specs.List.{list_all};
ghost use Rattle.sim_text.specs.Digits.{is_digit};
ghost use Rattle.sim_text.specs.Lines.{are_port_words, are_step_words, is_blank, is_dash, is_port_word, words_of};

use crate::digit::is_digit;
use rtl_bits::Memory;
use std::alloc::Global;

/// The words between the blanks of a line.
pub fn words_of(alloc: Global, line: &[u8]) -> Result<Vec<&[u8]>, Memory>
    ensures value { IfOk result (λ words. map (λ word. word.now) words.items ≡ words_of line.now) }
{
    let parts = line.split(|byte| is_blank(*byte));
    Ok(parts.filter(|part| !part.is_empty()).collect(alloc)?)
}

/// Whether the byte stands between words.
#[tactic(auto, unfolding(crate::specs::Lines::is_blank))]
fn is_blank(byte: u8) -> bool
    ensures value { result ≡ is_blank byte }
{
    matches!(byte, b' ' | b'\t')
}

/// Whether the words are those of a step, for ports of these widths.
pub fn are_step_words(widths: &[u32], words: &[&[u8]]) -> bool
    ensures value { result ≡ are_step_words widths.now (map (λ word. word.now) words.now) }
{
    if widths.is_empty() {
        is_dash(words)
    } else {
        are_port_words(widths, words)
    }
}

/// Whether the only word is `-`.
fn is_dash(words: &[&[u8]]) -> bool
    ensures value { result ≡ is_dash (map (λ word. word.now) words.now) }
{
    match words {
        [word] => *word == b"-".as_slice(),
        _ => false,
    }
}

/// Whether there is a word for each port and no other, each with a digit for each bit.
#[tactic(auto, using(crate::proofs::PortWords::port_words_from))]
fn are_port_words(widths: &[u32], words: &[&[u8]]) -> bool
    ensures value { result ≡ are_port_words widths.now (map (λ word. word.now) words.now) }
{
    if widths.len() != words.len() {
        return false;
    }
    for at in 0..widths.len() {
        if !is_port_word(widths[at], words[at]) {
            return false;
        }
    }
    true
}

/// Whether a word has one digit for each bit of a port.
fn is_port_word(width: u32, word: &[u8]) -> bool
    ensures value { result ≡ is_port_word width word.now }
{
    word.len() == width as usize && are_digits(word)
}

/// Whether each byte is one of the digits.
fn are_digits(word: &[u8]) -> bool
    ensures value { result ≡ list_all is_digit word.now }
{
    word.iter().all(|byte| is_digit(*byte))
}
