//! The words of a line.

ghost use Rattle.std.specs.Prelude.{◌≡◌, IfOk, drop, map, take};
ghost use Rattle.std.specs.List.{prefix_len};
ghost use Rattle.desk_read.specs.Words.{is_blank, text_behind, words_of};

use rtl_bits::Memory;
use std::alloc::Global;

/// The first words of a line, five at most: no command has more than four.
pub fn first_words(alloc: Global, line: &[u8]) -> Result<Vec<&[u8]>, Memory>
    ensures value { IfOk result (λ words. map (λ word. word.now) words.items ≡ take 5 (words_of line.now)) }
{
    let parts = line.split(|byte| is_blank(*byte));
    let words = parts.filter(|part| !part.is_empty());
    Ok(words.take(5).collect(alloc)?)
}

/// All that stands behind the first word of a line, where that word has so many bytes.
pub(crate) fn text_behind(count: usize, line: &[u8]) -> &[u8]
    ensures value { result.now ≡ text_behind count line.now }
{
    behind(count, behind(front_blanks(line), line))
}

/// How many blanks stand before the first word of a line.
fn front_blanks(line: &[u8]) -> usize
    ensures value { result ≡ prefix_len is_blank line.now }
{
    let mut count = 0;
    while count < line.len() && is_blank(line[count]) {
        count += 1;
    }
    count
}

/// The bytes without so many at the front.
#[tactic(auto, using(std::proofs::lemmas::List::drop_min))]
fn behind(count: usize, bytes: &[u8]) -> &[u8]
    ensures value { result.now ≡ drop count bytes.now }
{
    &bytes[count.min(bytes.len())..]
}

/// Whether the byte is a space or a tab.
#[tactic(auto, unfolding(crate::specs::Words::is_blank))]
fn is_blank(byte: u8) -> bool
    ensures value { result ≡ is_blank byte }
{
    matches!(byte, b' ' | b'\t')
}
