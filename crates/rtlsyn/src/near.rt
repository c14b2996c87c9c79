//! Words of a script that are near to one that is unknown.

use rtl_bits::Memory;
use script_core::Word;
use std::alloc::Global;
use std::str::from_utf8;
use strsim::levenshtein;

/// The words that a script may have.
static WORDS: [Word; 12] = [
    Word::Proc,
    Word::Flatten,
    Word::Opt,
    Word::Fsm,
    Word::Memory,
    Word::Techmap,
    Word::OptExpr,
    Word::OptMerge,
    Word::OptClean,
    Word::Muxtree,
    Word::Reduce,
    Word::Dff,
];

/// How many edits lead from the one to the other, where both are texts.
fn edits(alloc: Global, word: &[u8], other: &[u8]) -> Result<usize, Memory> {
    match (from_utf8(word), from_utf8(other)) {
        (Ok(word), Ok(other)) => Ok(levenshtein(alloc, word, other)?),
        _ => Ok(usize::MAX),
    }
}

/// The word of a script that fewest edits lead to: at most 3, and at most one for two characters.
pub(crate) fn near_word(alloc: Global, word: &[u8]) -> Result<Option<&'static [u8]>, Memory> {
    let mut best = (word.len() / 2 + 1).min(4);
    let mut near = None;
    for known in &WORDS {
        let spelling = known.spelling();
        let count = edits(alloc, word, spelling)?;
        if count < best {
            best = count;
            near = Some(spelling);
        }
    }
    Ok(near)
}
