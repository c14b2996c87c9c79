//! Scripts, read of their texts.

ghost use Rattle.std.specs.Prelude.{◌≡◌, ℕ, Err, IfOk, None, Ok, Some, filter_map};
ghost use Rattle.script_core.specs.Words.{bad_from, is_misplaced, is_separator, script_of, word_at, word_of, words_of};

use crate::script::Script;
use crate::word::Word;
use rtl_bits::{Memory, Seq};
use std::alloc::Global;
use thiserror::Error;

/// Why a text gives no script.
#[derive(Clone, Copy, Debug, PartialEq, Eq, Error)]
pub enum ScriptFault {
    /// The number, from 1, of the first word that is unknown, or that is the first and not `proc`, or that is `flatten`
    /// and not the second, or that is the 65th. It is 1 where there is no word.
    #[error("word {0} of the script is bad")]
    Bad(u32),
    #[error("out of memory")]
    Memory,
}

impl From<Memory> for ScriptFault {
    ghost use Rattle.script_core.specs.declared.parse.ScriptFault.TheVariants as Fault;

    ghost from_gives = { λ _ fault. fault ≡ Fault.Memory };

    fn from(_memory: Memory) -> ScriptFault {
        ScriptFault::Memory
    }
}

/// Whether the byte stands between words.
#[tactic(auto, unfolding(crate::specs::Words::is_separator))]
fn is_separator(byte: u8) -> bool
    ensures value { result ≡ is_separator byte }
{
    matches!(byte, b' ' | b'\t' | b';')
}

/// Whether the word with this number, from 1, is the first and not `proc`, or `flatten` and not the second, or the
/// 65th.
fn is_misplaced(number: u32, spelling: &[u8]) -> bool
    ensures value { result ≡ is_misplaced number spelling.now }
{
    number == 1 && spelling != b"proc".as_slice()
        || number != 2 && spelling == b"flatten".as_slice()
        || number == 65
}

/// The word with this number, from 1, of a script. None where it is bad.
fn word_at(number: u32, spelling: &[u8]) -> Option<Word>
    ensures value { result ≡ word_at number spelling.now }
{
    if is_misplaced(number, spelling) {
        return None;
    }
    Word::of(spelling)
}

/// The words of a text, none of which is bad.
fn read_words(alloc: Global, text: &[u8]) -> Result<Seq<Word>, ScriptFault>
    ensures reads { IfOk result (λ words. words ≡ filter_map word_of (words_of text.now)) }
    ensures good { IfOk result (λ words. bad_from 1 (words_of text.now) ≡ None) }
    ensures first_fault { (n : ℕ) → result ≡ Err (ScriptFault.Bad n) → bad_from 1 (words_of text.now) ≡ Some n }
{
    let mut words = Seq::make(alloc);
    let parts = text.split(|byte| is_separator(*byte));
    for spelling in parts.filter(|part| !part.is_empty()) {
        let number = words.as_slice().len() as u32 + 1;
        let Some(word) = word_at(number, spelling) else {
            return Err(ScriptFault::Bad(number));
        };
        words.push(word)?;
    }
    Ok(words)
}

/// The script of a text, whose words stand between spaces, tabs and semicolons.
#[tactic(auto, using(crate::proofs::ParseLemmas::texts))]
pub fn parse_script(alloc: Global, text: &[u8]) -> Result<Script, ScriptFault>
    ensures reads { IfOk result (λ script. script_of text.now ≡ Ok script) }
    ensures first_fault { (n : ℕ) → result ≡ Err (ScriptFault.Bad n) → script_of text.now ≡ Err n }
{
    let words = read_words(alloc, text)?;
    if words.as_slice().is_empty() {
        return Err(ScriptFault::Bad(1));
    }
    let script = Script::of_words(alloc, words)?;
    Ok(script)
}
