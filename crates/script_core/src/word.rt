//! The words of a script.

ghost use Rattle.std.specs.Prelude.{◌≡◌};
ghost use Rattle.script_core.specs.Words.{letter_of, spelling_of, word_of};

use rtl_bits::{Copied, Memory};

/// A word of a script: the name of a pass.
#[derive(Clone, Copy, Debug, PartialEq, Eq)]
pub enum Word {
    Proc,
    OptExpr,
    OptMerge,
    OptClean,
    Opt,
    Fsm,
    Memory,
    Techmap,
    Muxtree,
    Reduce,
    Dff,
    Flatten,
}

impl Copied for Word {
    fn copy(&self) -> Result<Word, Memory> {
        Ok(*self)
    }
}

impl Word {
    /// The word of a spelling.
    pub(crate) fn of(spelling: &[u8]) -> Option<Word>
        ensures value { result ≡ word_of spelling.now }
    {
        if spelling == b"proc".as_slice() {
            Some(Word::Proc)
        } else if spelling == b"opt_expr".as_slice() {
            Some(Word::OptExpr)
        } else if spelling == b"opt_merge".as_slice() {
            Some(Word::OptMerge)
        } else if spelling == b"opt_clean".as_slice() {
            Some(Word::OptClean)
        } else if spelling == b"clean".as_slice() {
            Some(Word::OptClean)
        } else if spelling == b"opt".as_slice() {
            Some(Word::Opt)
        } else if spelling == b"fsm".as_slice() {
            Some(Word::Fsm)
        } else if spelling == b"memory".as_slice() {
            Some(Word::Memory)
        } else if spelling == b"techmap".as_slice() {
            Some(Word::Techmap)
        } else if spelling == b"opt_muxtree".as_slice() {
            Some(Word::Muxtree)
        } else if spelling == b"opt_reduce".as_slice() {
            Some(Word::Reduce)
        } else if spelling == b"opt_dff".as_slice() {
            Some(Word::Dff)
        } else if spelling == b"flatten".as_slice() {
            Some(Word::Flatten)
        } else {
            None
        }
    }

    /// How the word is written in a script. The second spelling of `opt_clean`, `clean`, is not written.
    pub fn spelling(self) -> &'static [u8]
        ensures value { result.now ≡ spelling_of self }
    {
        match self {
            Word::Proc => b"proc",
            Word::OptExpr => b"opt_expr",
            Word::OptMerge => b"opt_merge",
            Word::OptClean => b"opt_clean",
            Word::Opt => b"opt",
            Word::Fsm => b"fsm",
            Word::Memory => b"memory",
            Word::Techmap => b"techmap",
            Word::Muxtree => b"opt_muxtree",
            Word::Reduce => b"opt_reduce",
            Word::Dff => b"opt_dff",
            Word::Flatten => b"flatten",
        }
    }

    /// The letter that stands for the word in the text of a key.
    pub(crate) fn letter(self) -> u8
        ensures value { result ≡ letter_of self }
    {
        match self {
            Word::Proc => b'p',
            Word::OptExpr => b'e',
            Word::OptMerge => b'm',
            Word::OptClean => b'c',
            Word::Opt => b'o',
            Word::Fsm => b'f',
            Word::Memory => b'y',
            Word::Techmap => b't',
            Word::Muxtree => b'x',
            Word::Reduce => b'r',
            Word::Dff => b'd',
            Word::Flatten => b'l',
        }
    }
}
