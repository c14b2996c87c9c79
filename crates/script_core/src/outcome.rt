//! What a script makes of a module.

use crate::word::Word;
use rtl_bits::{Copied, Memory};
use rtl_ir::Module;

/// What a script makes of a module.
#[derive(Drop)]
pub enum Outcome {
    /// The module after all words.
    Done(Module),
    /// The first word whose result would pass the limit on cells, bits of wires or fresh names.
    Over(Word),
}

impl Copied for Outcome {
    fn copy(&self) -> Result<Outcome, Memory> {
        match self {
            Outcome::Done(module) => Ok(Outcome::Done(module.copy()?)),
            Outcome::Over(word) => Ok(Outcome::Over(*word)),
        }
    }
}
