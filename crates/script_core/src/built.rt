//! Results, and the keys for which they stand.

ghost use Rattle.std.specs.Prelude.{◌≡◌, IfOk};
ghost use Rattle.script_core.specs.Built.{IsValueOf};

use crate::key::Key;
use crate::outcome::Outcome;
use rtl_bits::{Copied, Memory};

/// What was built for a key. Its outcome is the value of its key, always: only `build` makes one, and `share`
/// a second one that equals it.
#[derive(Drop)]
pub struct Built {
    key: Key,
    outcome: Outcome,
    ghost stands: { IsValueOf key outcome },
}

impl Built {
    /// An outcome that is the value of the key.
    pub(crate) fn make(key: Key, outcome: Outcome) -> Built
        requires stands { IsValueOf key outcome }
        ensures key { result.key ≡ key }
        ensures outcome { result.outcome ≡ outcome }
    {
        Built { key, outcome }
    }

    /// The key.
    pub fn key(&self) -> &Key
        ensures value { result.now ≡ self.now.key }
    {
        &self.key
    }

    /// The value of the key.
    pub fn outcome(&self) -> &Outcome
        ensures value { result.now ≡ self.now.outcome }
        ensures stands { IsValueOf self.now.key result.now }
    {
        &self.outcome
    }

    /// An equal value.
    pub fn share(&self) -> Result<Built, Memory>
        ensures value { IfOk result (λ shared. shared ≡ self.now) }
    {
        Ok(Built {
            key: self.key.copy()?,
            outcome: self.outcome.copy()?,
        })
    }
}
