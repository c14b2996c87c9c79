//! Modules whose results are asked for.

use crate::kept::Kept;
use crate::keys::Keys;
use build_crew::Order;
use rtl_bits::{Memory, Steps, Text};
use script_core::Key;
use std::alloc::Global;

/// The module at a place, the result of whose key is asked for.
#[derive(Clone, Copy)]
pub struct KeyOrder<'a, 'k> {
    pub alloc: Global,
    pub keys: &'a Keys<'a, 'a>,
    pub key: &'k Key,
    pub at: u32,
}

impl Order for KeyOrder<'_, '_> {
    type Value = Kept;

    ghost use Rattle.std.specs.Prelude.{◌≡◌};
    ghost use Rattle.script_core.specs.Built.{IsValueOf};
    ghost use Rattle.script_core.specs.Keys.{key_text};
    ghost use Rattle.desk_core.specs.Asked.{IsAsked, asked_key};

    ghost text_of = { λ order. key_text (asked_key order) };

    ghost is_buildable = { λ order. IsAsked order };

    ghost is_answer = { λ order built. (built.key ≡ asked_key order) × IsValueOf built.key built.outcome };

    fn text(&self) -> Result<Text, Memory> {
        self.key.text()
    }

    fn build<L>(&self, meter: &mut Steps<L>) -> Result<Kept, Memory> {
        let built = self.keys.build_at(self.alloc, self.at, self.key, meter)?;
        Kept::make(self.alloc, built)
    }
}
