//! Keys, as their values are asked for.

ghost use Rattle.std.specs.Prelude.{◌≡◌, ℕ, List, IfOk};
ghost use Rattle.rtl_bits.specs.Counts.{risen};

use result_cache::Keyed;
use rtl_bits::{Memory, Steps, Text};

/// A key whose value is asked for, and how that is built where it is not kept.
pub trait Order {
    type Value: Keyed;

    // The text of the key.
    ghost text_of: { Self → List ℕ };
    // The value of the key may be built.
    ghost is_buildable: { Self → Type 0 };

    // The value is one that is asked for.
    ghost is_answer: { Self → Self.Value → Type 0 };

    /// The text of the key, under which its value is kept: a value that stands for it is one that is asked for.
    fn text(&self) -> Result<Text, Memory>
        requires buildable { is_buildable self.now }
        ensures value { IfOk result (λ text. text ≡ text_of self.now) }
        ensures answers { IfOk result (λ text. (value : Self.Value) → Self.Value.stands_for value text →
            is_answer self.now value) };

    /// Builds the value of the key. Each call, whatever it answers, is one tick.
    fn build<L>(&self, meter: &mut Steps<L>) -> Result<Self::Value, Memory>
        requires buildable { is_buildable self.now }
        ensures stands { IfOk result (λ value. Self.Value.stands_for value (text_of self.now)) }
        ensures one_tick { meter.new ≡ risen meter.old 1 };
}
