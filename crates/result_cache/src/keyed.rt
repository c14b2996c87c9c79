//! Values that stand for keys.

ghost use Rattle.std.specs.Prelude.{◌≡◌, ℕ, List, IfOk};

use rtl_bits::Memory;
use std::marker::Send;

/// A value that stands for keys, and of which there can be an equal one.
pub trait Keyed: Send + Drop {
    // This value stands for this key.
    ghost stands_for: { Self → List ℕ → Type 0 };

    /// An equal value, which so stands for the same keys.
    fn share(&self) -> Result<Self, Memory>
        ensures value { IfOk result (λ value. value ≡ self.now) };
}
