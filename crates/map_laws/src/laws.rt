//! Laws of expansions. Each is the contract of a function that does nothing.

ghost use Rattle.std.specs.Prelude.{◌≡◌, ◌<◌, ℕ};
ghost use Rattle.rtl_ir.specs.Build.{made_name, made_number};

/// The fresh name of a number of up to nine digits is the name of that number alone.
pub fn fresh_names_are_new()
    ensures number { (n : ℕ) → 0 < n → n < 1000000000 → made_number (made_name n) ≡ n }
{}
