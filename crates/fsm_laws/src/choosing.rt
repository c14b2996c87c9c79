//! Choosing keeps what a code says of the state. Each law is the contract of a function that does nothing.

ghost use Rattle.std.specs.Prelude.{ℕ};
ghost use Rattle.rtl_bits.specs.declared.bit.Bit.{Bit};
ghost use Rattle.rtl_bits.specs.Knowledge.{Below};
ghost use Rattle.rtl_bits.specs.Tables.{mux_of};
ghost use Rattle.fsm_laws.specs.Codes.{OneHot, apart};

/// What a choice differs from, the same choice says, of what its operands differ from; and where the codes of both
/// operands have one bit that is 1 where all others are 0, so has the choice.
pub fn choices_keep_codes()
    ensures apart { (a b s e : Bit) → Below (apart (mux_of a b s) e) (mux_of (apart a e) (apart b e) s) }
    ensures hot { (count : ℕ) (u v : ℕ → Bit) (s : Bit) → OneHot count u → OneHot count v →
        OneHot count (λ i. mux_of (u i) (v i) s) }
{}
