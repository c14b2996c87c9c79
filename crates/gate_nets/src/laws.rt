//! Laws of nets: what they compute, in each reading of the bits that obeys their gates. Each is the contract
//! of a function that does nothing.

ghost use Rattle.std.specs.Prelude.{◌≡◌, ◌+◌, ◌*◌, ◌^◌, List, length, map};
ghost use Rattle.std.specs.List.{fold};
ghost use Rattle.cell_types.specs.declared.word.BitwiseKind.TheVariants.{And, Or, Xor};
ghost use Rattle.rtl_bits.specs.Knowledge.{AreBelow, AreKnown, Below, IsKnown};
ghost use Rattle.rtl_bits.specs.Numbers.{digit_of, number_of};
ghost use Rattle.rtl_bits.specs.Tables.{and_of, not_of, or_of, xor_of};
ghost use Rattle.rtl_bits.specs.declared.bit.Bit.{Bit};
ghost use Rattle.rtl_bits.specs.declared.bit.Bit.TheVariants.{S0, S1};
ghost use Rattle.rtl_ir.specs.Build.{Building};
ghost use Rattle.rtl_sig.specs.declared.sig.SigBit.{SigBit};
ghost use Rattle.gate_nets.specs.Reading.{Computes, IsReading};
ghost use Rattle.gate_nets.specs.Sum.{sum_of};
ghost use Rattle.gate_nets.specs.Words.{fold_of, inverse_of};

/// A fold has at least what the bits joined by its table have.
pub fn folds_join()
    ensures and { (f : SigBit → Bit) → IsReading f → (bits : List SigBit) (old : Building) →
        Computes f old (fold_of And bits old) (Below (fold and_of S1 (map f bits)) (f (fold_of And bits old).0)) }
    ensures or { (f : SigBit → Bit) → IsReading f → (bits : List SigBit) (old : Building) →
        Computes f old (fold_of Or bits old) (Below (fold or_of S0 (map f bits)) (f (fold_of Or bits old).0)) }
    ensures xor { (f : SigBit → Bit) → IsReading f → (bits : List SigBit) (old : Building) →
        Computes f old (fold_of Xor bits old) (Below (fold xor_of S0 (map f bits)) (f (fold_of Xor bits old).0)) }
{}

/// An inverse has at least the inverse of each bit.
pub fn inverses_invert()
    ensures inverse { (f : SigBit → Bit) → IsReading f → (bits : List SigBit) (old : Building) →
        Computes f old (inverse_of bits old) (AreBelow (map not_of (map f bits)) (map f (inverse_of bits old).0)) }
{}

/// The sum of known words and a known carry, with its last carry on top, is that of their numbers.
pub fn sums_add()
    ensures sum { (f : SigBit → Bit) → IsReading f → (a b : List SigBit) (c : SigBit) (old : Building) →
        length a ≡ length b → AreKnown (map f a) → AreKnown (map f b) → IsKnown (f c) →
        Computes f old (sum_of a b c old)
        (number_of (map f (sum_of a b c old).0.bits) + 2 ^ length a * digit_of (f (sum_of a b c old).0.carry)
        ≡ number_of (map f a) + number_of (map f b) + digit_of (f c)) }
{}
