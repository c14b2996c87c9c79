//! Laws of the orders of knowledge, of the one-bit functions, and of numbers.

ghost use Rattle.std.specs.Prelude.{◌≡◌, ℕ, pos, neg_ℤ, ◌≤ℤ◌, ◌<ℤ◌, ◌-◌, ◌%◌, ◌^◌, ◌<◌, IsTrue, ◌↔◌, List, length};
ghost use Rattle.rtl_bits.specs.Knowledge.{
  IsKnown,
  is_known,
  AreKnown,
  all_known,
  Below,
  FlatBelow,
  AreBelow,
  AreFlatBelow,
  IsMonotone,
  IsMonotone2,
  IsMonotone3,
};
ghost use Rattle.rtl_bits.specs.Tables.{seen_of, merge_of, not_of, and_of, or_of, xor_of, mux_of, IsPlain};
ghost use Rattle.rtl_bits.specs.Numbers.{number_of, bits_of, integer_of};

use crate::bit::Bit;

/// The order of knowledge is a preorder, and nothing but a known bit itself lies above it.
#[tactic(auto, using(crate::proofs::Orders::preorder))]
pub fn below_is_a_preorder()
    ensures reflexive { (a : Bit) → Below a a }
    ensures transitive { (a b c : Bit) → Below a b → Below b c → Below a c }
    ensures known { (a b : Bit) → IsKnown a → Below a b → b ≡ a }
{}

/// The flat order is an order, and finer than the order of knowledge.
#[tactic(auto, using(crate::proofs::Orders::flat_order))]
pub fn flat_below_is_an_order()
    ensures reflexive { (a : Bit) → FlatBelow a a }
    ensures transitive { (a b c : Bit) → FlatBelow a b → FlatBelow b c → FlatBelow a c }
    ensures antisymmetric { (a b : Bit) → FlatBelow a b → FlatBelow b a → a ≡ b }
    ensures finer { (a b : Bit) → FlatBelow a b → Below a b }
{}

/// The merge is the greatest bit that is below both, in the order of knowledge. In the flat order
/// it is below both; it is not the greatest there, since that of `z` and `z` is `z`.
#[tactic(auto, using(crate::proofs::Orders::merge_bounds))]
pub fn merge_is_greatest_below_both()
    ensures left { (a b : Bit) → Below (merge_of a b) a }
    ensures right { (a b : Bit) → Below (merge_of a b) b }
    ensures greatest { (a b c : Bit) → Below c a → Below c b → Below c (merge_of a b) }
    ensures flat_left { (a b : Bit) → FlatBelow (merge_of a b) a }
    ensures flat_right { (a b : Bit) → FlatBelow (merge_of a b) b }
{}

/// Each function of bits keeps the order of knowledge.
#[tactic(auto, using(crate::proofs::Tables::keep_knowledge))]
pub fn functions_are_monotone()
    ensures seen { IsMonotone Below seen_of }
    ensures merge { IsMonotone2 Below merge_of }
    ensures not { IsMonotone Below not_of }
    ensures and { IsMonotone2 Below and_of }
    ensures or { IsMonotone2 Below or_of }
    ensures xor { IsMonotone2 Below xor_of }
    ensures mux { IsMonotone3 Below mux_of }
{}

/// Each function of bits keeps the flat order.
#[tactic(auto, using(crate::proofs::Tables::keep_flat_order))]
pub fn functions_are_flat_monotone()
    ensures seen { IsMonotone FlatBelow seen_of }
    ensures merge { IsMonotone2 FlatBelow merge_of }
    ensures not { IsMonotone FlatBelow not_of }
    ensures and { IsMonotone2 FlatBelow and_of }
    ensures or { IsMonotone2 FlatBelow or_of }
    ensures xor { IsMonotone2 FlatBelow xor_of }
    ensures mux { IsMonotone3 FlatBelow mux_of }
{}

/// Each function of bits gives 0, 1 or x.
#[tactic(auto, using(crate::proofs::Tables::give_plain_bits))]
pub fn functions_give_plain_bits()
    ensures seen { (a : Bit) → IsPlain (seen_of a) }
    ensures merge { (a b : Bit) → IsPlain (merge_of a b) }
    ensures not { (a : Bit) → IsPlain (not_of a) }
    ensures and { (a b : Bit) → IsPlain (and_of a b) }
    ensures or { (a b : Bit) → IsPlain (or_of a b) }
    ensures xor { (a b : Bit) → IsPlain (xor_of a b) }
    ensures mux { (a b s : Bit) → IsPlain (mux_of a b s) }
{}

/// The order of knowledge on lists is a preorder of lists of one length, and nothing but a list
/// of known bits itself lies above it.
#[tactic(auto, using(crate::proofs::Lists::lists_below_are_a_preorder_laws))]
pub fn lists_below_are_a_preorder()
    ensures reflexive { (a : List Bit) → AreBelow a a }
    ensures transitive { (a b c : List Bit) → AreBelow a b → AreBelow b c → AreBelow a c }
    ensures lengths { (a b : List Bit) → AreBelow a b → length a ≡ length b }
    ensures known { (a b : List Bit) → AreKnown a → AreBelow a b → b ≡ a }
{}

/// The flat order on lists is an order, and finer than the order of knowledge.
#[tactic(auto, using(crate::proofs::Lists::lists_flat_below_are_an_order_laws))]
pub fn lists_flat_below_are_an_order()
    ensures reflexive { (a : List Bit) → AreFlatBelow a a }
    ensures transitive { (a b c : List Bit) → AreFlatBelow a b → AreFlatBelow b c → AreFlatBelow a c }
    ensures antisymmetric { (a b : List Bit) → AreFlatBelow a b → AreFlatBelow b a → a ≡ b }
    ensures finer { (a b : List Bit) → AreFlatBelow a b → AreBelow a b }
{}

/// The tests for known bits answer true exactly where the bits are known.
#[tactic(auto, using(crate::proofs::Lists::is_known_iff, crate::proofs::Lists::all_known_iff))]
pub fn tests_for_known_bits_agree()
    ensures bit { (a : Bit) → IsTrue (is_known a) ↔ IsKnown a }
    ensures list { (a : List Bit) → IsTrue (all_known a) ↔ AreKnown a }
{}

/// Numbers of a width and lists of as many known bits stand for each other.
#[tactic(auto, using(crate::proofs::NumberLemmas::numbers_round_trip_laws))]
pub fn numbers_round_trip()
    ensures number { (n width : ℕ) → number_of (bits_of n width) ≡ n % 2 ^ width }
    ensures bits { (a : List Bit) → AreKnown a → bits_of (number_of a) (length a) ≡ a }
    ensures below { (a : List Bit) → number_of a < 2 ^ length a }
    ensures lengths { (n width : ℕ) → length (bits_of n width) ≡ width }
    ensures known { (n width : ℕ) → AreKnown (bits_of n width) }
{}

/// The integers of a width begin at minus the half of 2 to the width, and end below that half.
#[tactic(auto, using(crate::proofs::NumberLemmas::integer_of_least, crate::proofs::NumberLemmas::integer_of_greatest))]
pub fn integers_are_in_range()
    ensures least { (a : List Bit) → 0 < length a → neg_ℤ (pos (2 ^ (length a - 1))) ≤ℤ integer_of a }
    ensures greatest { (a : List Bit) → 0 < length a → integer_of a <ℤ pos (2 ^ (length a - 1)) }
{}
