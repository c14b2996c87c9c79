//! Laws of the definitions.

ghost use Rattle.std.specs.Prelude.{◌≡◌, List, ℕ, false};
ghost use Rattle.rtl_lex.specs.Items.{Seen, AreItems};
ghost use Rattle.rtl_lex.specs.Place.{start};

/// Each text has items, and no two lists of them.
pub fn one_list_of_items()
    ensures some { (text : List ℕ) → (items : List Seen) × AreItems items text start false }
    ensures same { (text : List ℕ) (items others : List Seen) →
        AreItems items text start false → AreItems others text start false → items ≡ others }
{}
