//! What a name is looked up by.

ghost use Rattle.std.specs.Prelude.{◌≡◌, [], ◌∷◌};
ghost use Rattle.std.proofs.Common.{ap};
ghost use Rattle.std.specs.Cmp.{on_equiv, on_per, partial_equiv_from_equiv};
ghost use Rattle.std.specs.Cmp.Lexicographic.{bytes_decides, nat_list_eq_equiv};
ghost use Rattle.std.specs.Str.{bytes_eq};

use indexmap::Equivalent;
use rtl_bits::Text;
use std::hash::{Hash, Hasher};

/// A name that is looked for among texts, so that none has to be made of it.
#[derive(Clone, Copy)]
pub(crate) struct Sought<'a> {
    pub(crate) name: &'a [u8],
}

impl<'a> PartialEq for Sought<'a> {
    ghost eq = { λ x y. bytes_eq x.name.now y.name.now };

    ghost laws = { on_per (λ x. x.name.now) (partial_equiv_from_equiv nat_list_eq_equiv) };

    fn eq(&self, other: &Sought<'a>) -> bool {
        self.name == other.name
    }
}

impl<'a> Eq for Sought<'a> {
    ghost laws = { on_equiv (λ x. x.name.now) nat_list_eq_equiv };
}

impl<'a> Hash for Sought<'a> {
    ghost hash_input = { λ sought. sought.name.now ∷ [] };

    ghost respects_eq = { λ x y same. ap (λ name. name ∷ []) ((bytes_decides x.name.now y.name.now).0 same) };

    fn hash<H: Hasher>(&self, state: &mut H) {
        state.write(self.name);
    }
}

impl<'a> Equivalent<Text> for Sought<'a> {
    ghost equivalent = { λ sought text. bytes_eq sought.name.now text };

    ghost respects_hash = { λ sought text same. ap (λ name. name ∷ []) ((bytes_decides sought.name.now text).0 same) };

    ghost respects_eq = { λ sought x y. nat_list_eq_equiv.congr sought.name.now x y };

    fn equivalent(&self, text: &Text) -> bool {
        self.name == text.as_slice()
    }
}
