//! Names with the first places at which they stand.

ghost use Rattle.std.specs.Prelude.{◌≡◌, ℕ, List, IfOk, map};
ghost use Rattle.flat_pass.specs.ByName.{ArePlaces, place_from};

use rtl_bits::Memory;
use std::alloc::Global;
use std::collections::HashMap;

/// Names, each with the first of the places at which it stands.
#[derive(Drop)]
pub(crate) struct ByName<'a> {
    places: HashMap<&'a [u8], usize>,
}

impl<'a> ByName<'a> {
    /// The names of a list.
    pub(crate) fn of(alloc: Global, names: &[&'a [u8]]) -> Result<ByName<'a>, Memory>
        ensures value { IfOk result (λ table. ArePlaces table (map (λ n. n.now) names.now)) }
    {
        let mut places = HashMap::new(alloc);
        for at in (0..names.len()).rev() {
            places.insert(names[at], at)?;
        }
        Ok(ByName { places })
    }

    /// The first place of a name. It takes no memory.
    pub(crate) fn find(&self, name: &[u8]) -> Option<usize>
        ensures value { (names : List (List ℕ)) → ArePlaces self.now names → result ≡ place_from 0 names name.now }
    {
        self.places.get(name).copied()
    }
}
