//! Places of modules in texts.

ghost use Rattle.std.specs.Prelude.{◌≡◌, List, false};
ghost use Rattle.rtl_lex.specs.Items.{AreItems, Seen};
ghost use Rattle.rtl_lex.specs.Place.{start};
ghost use Rattle.design_edit.specs.Places.{is_module_word, module_place};

use rtl_lex::{Place, Sort, next_item};

/// Whether an item of this sort is the word `module`.
fn is_module_word(sort: Sort) -> bool
    ensures value { result ≡ is_module_word sort }
{
    matches!(sort, Sort::Module)
}

/// The place of the word `module` with this number, from 0, in a text. Of a text that has not so many it is its begin.
#[tactic(auto, using(crate::proofs::Seeking::seeks_begin, crate::proofs::Seeking::seeks_on, crate::proofs::Seeking::seeks_found, crate::proofs::Seeking::seeks_none))]
pub fn module_place(text: &[u8], number: usize) -> Place
    ensures value { (items : List Seen) → AreItems items text.now start false → result ≡ module_place items number }
{
    let mut left = number;
    let mut from = Place::start();
    let mut line = false;
    loop {
        let next = next_item(text, from, line);
        let found = is_module_word(next.item.sort);
        if found && left == 0 {
            return next.item.place;
        }
        let Some((place, ended)) = next.rest else {
            return Place::start();
        };
        if found {
            left -= 1;
        }
        from = place;
        line = ended;
    }
}
