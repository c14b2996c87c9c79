//! Tokens as the grammar sees them.

use rtl_bits::Memory;
use rtl_lex::{Item, Place, next_item};
use std::alloc::{AllocError, Global};

fn show(shown: &mut String, item: &Item<'_>) -> Result<(), AllocError> {
    let sort = item.sort;
    match item.number {
        Some(number) => write!(shown, " {sort:?}={number}"),
        None => write!(shown, " {sort:?}"),
    }
}

/// The sorts of a text's items, up to the one behind which no other stands.
fn sorts_of(alloc: Global, text: &[u8]) -> Result<String, AllocError> {
    let mut shown = String::new(alloc);
    let mut place = Place::start();
    let mut line = false;
    for _ in 0..=2 * text.len() + 1 {
        let next = next_item(text, place, line);
        show(&mut shown, &next.item)?;
        let Some((behind, ended)) = next.rest else {
            break;
        };
        place = behind;
        line = ended;
    }
    Ok(shown)
}

/// Whether a text has items of these sorts.
pub fn has_items(alloc: Global, fields: &[&[u8]]) -> Result<bool, Memory> {
    let [text, sorts] = fields else {
        return Ok(false);
    };
    let found = sorts_of(alloc, text)?;
    Ok(found.as_str().trim_start().as_bytes() == *sorts)
}
