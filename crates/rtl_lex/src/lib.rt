//! The tokens of RTLIL text, each with its place, and the values that they write.
//!
//! `next_token` reads one token. `int_of`, `value_width`, `is_signed`, `bits_of` and `chars_of` say
//! what its text stands for. `next_item` reads a token as a grammar sees it.
#![tactic(auto)]

mod item;
mod laws;
mod number;
mod place;
mod scan;
mod sort;
mod string;
mod token;
mod value;

pub use item::{Item, Next, item_of, next_item};
pub use laws::one_list_of_items;
pub use number::int_of;
pub use place::Place;
pub use sort::{Sort, sort_of};
pub use string::chars_of;
pub use token::{LexFault, Token, TokenKind, next_token};
pub use value::{bits_of, is_signed, value_width};
