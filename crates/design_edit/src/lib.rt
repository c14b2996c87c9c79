//! Edits of designs: modules that are taken away, or that take the places of those of their names.
#![tactic(auto)]

mod changes;
mod modules;
mod place;
mod placement;
mod table;
mod taken;

pub use changes::{Change, put_modules, take_back};
pub use modules::place_named;
pub use place::module_place;
pub use placement::{PlaceFault, edited_count};
pub use table::{Places, places_of};
pub use taken::{Taken, put_back, take_module};
