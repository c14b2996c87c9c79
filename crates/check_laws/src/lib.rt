//! Laws of the check: what a design has that it accepts.
#![tactic(auto)]

mod laws;

pub use laws::{
    accepted_designs_are_well_driven, accepted_texts_have_one_driver, readable_designs_are_sound,
};
