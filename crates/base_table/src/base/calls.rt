//! Calls that no row of words can make, each by a name.

use crate::base::lists::{counts_steps, holds_bits, holds_texts};
use crate::base::names::are_many;
use crate::base::records::{keeps_machine, keeps_plan};
use crate::base::signals::{are_widest, stays};
use crate::base::sinks::is_full;
use rtl_bits::Memory;
use std::alloc::Global;
use table_rows::str_of;

/// Whether the call of this name ends well.
pub fn end_well(alloc: Global, fields: &[&[u8]]) -> Result<bool, Memory> {
    let [name] = fields else {
        return Ok(false);
    };
    match str_of(name) {
        "a list of bits" => holds_bits(alloc),
        "a list of texts" => holds_texts(alloc),
        "parts of a counter" => Ok(counts_steps()),
        "100,000 names" => are_many(alloc),
        "a copied signal" => stays(alloc, b"a0b"),
        "the widest signals" => are_widest(alloc),
        "a copied machine" => keeps_machine(alloc),
        "a copied plan" => keeps_plan(alloc),
        "a writer without room" => Ok(is_full()),
        _ => Ok(false),
    }
}
