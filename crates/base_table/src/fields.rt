//! Designs, modules and numbers that fields of rows stand for.

use rtl_bits::Memory;
use rtl_ir::{Design, Module};
use rtl_read::{ReadFault, read};
use std::alloc::Global;
use table_rows::str_of;

/// The design of the text, where it is one.
pub fn design_of(alloc: Global, text: &[u8]) -> Result<Option<Design>, Memory> {
    match read(alloc, text) {
        Ok(design) => Ok(Some(design)),
        Err(ReadFault::Memory) => Err(Memory),
        Err(_) => Ok(None),
    }
}

/// The only module of the text, where it is a design.
pub fn module_of(alloc: Global, text: &[u8]) -> Result<Option<Module>, Memory> {
    match design_of(alloc, text)? {
        Some(design) => Ok(design.modules.into_vec().pop()),
        None => Ok(None),
    }
}

/// The number of these digits, or 0.
pub fn number_of(digits: &[u8]) -> u32 {
    str_of(digits).parse::<u32>().unwrap_or(0)
}
