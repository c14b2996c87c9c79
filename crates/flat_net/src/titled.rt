//! Modules that are lent, each under a name of its own.

use rtl_ir::Module;

/// A module under a name that need not be its own.
#[derive(Clone, Copy)]
pub struct Titled<'a> {
    pub id: &'a [u8],
    pub body: &'a Module,
}
