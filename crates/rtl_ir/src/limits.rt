//! The greatest modules, cells and memories of a design.

/// The most modules of a design.
pub const MAX_MODULES: usize = 4_096;

/// The most cells of a module.
pub const MAX_CELLS: usize = 1_048_576;

/// The most bits of the wires of a module.
pub const MAX_BITS: usize = 4_194_304;

/// The most bits of one wire, and of one constant.
pub const MAX_WIDTH: u32 = 1_048_576;

/// The most switches in one another, and braces in one another.
pub const MAX_DEPTH: usize = 512;

/// The most bits of the signal of a switch and of the value of a line that writes a memory, and the most patterns of a
/// case.
pub const MAX_ITEMS: usize = 4_096;

/// The most bits of one memory.
pub const MAX_STORE: u64 = 65_536;

/// The most bits of an address of a memory.
pub const MAX_ADDRESS: usize = 32;

/// The greatest number of a write port of a memory.
pub const MAX_PORT: u32 = 65_535;

/// The greatest number in a fresh name.
pub const MAX_FRESH: u32 = 999_999_999;
