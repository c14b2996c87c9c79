//! The wires of a generated module.

ghost use Rattle.std.specs.Prelude.{◌≡◌, IfOk};
ghost use Rattle.generated_design.specs.Generate.{wire, wires_of};

use rtl_bits::{Memory, Seq, Text};
use rtl_ir::{Role, Wire};
use std::alloc::Global;

/// The place of `\a` among the wires, which is added.
pub const A: u32 = 0;

/// The place of `\b`, which is added to it.
pub const B: u32 = 1;

/// The place of the clock `\c`.
pub const C: u32 = 2;

/// The place of the output `\y`.
pub const Y: u32 = 3;

/// The place of the sum `$s`.
pub const S: u32 = 4;

/// A wire by its role and its number as a port, which is 0 where it is none.
fn wire(alloc: Global, name: &[u8], width: u32, role: Role, number: u8) -> Result<Wire, Memory>
    ensures value { IfOk result (λ made. made ≡ wire name.now width role number) }
{
    Ok(Wire {
        name: Text::from_slice(alloc, name)?,
        width,
        offset: 0,
        upto: false,
        signed: false,
        role,
        number: i32::from(number),
        attributes: Seq::make(alloc),
    })
}

/// The wires of a module whose words have this width.
pub fn wires_of(alloc: Global, width: u32) -> Result<Seq<Wire>, Memory>
    ensures value { IfOk result (λ wires. wires ≡ wires_of width) }
{
    let mut wires = Seq::make(alloc);
    wires.push(wire(alloc, b"\\a", width, Role::Input, 1)?)?;
    wires.push(wire(alloc, b"\\b", width, Role::Input, 2)?)?;
    wires.push(wire(alloc, b"\\c", 1, Role::Input, 3)?)?;
    wires.push(wire(alloc, b"\\y", width, Role::Output, 4)?)?;
    wires.push(wire(alloc, b"$s", width, Role::Inner, 0)?)?;
    Ok(wires)
}
