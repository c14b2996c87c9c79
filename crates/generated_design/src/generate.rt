//! Generated designs.

ghost use Rattle.std.specs.Prelude.{◌≡◌, ◌++◌, codes, IfOk};
ghost use Rattle.std.specs.Fmt.{decimal};
ghost use Rattle.generated_design.specs.Generate.{generated, generated_module};

use crate::cells::{adder, register};
use crate::wires::wires_of;
use rtl_bits::{Memory, Seq, Text};
use rtl_ir::{Design, Module};
use std::alloc::Global;

/// The name of the module of this number.
fn name_of(alloc: Global, number: u32) -> Result<Text, Memory>
    ensures value { IfOk result (λ name. name ≡ codes "\\g" ++ decimal number) }
{
    let digits = number.to_string(alloc)?;
    let mut name = Text::from_slice(alloc, b"\\g")?;
    name.extend(digits.as_bytes())?;
    Ok(name)
}

/// The module of this number: its words have 1 to 8 bits, in turn.
fn generated_module(alloc: Global, number: u32) -> Result<Module, Memory>
    ensures value { IfOk result (λ made. made ≡ generated_module number) }
{
    let width = number % 8 + 1;
    let mut module = Module::empty(alloc, name_of(alloc, number)?.as_slice())?;
    module.wires = wires_of(alloc, width)?;
    module.cells.push(adder(alloc, width)?)?;
    module.cells.push(register(alloc, width)?)?;
    Ok(module)
}

/// The design of so many modules. Each is an adder of two inputs with a register behind it.
#[tactic(auto, using(crate::proofs::Making::one_more))]
pub fn generated(alloc: Global, count: u32) -> Result<Design, Memory>
    ensures exact { IfOk result (λ design. design ≡ generated count) }
{
    let mut modules = Seq::make(alloc);
    for number in 0..count {
        modules.push(generated_module(alloc, number)?)?;
    }
    Ok(Design { modules })
}
