//! Fresh names, and the first number that none of a module's names has.

ghost use Rattle.std.specs.Prelude.{◌≡◌, ◌≤◌, ◌<◌, IfOk, max, length, true};
ghost use Rattle.std.specs.List.{list_all};
ghost use Rattle.rtl_ir.specs.Build.{digits_number, first_number, is_digit, is_made_number, made_name, made_number};

use rtl_bits::{Memory, Text};
use rtl_ir::Module;
use std::alloc::Global;

/// What fresh names begin with.
const PREFIX: &[u8] = b"$syn$";

/// The fresh name of this number.
pub fn made_name(alloc: Global, number: u32) -> Result<Text, Memory>
    ensures value { IfOk result (λ name. name ≡ made_name number) }
{
    let mut name = Text::from_slice(alloc, PREFIX)?;
    let digits = number.to_string(alloc)?;
    name.extend(digits.as_bytes())?;
    Ok(name)
}

fn all_digits(word: &[u8]) -> bool
    ensures value { result ≡ list_all is_digit word.now }
{
    word.iter().all(|c| *c >= b'0' && *c <= b'9')
}

/// Whether these are one to nine digits, the first of which is not 0.
fn is_made_number(digits: &[u8]) -> bool
    ensures value { result ≡ is_made_number digits.now }
{
    match digits {
        [] | [b'0', ..] => false,
        _ => digits.len() <= 9 && all_digits(digits),
    }
}

/// The number that up to nine digits stand for.
#[tactic(auto, using(crate::proofs::FreshNumbers::digits_small, crate::proofs::FreshNumbers::digits_grow))]
fn digits_number(digits: &[u8]) -> u32
    requires digits { list_all is_digit digits.now ≡ true }
    requires few { length digits.now ≤ 9 }
    ensures value { result ≡ digits_number 0 digits.now }
    ensures small { result ≤ 999999999 }
{
    let mut number: u32 = 0;
    for digit in digits {
        number = number * 10 + u32::from(digit.saturating_sub(b'0'));
    }
    number
}

/// The number of a fresh name; of any other name it is 0.
#[tactic(auto, unfolding(rtl_ir::specs::Build::made_number), using(crate::proofs::FreshNumbers::made_digits))]
fn made_number(name: &[u8]) -> u32
    ensures value { result ≡ made_number name.now }
    ensures small { result ≤ 999999999 }
{
    if name.len() < PREFIX.len() || &name[..PREFIX.len()] != PREFIX {
        return 0;
    }
    let digits = &name[PREFIX.len()..];
    if !is_made_number(digits) {
        return 0;
    }
    digits_number(digits)
}

/// The first number behind those of the names of the module's wires, memories, cells and processes.
pub fn first_number(module: &Module) -> u32
    ensures value { result ≡ first_number «module».now }
    ensures small { result ≤ 1000000000 }
{
    let mut greatest = 0;
    for wire in module.wires.as_slice() {
        greatest = made_number(wire.name.as_slice()).max(greatest);
    }
    for store in module.memories.as_slice() {
        greatest = made_number(store.name.as_slice()).max(greatest);
    }
    for cell in module.cells.as_slice() {
        greatest = made_number(cell.name.as_slice()).max(greatest);
    }
    for process in module.processes.as_slice() {
        greatest = made_number(process.name.as_slice()).max(greatest);
    }
    greatest + 1
}
