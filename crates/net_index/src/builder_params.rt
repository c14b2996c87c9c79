//! How the parameters of new cells are written.

ghost use Rattle.std.specs.Prelude.{◌≡◌, ◌≤◌, IfOk, length};
ghost use Rattle.rtl_bits.specs.Numbers.{number_of};
ghost use Rattle.net_index.specs.Builder.{chars_of, new_param, new_params, is_value, new_value, number_value};

use cell_types::{Param, ParamName};
use rtl_bits::{Bit, Bits, Copied, Memory, Seq, Text, digit_of};
use rtl_ir::{CellParam, Value};
use std::alloc::Global;

/// The parameters that are values and masks. They are written as bits.
const VALUES: [ParamName; 6] = [
    ParamName::ArstValue,
    ParamName::SrstValue,
    ParamName::InitValue,
    ParamName::PriorityMask,
    ParamName::TransparencyMask,
    ParamName::CollisionXMask,
];

/// The parameters of a new cell.
pub(crate) fn new_params(alloc: Global, params: &[Param]) -> Result<Seq<CellParam>, Memory>
    ensures value { IfOk result (λ made. made ≡ new_params params.now) }
{
    let mut made = Vec::with_capacity(alloc, params.len())?;
    for param in params {
        made.push(new_param(alloc, param)?)?;
    }
    Ok(Seq::from_vec(made))
}

fn new_param(alloc: Global, param: &Param) -> Result<CellParam, Memory>
    ensures value { IfOk result (λ made. made ≡ new_param param.now) }
{
    Ok(CellParam {
        name: param.name.copy()?,
        value: new_value(alloc, param.name.as_slice(), &param.value)?,
        signed: false,
    })
}

fn new_value(alloc: Global, name: &[u8], bits: &Bits) -> Result<Value, Memory>
    ensures value { IfOk result (λ value. value ≡ new_value name.now bits.now) }
{
    if name == ParamName::Memid.text() {
        Ok(Value::Chars(chars_of(alloc, bits.as_slice())?))
    } else if is_value(name) {
        Ok(Value::Bits(bits.copy()?, false))
    } else {
        number_value(bits)
    }
}

/// Whether the parameter of this name is written as bits.
fn is_value(name: &[u8]) -> bool
    ensures value { result ≡ is_value name.now }
{
    VALUES.iter().any(|value| name == value.text())
}

/// The number as an integer where one holds it, else as its bits.
#[tactic(auto, using(crate::proofs::NewParams::is_integer_yes, crate::proofs::NewParams::is_integer_no))]
fn number_value(bits: &Bits) -> Result<Value, Memory>
    ensures value { IfOk result (λ value. value ≡ number_value bits.now) }
{
    match bits.unsigned() {
        Some(number) if number < 1 << 31 => Ok(Value::Int(number as i32)),
        _ => Ok(Value::Bits(bits.copy()?, false)),
    }
}

/// The characters of a string, 8 bits each, the first one on top.
#[tactic(auto, using(crate::proofs::NewParams::chars_none, crate::proofs::NewParams::chars_step))]
fn chars_of(alloc: Global, bits: &[Bit]) -> Result<Text, Memory>
    ensures value { IfOk result (λ chars. chars ≡ chars_of bits.now) }
{
    let mut chars = Text::make(alloc);
    for at in (0..bits.len() / 8).rev() {
        chars.push(char_of(&bits[8 * at..8 * at + 8]))?;
    }
    Ok(chars)
}

/// The character of 8 bits.
#[tactic(auto, using(crate::proofs::NewParams::char_step, crate::proofs::NewParams::char_small))]
fn char_of(bits: &[Bit]) -> u8
    requires few { length bits.now ≤ 8 }
    ensures value { result ≡ number_of bits.now }
{
    let mut number = 0;
    for at in (0..bits.len()).rev() {
        number = 2 * number + digit_of(bits[at]);
    }
    number
}
