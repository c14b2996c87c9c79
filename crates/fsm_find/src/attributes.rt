//! Whether a wire may be a state by itself.

ghost use Rattle.std.specs.Prelude.{◌≡◌, IfOk};
ghost use Rattle.net_model.specs.Fsm.Find.{may_be_state, may_recode};
ghost use Rattle.rtl_ir.specs.Attributes.{is_kept};
ghost use Rattle.fsm_find.specs.Attributes.{is_absent_or_code, is_code_name};

use rtl_bits::Memory;
use rtl_ir::{Attribute, Value, Wire, is_kept, is_port};
use std::alloc::Global;

/// Whether it is no port, is not kept, has 2 to 16 bits, and may be recoded.
pub(crate) fn may_be_state(alloc: Global, wire: &Wire) -> Result<bool, Memory>
    ensures value { IfOk result (λ may. may ≡ may_be_state «wire».now) }
{
    if is_port(wire.role) || is_kept(alloc, wire.attributes.as_slice())? {
        return Ok(false);
    }
    Ok(2 <= wire.width && wire.width <= 16 && may_recode(wire.attributes.as_slice()))
}

/// Whether `\fsm_encoding` is absent, `auto` or `one-hot`.
fn may_recode(attributes: &[Attribute]) -> bool
    ensures value { result ≡ may_recode attributes.now }
{
    is_absent_or_code(attributes, b"\\fsm_encoding")
}

/// Whether the attribute of this name is absent, `auto` or `one-hot`.
fn is_absent_or_code(attributes: &[Attribute], name: &[u8]) -> bool
    ensures value { result ≡ is_absent_or_code attributes.now name.now }
{
    for attribute in attributes {
        if attribute.name.as_slice() == name {
            return is_code_name(&attribute.value);
        }
    }
    true
}

/// Whether the constant is the string `auto` or `one-hot`.
fn is_code_name(value: &Value) -> bool
    ensures value { result ≡ is_code_name value.now }
{
    match value {
        Value::Chars(text) => {
            let text = text.as_slice();
            text == b"auto".as_slice() || text == b"one-hot".as_slice()
        }
        Value::Bits(_, _) | Value::Int(_) => false,
    }
}
