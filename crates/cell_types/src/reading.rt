//! How the value of each parameter is read.

ghost use Rattle.std.specs.Prelude.{◌≡◌};
ghost use Rattle.cell_types.specs.Reading.{is_readable, own_reading, port_reading, reading_of};

use crate::given::{Param, number_in, value_in};
use crate::kind::CellKind;
use crate::memory::MemoryKind;
use crate::param_name::ParamName;
use rtl_bits::all_known;

/// What is asked of a value.
#[derive(Clone, Copy)]
enum Reading {
    /// A known number that is not 0.
    Width,
    /// A known number; as a sign, a polarity or an enable, whether it is not 0.
    Number,
    /// As many bits as WIDTH says.
    Word,
    /// Nothing.
    Any,
}

/// Whether the parameter's value can be read.
pub(crate) fn is_readable(kind: CellKind, params: &[Param], name: ParamName) -> bool
    ensures value { result ≡ is_readable kind params.now name }
{
    let value = value_in(params, name);
    match reading_of(kind, name) {
        Reading::Width => all_known(value) && number_in(params, name) != 0,
        Reading::Number => all_known(value),
        Reading::Word => value.len() as u128 == number_in(params, ParamName::Width),
        Reading::Any => true,
    }
}

fn reading_of(kind: CellKind, name: ParamName) -> Reading
    ensures value { result ≡ reading_of kind name }
{
    match kind {
        CellKind::Memory(MemoryKind::Memrd | MemoryKind::MemrdV2) => port_reading(name),
        _ => own_reading(name),
    }
}

fn port_reading(name: ParamName) -> Reading
    ensures value { result ≡ port_reading name }
{
    match name {
        ParamName::Width => Reading::Width,
        ParamName::Abits | ParamName::ClkEnable => Reading::Number,
        _ => Reading::Any,
    }
}

fn own_reading(name: ParamName) -> Reading
    ensures value { result ≡ own_reading name }
{
    match name {
        ParamName::AWidth
        | ParamName::BWidth
        | ParamName::YWidth
        | ParamName::SWidth
        | ParamName::Width => Reading::Width,
        ParamName::ArstValue | ParamName::SrstValue => Reading::Word,
        ParamName::Memid | ParamName::PriorityMask => Reading::Any,
        _ => Reading::Number,
    }
}
