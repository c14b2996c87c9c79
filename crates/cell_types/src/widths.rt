//! The widths that a cell's parameters give its pins.

ghost use Rattle.std.specs.Prelude.{◌≡◌, ◌*◌, ◌^◌, min};
ghost use Rattle.cell_types.specs.Given.{number_in};
ghost use Rattle.cell_types.specs.Widths.{bmux_width, buf_width, concat_width, demux_width, init_width, memory_width};
ghost use Rattle.cell_types.specs.Widths.{mux_width, own_width, parts_in, pin_width, pmux_width, read_width};
ghost use Rattle.cell_types.specs.Widths.{storage_width, word_width, write_width};

use crate::given::{Param, number_in};
use crate::kind::CellKind;
use crate::memory::MemoryKind;
use crate::number::MANY;
use crate::param_name::ParamName;
use crate::pin_name::PinName;
use crate::word::WordKind;

/// The width of a pin that the kind has, or `MANY` where it is greater.
pub(crate) fn pin_width(kind: CellKind, params: &[Param], pin: PinName) -> u128
    ensures value { result ≡ min (pin_width kind params.now pin) (2 ^ 64) }
{
    match kind {
        CellKind::Word(kind) => word_width(kind, params, pin),
        CellKind::Storage(_) => storage_width(params, pin),
        CellKind::Memory(kind) => memory_width(kind, params, pin),
        CellKind::Gate(_) | CellKind::StorageGate(_) => 1,
    }
}

fn word_width(kind: WordKind, params: &[Param], pin: PinName) -> u128
    ensures value { result ≡ min (word_width kind params.now pin) (2 ^ 64) }
{
    match kind {
        WordKind::Mux => mux_width(params, pin),
        WordKind::Pmux => pmux_width(params, pin),
        WordKind::Concat => concat_width(params, pin),
        WordKind::Buf => buf_width(params, pin),
        WordKind::Bwmux => number_in(params, ParamName::Width),
        WordKind::Bmux => bmux_width(params, pin),
        WordKind::Demux => demux_width(params, pin),
        _ => own_width(params, pin),
    }
}

fn own_width(params: &[Param], pin: PinName) -> u128
    ensures value { result ≡ min (own_width params.now pin) (2 ^ 64) }
{
    match pin {
        PinName::A => number_in(params, ParamName::AWidth),
        PinName::B => number_in(params, ParamName::BWidth),
        PinName::Y => number_in(params, ParamName::YWidth),
        _ => 0,
    }
}

fn mux_width(params: &[Param], pin: PinName) -> u128
    ensures value { result ≡ min (mux_width params.now pin) (2 ^ 64) }
{
    match pin {
        PinName::S => 1,
        _ => number_in(params, ParamName::Width),
    }
}

fn pmux_width(params: &[Param], pin: PinName) -> u128
    ensures value { result ≡ min (pmux_width params.now pin) (2 ^ 64) }
{
    match pin {
        PinName::B => product_in(params, ParamName::Width, ParamName::SWidth),
        PinName::S => number_in(params, ParamName::SWidth),
        _ => number_in(params, ParamName::Width),
    }
}

fn concat_width(params: &[Param], pin: PinName) -> u128
    ensures value { result ≡ min (concat_width params.now pin) (2 ^ 64) }
{
    let a = number_in(params, ParamName::AWidth);
    let b = number_in(params, ParamName::BWidth);
    match pin {
        PinName::A => a,
        PinName::B => b,
        PinName::Y => (a + b).min(MANY),
        _ => 0,
    }
}

fn buf_width(params: &[Param], pin: PinName) -> u128
    ensures value { result ≡ min (buf_width params.now pin) (2 ^ 64) }
{
    match pin {
        PinName::A | PinName::Y => number_in(params, ParamName::Width),
        _ => 0,
    }
}

fn bmux_width(params: &[Param], pin: PinName) -> u128
    ensures value { result ≡ min (bmux_width params.now pin) (2 ^ 64) }
{
    match pin {
        PinName::A => parts_in(params),
        PinName::S => number_in(params, ParamName::SWidth),
        PinName::Y => number_in(params, ParamName::Width),
        _ => 0,
    }
}

fn demux_width(params: &[Param], pin: PinName) -> u128
    ensures value { result ≡ min (demux_width params.now pin) (2 ^ 64) }
{
    match pin {
        PinName::A => number_in(params, ParamName::Width),
        PinName::S => number_in(params, ParamName::SWidth),
        PinName::Y => parts_in(params),
        _ => 0,
    }
}

/// As many words as the bits that choose have values.
fn parts_in(params: &[Param]) -> u128
    ensures value { result ≡ min (parts_in params.now) (2 ^ 64) }
{
    let width = number_in(params, ParamName::Width);
    let choosing = number_in(params, ParamName::SWidth);
    if width == 0 {
        0
    } else if choosing >= 64 {
        MANY
    } else {
        width.saturating_mul(1 << choosing).min(MANY)
    }
}

fn storage_width(params: &[Param], pin: PinName) -> u128
    ensures value { result ≡ min (storage_width params.now pin) (2 ^ 64) }
{
    match pin {
        PinName::Set | PinName::Clr | PinName::Ad | PinName::D | PinName::Q => {
            number_in(params, ParamName::Width)
        }
        _ => 1,
    }
}

fn memory_width(kind: MemoryKind, params: &[Param], pin: PinName) -> u128
    ensures value { result ≡ min (memory_width kind params.now pin) (2 ^ 64) }
{
    match kind {
        MemoryKind::Memrd | MemoryKind::MemrdV2 => read_width(params, pin),
        MemoryKind::MemwrV2 => write_width(params, pin),
        MemoryKind::Meminit | MemoryKind::MeminitV2 => init_width(params, pin),
    }
}

fn read_width(params: &[Param], pin: PinName) -> u128
    ensures value { result ≡ min (read_width params.now pin) (2 ^ 64) }
{
    match pin {
        PinName::Addr => number_in(params, ParamName::Abits),
        PinName::Data => number_in(params, ParamName::Width),
        _ => 1,
    }
}

fn write_width(params: &[Param], pin: PinName) -> u128
    ensures value { result ≡ min (write_width params.now pin) (2 ^ 64) }
{
    match pin {
        PinName::Addr => number_in(params, ParamName::Abits),
        PinName::En | PinName::Data => number_in(params, ParamName::Width),
        _ => 1,
    }
}

fn init_width(params: &[Param], pin: PinName) -> u128
    ensures value { result ≡ min (init_width params.now pin) (2 ^ 64) }
{
    match pin {
        PinName::Addr => number_in(params, ParamName::Abits),
        PinName::Data => product_in(params, ParamName::Width, ParamName::Words),
        _ => number_in(params, ParamName::Width),
    }
}

fn product_in(params: &[Param], words: ParamName, count: ParamName) -> u128
    ensures value { result ≡ min (number_in params.now words * number_in params.now count) (2 ^ 64) }
{
    number_in(params, words)
        .saturating_mul(number_in(params, count))
        .min(MANY)
}
