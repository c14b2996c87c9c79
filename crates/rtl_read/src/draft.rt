//! What has been read so far.

ghost use Rattle.std.specs.Prelude.{◌≡◌};
ghost use Rattle.rtl_read.specs.Draft.{nothing};

use crate::attributes::{Attributes, no_attributes};
use crate::open_cell::{OpenCell, no_open_cell};
use crate::open_module::{OpenModule, fresh_module};
use crate::open_process::{OpenProcess, plain_process};
use crate::options::{plain_store, plain_wire};
use crate::signal::{OpenSignal, no_signal};
use rtl_bits::{Seq, Text};
use rtl_ir::{Module, Store, Wire};
use rtl_sig::{Names, SigSpec};
use std::alloc::Global;

/// The statement whose two signals are read.
#[derive(Clone, Copy, Debug, PartialEq, Eq)]
pub enum PairKind {
    Connect,
    Assign,
    Update,
}

/// The modules that are whole, and what is open.
#[derive(Drop)]
pub struct Draft {
    pub modules: Seq<Module>,
    /// The names of all modules, that of the open one too.
    pub names: Names,
    /// The module that is open, and the wire, memory, cell and process that are open in it.
    pub current: OpenModule,
    pub wire: Wire,
    pub store: Store,
    pub cell: OpenCell,
    pub process: OpenProcess,
    /// The pair of signals that is open, its left signal, and the signal that is being read.
    pub pair: PairKind,
    pub left: SigSpec,
    pub signal: OpenSignal,
    /// The attributes that wait for their item.
    pub attributes: Attributes,
    /// The name of the attribute, or of the module's parameter, whose value comes next.
    pub name: Text,
}

/// Nothing read. It takes no memory.
pub(crate) fn nothing(alloc: Global) -> Draft
    ensures { result ≡ nothing }
{
    Draft {
        modules: Seq::make(alloc),
        names: Names::make(alloc),
        current: fresh_module(alloc, Text::make(alloc), Seq::make(alloc)),
        wire: plain_wire(alloc, Seq::make(alloc)),
        store: plain_store(alloc, Seq::make(alloc)),
        cell: no_open_cell(alloc),
        process: plain_process(alloc, Seq::make(alloc)),
        pair: PairKind::Connect,
        left: SigSpec::make(alloc),
        signal: no_signal(alloc),
        attributes: no_attributes(alloc),
        name: Text::make(alloc),
    }
}
