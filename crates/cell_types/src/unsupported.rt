//! Cells of other tools that are known and not accepted.

ghost use Rattle.std.specs.Prelude.{◌≡◌};
ghost use Rattle.cell_types.specs.Unsupported.{is_unsupported};

use crate::names::is_among;

#[rattlefmt::skip]
const UNSUPPORTED: [&[u8]; 33] = [
    b"$eqx", b"$nex", b"$bweqx", b"$tribuf",
    b"$_TBUF_", b"$pow", b"$lut", b"$sop",
    b"$alu", b"$lcu", b"$fa", b"$macc",
    b"$mem", b"$mem_v2", b"$memwr", b"$fsm",
    b"$assert", b"$assume", b"$cover", b"$live",
    b"$fair", b"$equiv", b"$print", b"$check",
    b"$anyconst", b"$anyseq", b"$allconst", b"$allseq",
    b"$initstate", b"$specify2", b"$specify3", b"$specrule",
    b"$scopeinfo",
];

/// Whether this names a cell that is known and not accepted. It takes no memory.
pub fn is_unsupported(name: &[u8]) -> bool
    ensures value { result ≡ is_unsupported name.now }
{
    is_among(&UNSUPPORTED, name)
}
