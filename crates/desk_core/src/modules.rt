//! How many modules a design has, and places for their results.

ghost use Rattle.std.specs.Prelude.{◌≡◌, IfOk, None, length, replicate};
ghost use Rattle.rtl_readable.specs.Readable.{IsReadable};

use crate::kept::Kept;
use rtl_bits::Memory;
use rtl_check::Checked;
use std::alloc::Global;

/// The number of modules of a design that a text can give.
pub fn module_count(design: &Checked) -> u32
    requires readable { IsReadable design.now.design }
    ensures value { result ≡ length design.now.design.modules }
{
    design.design().modules.as_slice().len() as u32
}

/// No result beside each of so many modules.
pub fn none_found(alloc: Global, count: usize) -> Result<Vec<Option<Kept>>, Memory>
    ensures value { IfOk result (λ found. found.items ≡ replicate count None) }
{
    let mut found = Vec::with_capacity(alloc, count)?;
    for _at in 0..count {
        found.push(None)?;
    }
    Ok(found)
}
