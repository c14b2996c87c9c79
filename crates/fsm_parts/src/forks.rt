//! The values that a fork of a tree chooses from.

ghost use Rattle.std.specs.Prelude.{◌≡◌, ◌++◌, IfOk, OnOk, length, map};
ghost use Rattle.rtl_ir.specs.declared.module.Module.{Module};
ghost use Rattle.rtl_ir.specs.Follow.{follow};
ghost use Rattle.rtl_ir.specs.Types.{Ports};
ghost use Rattle.net_index.specs.Drivers.{AreDrivers};
ghost use Rattle.net_model.specs.Fsm.Find.{arms_of, parts_of};

use crate::cells::at_pin;
use crate::signals::followed;
use cell_types::PinName;
use net_index::Drivers;
use rtl_bits::Memory;
use rtl_ir::Cell;
use rtl_sig::{SigBit, SigSpec};
use std::alloc::Global;

/// The values that a `$mux` or a `$pmux` chooses from, followed: A, and the parts of B.
pub fn arms(alloc: Global, index: &Drivers, cell: &Cell) -> Result<Vec<SigSpec>, Memory>
    ensures value { IfOk result (λ arms. (ports : Ports) (m : Module) → AreDrivers index.now ports m →
        arms.items ≡ map (map (follow m.links)) (arms_of cell.now)) }
{
    let a = at_pin(cell, PinName::A);
    let mut arms = Vec::new(alloc);
    arms.push(followed(alloc, index, a)?)?;
    push_parts(alloc, index, &mut arms, a.len(), at_pin(cell, PinName::B))?;
    Ok(arms)
}

/// The parts of this width, followed, go last.
fn push_parts(
    alloc: Global,
    index: &Drivers,
    arms: &mut Vec<SigSpec>,
    width: usize,
    signal: &[SigBit],
) -> Result<(), Memory>
    ensures ok { OnOk result ((ports : Ports) (m : Module) → AreDrivers index.now ports m →
        arms.new.items ≡ arms.old.items ++ map (map (follow m.links)) (parts_of (length signal.now) width signal.now)) }
{
    let mut from = 0;
    for _part in 0..signal.len() {
        if from >= signal.len() {
            return Ok(());
        }
        let end = from + width.min(signal.len() - from);
        arms.push(followed(alloc, index, &signal[from..end])?)?;
        from = end;
    }
    Ok(())
}
