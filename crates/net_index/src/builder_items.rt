//! New cells and wires.

ghost use Rattle.std.specs.Prelude.{◌≡◌, ◌++◌, ◌∷◌, ◌-◌, [], IfOk, OnErr, OnOk, length, take};
ghost use Rattle.rtl_ir.specs.Build.{inner_wire, made_name, pin_of, whole};
ghost use Rattle.net_index.specs.Builder.{new_params};
ghost use Rattle.net_index.specs.BuilderNames.{name_of};

use crate::builder_params::new_params;
use crate::fresh::made_name;
use cell_types::{CellKind, Param};
use rtl_bits::{Copied, Memory, Seq, Text};
use rtl_ir::{Attribute, Cell, Module, Pin, Role, Wire};
use rtl_sig::{SigBit, SigSpec, WireBit};
use std::alloc::Global;
use std::mem;

/// The whole signal of the wire at this place of the list of wires.
pub fn whole(alloc: Global, wire: u32, width: u32) -> Result<SigSpec, Memory>
    ensures value { IfOk result (λ signal. signal ≡ whole wire width) }
{
    let mut bits = SigSpec::with_capacity(alloc, width as usize)?;
    for at in 0..width {
        bits.push(SigBit::Wire(WireBit { wire, at }))?;
    }
    Ok(bits)
}

/// A wire that is no port, under the fresh name of this number.
pub(crate) fn new_wire(
    alloc: Global,
    number: u32,
    width: u32,
    attributes: Seq<Attribute>,
) -> Result<Wire, Memory>
    ensures value { IfOk result (λ wire. wire ≡ inner_wire (made_name number) width attributes) }
{
    Ok(Wire {
        name: made_name(alloc, number)?,
        width,
        offset: 0,
        upto: false,
        signed: false,
        role: Role::Inner,
        number: 0,
        attributes,
    })
}

/// The name of the kind.
#[tactic(auto, using(crate::proofs::KindNames::kind_named))]
fn kind_name(alloc: Global, kind: CellKind) -> Result<Text, Memory>
    ensures value { IfOk result (λ name. name ≡ name_of kind) }
{
    kind.name(alloc)
}

/// A cell of this kind, under the fresh name of this number.
pub(crate) fn new_cell(
    alloc: Global,
    number: u32,
    kind: CellKind,
    params: &[Param],
    pins: Seq<Pin>,
) -> Result<Cell, Memory>
    ensures value { IfOk result (λ cell. cell ≡ record {
      kind_name = name_of kind;
      name = made_name number;
      params = new_params params.now;
      pins = pins;
      attributes = [];
    }) }
{
    Ok(Cell {
        kind_name: kind_name(alloc, kind)?,
        name: made_name(alloc, number)?,
        params: new_params(alloc, params)?,
        pins,
        attributes: Seq::make(alloc),
    })
}

/// An equal list of pins.
pub(crate) fn copied_pins(alloc: Global, pins: &[Pin]) -> Result<Seq<Pin>, Memory>
    ensures value { IfOk result (λ copies. copies ≡ pins.now) }
{
    Ok(Seq::from_vec(Pin::copy_all(pins, alloc)?))
}

/// The pins, and a last one of this name with the whole signal of a wire. The list has room for no more.
pub(crate) fn with_output(
    alloc: Global,
    pins: &[Pin],
    output: &[u8],
    wire: u32,
    width: u32,
) -> Result<Seq<Pin>, Memory>
    ensures value { IfOk result (λ all. all ≡ pins.now ++ pin_of output.now (whole wire width) ∷ []) }
{
    let mut all = copied_pins(alloc, pins)?.into_vec();
    let pin = Pin {
        name: Text::from_slice(alloc, output)?,
        sig: whole(alloc, wire, width)?,
    };
    all.reserve_exact(1)?;
    all.push(pin)?;
    Ok(Seq::from_vec(all))
}

/// Puts a cell and a wire last. After an error the module is as before.
pub(crate) fn put_driver(module: &mut Module, cell: Cell, wire: Wire) -> Result<(), Memory>
    ensures ok { OnOk result («module».new ≡ record «module».old {
      cells = «module».old.cells ++ cell ∷ [];
      wires = «module».old.wires ++ wire ∷ [];
    }) }
    ensures err { OnErr result («module».new ≡ «module».old) }
{
    module.cells.push(cell)?;
    if let Err(error) = module.wires.push(wire) {
        drop_last(&mut module.cells);
        return Err(error);
    }
    Ok(())
}

/// Takes the last cell away.
fn drop_last(cells: &mut Seq<Cell>)
    ensures value { cells.new ≡ take (length cells.old - 1) cells.old }
{
    let empty = Seq::make(cells.allocator());
    let mut items = mem::replace(cells, empty).into_vec();
    items.pop();
    *cells = Seq::from_vec(items);
}
