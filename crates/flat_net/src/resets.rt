//! Which choices of a tree test the reset of its process.

ghost use Rattle.std.specs.Prelude.{◌≡◌, IfOk, OnOk};
ghost use Rattle.std.specs.List.{AllByRecursion};
ghost use Rattle.rtl_ir.specs.declared.cell.Cell.{Cell};
ghost use Rattle.rtl_ir.specs.Faults.TwoEdges.{SwitchTest, cases_patterns};
ghost use Rattle.rtl_ir.specs.Flat.Process.{no_modules};
ghost use Rattle.rtl_ir.specs.Types.{cell_type};
ghost use Rattle.process_trees.specs.Fitting.{DoesFit};
ghost use Rattle.flat_net.specs.Resets.{IsTest, KnowsTests};

use crate::rooted::Rooted;
use cell_types::kind_of;
use net_index::Types;
use process_trees::EventTests;
use rtl_bits::{Memory, Seq};
use rtl_ir::{Cell, Module, PortTable, Switch, fitting_shape};
use rtl_sig::WireBit;
use std::alloc::Global;

/// A module with the tables by which tests of its event bits are found.
#[derive(Clone, Copy)]
pub(crate) struct Tests<'a> {
    pub(crate) table: &'a EventTests,
    pub(crate) body: &'a Module,
}

/// The bit of the reset of a process.
#[derive(Clone, Copy)]
pub(crate) struct Reset<'a> {
    pub(crate) tests: Tests<'a>,
    pub(crate) bit: WireBit,
}

/// The tree of a process, with the tables by which tests of its reset are found.
#[derive(Clone, Copy)]
pub(crate) struct Tested<'a> {
    pub(crate) rooted: &'a Rooted,
    pub(crate) tests: Tests<'a>,
}

/// The tables of a module. Tests lead through cells of the library alone. A module with a cell that has a fault is
/// taken for want of memory.
pub(crate) fn tests_of(alloc: Global, body: &Module) -> Result<EventTests, Memory>
    ensures value { IfOk result (λ table. KnowsTests table body.now) }
{
    fit(alloc, body.cells.as_slice())?;
    let none = PortTable {
        modules: Seq::make(alloc),
    };
    let types = Types::of_table(alloc, &none)?;
    EventTests::of(alloc, body, &types)
}

/// Goes over the cells of the library: each has the parameters and pins that its kind wants.
fn fit(alloc: Global, cells: &[Cell]) -> Result<(), Memory>
    ensures fit { OnOk result (AllByRecursion (λ (c : Cell). DoesFit c (cell_type no_modules c.kind_name)) cells.now) }
{
    for cell in cells {
        fit_cell(alloc, cell)?;
    }
    Ok(())
}

/// A cell of the library has the parameters and pins that its kind wants.
fn fit_cell(alloc: Global, cell: &Cell) -> Result<(), Memory>
    ensures fit { OnOk result (DoesFit cell.now (cell_type no_modules cell.now.kind_name)) }
{
    if let Some(kind) = kind_of(cell.kind_name.as_slice()) {
        fitting_shape(alloc, kind, cell)?;
    }
    Ok(())
}

/// Whether the switch tests the reset, where there is one, and then whether its signal is the inverse.
pub(crate) fn test_of(
    alloc: Global,
    reset: Option<Reset>,
    switch: &Switch,
) -> Result<Option<bool>, Memory>
    ensures value { (test : SwitchTest) → IsTest reset.entry test →
        IfOk result (λ t. t ≡ test switch.now.signal (cases_patterns switch.now.cases)) }
{
    match reset {
        Some(reset) => {
            let tests = reset.tests;
            tests
                .table
                .switch_test(alloc, tests.body, reset.bit, switch)
        }
        None => Ok(None),
    }
}
