//! The assigns of a tree.

ghost use Rattle.std.specs.Prelude.{◌≡◌, ◌++◌, IfOk, OnOk};
ghost use Rattle.rtl_ir.specs.Assigns.{case_assigns, cases_assigns};

use rtl_bits::{Copied, Memory};
use rtl_ir::{Case, Link, Switch};
use std::alloc::Global;

/// The assigns in the case and below it, in order.
pub(crate) fn lines_of(alloc: Global, root: &Case) -> Result<Vec<Link>, Memory>
    ensures value { IfOk result (λ lines. lines.items ≡ case_assigns root.now) }
{
    let mut lines = Vec::new(alloc);
    put_case(&mut lines, root)?;
    Ok(lines)
}

/// Puts the assigns in the case and below it last.
#[cycle(lines)]
fn put_case(lines: &mut Vec<Link>, case: &Case) -> Result<(), Memory>
    ensures ok { OnOk result (lines.new.items ≡ lines.old.items ++ case_assigns case.now) }
{
    put_lines(lines, case.assigns.as_slice())?;
    for switch in &case.switches {
        put_switch(lines, switch)?;
    }
    Ok(())
}

/// Puts the assigns below the switch last.
#[cycle(lines)]
fn put_switch(lines: &mut Vec<Link>, switch: &Switch) -> Result<(), Memory>
    ensures ok { OnOk result (lines.new.items ≡ lines.old.items ++ cases_assigns switch.now.cases) }
{
    for case in &switch.cases {
        put_case(lines, case)?;
    }
    Ok(())
}

/// Puts copies of the assigns last.
fn put_lines(lines: &mut Vec<Link>, assigns: &[Link]) -> Result<(), Memory>
    ensures ok { OnOk result (lines.new.items ≡ lines.old.items ++ assigns.now) }
{
    for line in assigns {
        lines.push(line.copy()?)?;
    }
    Ok(())
}
