//! Rules, by the forms in which they stand.

ghost use Rattle.std.specs.Prelude.{◌≡◌, Err, OnOk};
ghost use Rattle.net_index.specs.Builder.{IsInLimits, PassesLimit};
ghost use Rattle.proc_sync.specs.Rules.{beside_cell, is_beside, line_step, lines_step, run_cell};
ghost use Rattle.proc_sync.specs.Runs.{class_code, run_of};
ghost use Rattle.proc_sync.specs.Sources.{joins_in};

use crate::cells::{adff_cell, aldff_cell, dff_cell, dlatch_cell, ff_cell};
use crate::runs::{Class, Run, runs_of};
use crate::sources::Sources;
use net_index::{Builder, PassFault};
use rtl_ir::{Link, Trigger, joins};
use std::alloc::Global;

/// How rules stand: one at each step, one at a level, one at an edge, or one at an edge beside one at a level.
#[derive(Clone, Copy)]
pub(crate) enum Form<'a> {
    AtSteps,
    AtLevel(Trigger<'a>),
    AtEdge(Trigger<'a>),
    Beside(Trigger<'a>, Trigger<'a>),
}

/// Whether the class of a bit tells constants from bits of wires.
fn is_beside(form: &Form<'_>) -> bool
    ensures value { result ≡ is_beside form.now }
{
    matches!(form, Form::AtEdge(_) | Form::Beside(_, _))
}

/// The cell of a run of an edge rule beside a level rule.
fn beside_cell(
    alloc: Global,
    edge: &Trigger<'_>,
    level: &Trigger<'_>,
    sources: &Sources,
    run: &Run,
    builder: &mut Builder,
) -> Result<(), PassFault>
    ensures exact { OnOk result (builder.new ≡
        beside_cell edge.now level.now (class_code run.now.class)
        (joins_in sources.now) run.now.places.items builder.old) }
    ensures over { result ≡ Err PassFault.Over →
        PassesLimit (beside_cell edge.now level.now (class_code run.now.class)
        (joins_in sources.now) run.now.places.items builder.old) }
    ensures within { OnOk result (IsInLimits builder.new) }
{
    let places = run.places.as_slice();
    let given = sources.level_side(alloc, places)?;
    match run.class {
        Class::Plain => dff_cell(alloc, edge, places, builder),
        Class::Resets => adff_cell(alloc, edge, level, given.as_slice(), places, builder),
        Class::Loads => aldff_cell(alloc, edge, level, given.as_slice(), places, builder),
    }
}

/// The cell of a run. Of a rule at each step, or at a level, only a plain run has one.
fn run_cell(
    alloc: Global,
    form: &Form<'_>,
    sources: &Sources,
    run: &Run,
    builder: &mut Builder,
) -> Result<(), PassFault>
    ensures exact { OnOk result (builder.new ≡ run_cell form.now (joins_in sources.now) (run_of run.now) builder.old) }
    ensures over { result ≡ Err PassFault.Over →
        PassesLimit (run_cell form.now (joins_in sources.now) (run_of run.now) builder.old) }
    ensures within { IsInLimits builder.old → OnOk result (IsInLimits builder.new) }
{
    let places = run.places.as_slice();
    match (form, run.class) {
        (Form::AtSteps, Class::Plain) => ff_cell(alloc, places, builder),
        (Form::AtLevel(level), Class::Plain) => dlatch_cell(alloc, level, places, builder),
        (Form::AtEdge(edge), _) => dff_cell(alloc, edge, places, builder),
        (Form::Beside(edge, level), _) => beside_cell(alloc, edge, level, sources, run, builder),
        _ => Ok(()),
    }
}

/// The cells of the runs of a line.
fn line_step(
    alloc: Global,
    form: &Form<'_>,
    sources: &Sources,
    line: &Link,
    builder: &mut Builder,
) -> Result<(), PassFault>
    ensures exact { OnOk result (builder.new ≡ line_step form.now (joins_in sources.now) line.now builder.old) }
    ensures over { result ≡ Err PassFault.Over →
        PassesLimit (line_step form.now (joins_in sources.now) line.now builder.old) }
    ensures within { IsInLimits builder.old → OnOk result (IsInLimits builder.new) }
{
    let places = joins(alloc, line.left.as_slice(), line.right.as_slice())?;
    let runs = runs_of(alloc, sources, is_beside(form), places.as_slice())?;
    for run in runs.as_slice() {
        run_cell(alloc, form, sources, run, builder)?;
    }
    Ok(())
}

/// The cells of the lines of a rule. After an error the builder holds the cells of some.
pub(crate) fn lines_step(
    alloc: Global,
    form: &Form<'_>,
    sources: &Sources,
    lines: &[Link],
    builder: &mut Builder,
) -> Result<(), PassFault>
    ensures exact { OnOk result (builder.new ≡ lines_step form.now (joins_in sources.now) lines.now builder.old) }
    ensures over { result ≡ Err PassFault.Over →
        PassesLimit (lines_step form.now (joins_in sources.now) lines.now builder.old) }
    ensures within { IsInLimits builder.old → OnOk result (IsInLimits builder.new) }
{
    for line in lines {
        line_step(alloc, form, sources, line, builder)?;
    }
    Ok(())
}
