//! Runs: places of a line, one behind another, to which the level rule gives the same sort of thing.

ghost use Rattle.std.specs.Prelude.{◌≡◌, ◌∷◌, IfOk, Some, None, map};
ghost use Rattle.rtl_ir.specs.Follow.{source_at};
ghost use Rattle.net_model.specs.Proc.Sync.{classed, same_class};
ghost use Rattle.proc_sync.specs.Runs.{class_by, class_code, class_in, run_of};
ghost use Rattle.proc_sync.specs.Sources.{joins_in};

use crate::sources::Sources;
use rtl_bits::Memory;
use rtl_ir::Join;
use rtl_sig::SigBit;
use std::alloc::Global;
use std::mem;

/// The most bits of a run.
const MAX_RUN: usize = 4096;

/// What a level rule beside an edge rule gives a bit.
#[derive(Clone, Copy)]
pub(crate) enum Class {
    /// Nothing.
    Plain,
    /// A constant.
    Resets,
    /// A bit of a wire.
    Loads,
}

/// A run of places of one class.
#[derive(Drop)]
pub(crate) struct Run {
    pub(crate) class: Class,
    pub(crate) places: Vec<Join>,
}

/// Whether the two classes are the same.
pub(crate) fn same_class(a: Class, b: Class) -> bool
    ensures value { result ≡ same_class (class_code a) (class_code b) }
{
    matches!(
        (a, b),
        (Class::Plain, Class::Plain) | (Class::Resets, Class::Resets) | (Class::Loads, Class::Loads)
    )
}

/// The class of a bit that is given this. Where the level rule is not `beside`, it is plain or not.
fn class_by(beside: bool, source: Option<SigBit>) -> Class
    ensures value { class_code result ≡ class_by beside source }
{
    match source {
        None => Class::Plain,
        Some(SigBit::Fixed(_)) if beside => Class::Resets,
        Some(_) => Class::Loads,
    }
}

/// The class of the place.
fn class_at(sources: &Sources, beside: bool, place: Join) -> Class
    ensures value { class_code result ≡ class_by beside (source_at (joins_in sources.now) place.bit) }
{
    class_by(beside, sources.get(place.bit))
}

/// The places as the longest runs of one class, of at most 4,096 bits.
pub(crate) fn runs_of(
    alloc: Global,
    sources: &Sources,
    beside: bool,
    places: &[Join],
) -> Result<Vec<Run>, Memory>
    ensures value { IfOk result (λ runs. map run_of runs.items ≡
        classed (class_in (joins_in sources.now) beside) places.now) }
{
    match places {
        [] => Ok(Vec::new(alloc)),
        [first, rest @ ..] => runs_from(alloc, sources, beside, *first, rest),
    }
}

/// The runs of a place and those behind it, in order.
fn runs_from(
    alloc: Global,
    sources: &Sources,
    beside: bool,
    first: Join,
    rest: &[Join],
) -> Result<Vec<Run>, Memory>
    ensures value { IfOk result (λ runs. map run_of runs.items ≡
        classed (class_in (joins_in sources.now) beside) ((first ∷ rest.now))) }
{
    let mut runs = Vec::new(alloc);
    let mut class = class_at(sources, beside, first);
    let mut run = Vec::from_slice(alloc, &[first])?;
    for place in rest {
        let next = class_at(sources, beside, *place);
        if same_class(class, next) && run.len() < MAX_RUN {
            run.push(*place)?;
        } else {
            let begun = Vec::from_slice(alloc, &[*place])?;
            let places = mem::replace(&mut run, begun);
            runs.push(Run { class, places })?;
            class = next;
        }
    }
    runs.push(Run { class, places: run })?;
    Ok(runs)
}
