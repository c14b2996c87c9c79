//! Parts are evaluated until no part has to be.

ghost use Rattle.std.specs.Prelude.{◌≡◌, ◌<◌, List, [], ◌∷◌, IfOk, IsTrue, OnOk, false, length, true};
ghost use Rattle.rtl_ir.specs.Flat.Place.{Place};
ghost use Rattle.net_model.specs.Run.{Time};
ghost use Rattle.flat_net.specs.Parts.{given_row, join_row, part_rows, parts_rows};
ghost use Rattle.flat_net.specs.Points.{AreApart};
ghost use Rattle.flat_net.specs.Within.{ArePartsWithin, IsPartWithin, IsPointWithin};
ghost use Rattle.sim_eval.specs.Advance.{Advances, AreFewer, AreLeast};
ghost use Rattle.sim_eval.specs.Agenda.{IsSettling, IsUnmarked, Tells};
ghost use Rattle.sim_eval.specs.Drives.{driven};
ghost use Rattle.sim_eval.specs.Limits.{are_computable, is_part_computable};
ghost use Rattle.sim_eval.specs.Moment.{HasBefore, IsBoard, time_of};
ghost use Rattle.sim_eval.specs.Numbers.{given_of};
ghost use Rattle.sim_eval.specs.Reads.{AreRead};

use crate::agenda::Agenda;
use crate::cell::update_logic;
use crate::fetched::update_fetched;
use crate::held::update_held;
use crate::moment::Moment;
use crate::raced::update_raced;
use crate::readers::Readers;
use crate::remembered::update_remembered;
use crate::store::update_storage;
use crate::tree::update_tree;
use crate::values::{bit_at, passed, put, read};
use flat_net::{Join, Output, Part};
use rtl_bits::{Bit, Memory};
use std::alloc::Global;

/// The values that the parts settle to, of this many bits.
pub(crate) fn settle(
    alloc: Global,
    moment: &Moment,
    parts: &[Part],
    readers: &Readers,
    count: usize,
) -> Result<Vec<Bit>, Memory>
    requires computable { IsTrue (are_computable parts.now) }
    requires read { AreRead readers.now parts.now count }
    ensures count { IfOk result (λ now. length now.items ≡ count) }
    ensures least { IfOk result (λ now. (ps : List Place) → AreApart ps → length ps ≡ count → HasBefore ps moment.now →
        ArePartsWithin (length ps) parts.now →
        AreLeast ps (time_of ps moment.now) (parts_rows ps parts.now) now.items) }
{
    let mut now = vec![in alloc; Bit::X; count]?;
    let mut agenda = Agenda::whole(alloc, parts.len(), count)?;
    settle_all(alloc, moment, parts, readers, &mut agenda, &mut now)?;
    Ok(now)
}

/// Evaluates parts until none is to be evaluated.
fn settle_all(
    alloc: Global,
    moment: &Moment,
    parts: &[Part],
    readers: &Readers,
    agenda: &mut Agenda,
    now: &mut [Bit],
) -> Result<(), Memory>
    requires computable { IsTrue (are_computable parts.now) }
    requires read { AreRead readers.now parts.now (length now.old) }
    requires sized { length agenda.old.marks.items ≡ length parts.now }
    ensures least { OnOk result ((ps : List Place) → IsBoard ps moment.now now.old →
        ArePartsWithin (length ps) parts.now →
        IsSettling ps (time_of ps moment.now) parts.now agenda.old now.old →
        AreLeast ps (time_of ps moment.now) (parts_rows ps parts.now) now.new) }
{
    while change(alloc, moment, parts, readers, agenda, now)? {}
    Ok(())
}

/// Evaluates one part after another until one gives a bit its value. Answers whether one did.
fn change(
    alloc: Global,
    moment: &Moment,
    parts: &[Part],
    readers: &Readers,
    agenda: &mut Agenda,
    now: &mut [Bit],
) -> Result<bool, Memory>
    requires computable { IsTrue (are_computable parts.now) }
    requires read { AreRead readers.now parts.now (length now.old) }
    requires sized { length agenda.old.marks.items ≡ length parts.now }
    ensures sized { IfOk result (λ _. length agenda.new.marks.items ≡ length parts.now) }
    ensures fewer { IfOk result (AreFewer now.old now.new) }
    ensures settling { IfOk result (λ changed. (ps : List Place) → IsBoard ps moment.now now.old →
        ArePartsWithin (length ps) parts.now →
        IsSettling ps (time_of ps moment.now) parts.now agenda.old now.old →
        IsSettling ps (time_of ps moment.now) parts.now agenda.new now.new ×
        (changed ≡ false → IsUnmarked agenda.new)) }
{
    while let Some(place) = agenda.next() {
        if evaluate(alloc, moment, &parts[place], readers, agenda, now)? {
            return Ok(true);
        }
    }
    Ok(false)
}

/// Gives the bits that the part drives their values, and tells their readers. Answers whether one of them got one.
fn evaluate(
    alloc: Global,
    moment: &Moment,
    part: &Part,
    readers: &Readers,
    agenda: &mut Agenda,
    now: &mut [Bit],
) -> Result<bool, Memory>
    requires computable { IsTrue (is_part_computable part.now) }
    ensures fewer { IfOk result (AreFewer now.old now.new) }
    ensures advances { IfOk result (λ changed. (ps : List Place) → IsBoard ps moment.now now.old →
        IsPartWithin (length ps) part.now →
        Advances ps (time_of ps moment.now) (part_rows ps part.now) now.old now.new changed) }
    ensures tells { IfOk result (λ changed. changed ≡ true →
        Tells agenda.old agenda.new readers.now now.new (driven part.now)) }
    ensures still { IfOk result (λ changed. changed ≡ false → agenda.new ≡ agenda.old) }
{
    if !update(alloc, moment, part, now)? {
        return Ok(false);
    }
    agenda.tell_part(part, readers, now)?;
    Ok(true)
}

/// Gives the bits that the part drives their values. Answers whether one of them got one.
fn update(alloc: Global, moment: &Moment, part: &Part, now: &mut [Bit]) -> Result<bool, Memory>
    requires computable { IsTrue (is_part_computable part.now) }
    ensures fewer { IfOk result (AreFewer now.old now.new) }
    ensures advances { IfOk result (λ changed. (ps : List Place) → IsBoard ps moment.now now.old →
        IsPartWithin (length ps) part.now →
        Advances ps (time_of ps moment.now) (part_rows ps part.now) now.old now.new changed) }
{
    match part {
        Part::Given(output) => Ok(update_given(moment, *output, now)),
        Part::Joined(join) => Ok(update_joined(*join, now)),
        Part::Logic(cell) => update_logic(alloc, cell, now),
        Part::Storage(cell) => Ok(update_storage(moment, cell, now)),
        Part::Tree(tree) => update_tree(alloc, tree, now),
        Part::Held(held) => update_held(alloc, moment, held, now),
        Part::Raced(raced) => update_raced(alloc, moment, raced, now),
        Part::Remembered(words) => update_remembered(alloc, moment, words, now),
        Part::Fetched(fetched) => update_fetched(alloc, fetched, now),
    }
}

/// Gives a bit that the input vector drives its value. Answers whether it got one.
fn update_given(moment: &Moment, output: Output, now: &mut [Bit]) -> bool
    ensures fewer { AreFewer now.old now.new result }
    ensures advances { (ps : List Place) → IsBoard ps moment.now now.old → output.number < length ps →
        Advances ps (time_of ps moment.now) (given_row ps output ∷ []) now.old now.new result }
{
    put(now, output.number, given(moment, output.at))
}

/// Gives a bit that a connection drives its value. Answers whether it got one.
fn update_joined(join: Join, now: &mut [Bit]) -> bool
    ensures fewer { AreFewer now.old now.new result }
    ensures advances { (ps : List Place) → AreApart ps → length ps ≡ length now.old → join.to < length ps →
        IsPointWithin (length ps) join.from →
        (t : Time Place) → Advances ps t (join_row ps join ∷ []) now.old now.new result }
{
    let value = passed(read(now, join.from));
    put(now, join.to, value)
}

/// What the input vector gives at a place.
fn given(moment: &Moment, at: u32) -> Bit
    ensures value { result ≡ given_of moment.now at }
{
    match moment {
        Moment::Start => Bit::X,
        Moment::Step { inputs, .. } => bit_at(inputs, at),
    }
}
