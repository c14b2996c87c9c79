//! What a line says outside a block.

ghost use Rattle.std.specs.Prelude.{◌≡◌, IfOk, map};
ghost use Rattle.desk_read.specs.Heads.{four_words, head_by, head_of, sim_of, three_words, word_alone, word_and_name};

use crate::command::Command;
use crate::words::{first_words, text_behind};
use net_model::Order;
use rtl_bits::{Memory, Text};
use std::alloc::Global;

/// What a line says outside a block.
#[derive(Drop)]
pub(crate) enum Head {
    /// Nothing: it has no word.
    Blank,
    /// A command without a block.
    Whole(Command),
    /// The command of the block that begins behind it.
    Opens(Opening),
}

/// How a block is opened.
#[derive(Drop)]
pub(crate) enum Opening {
    Load,
    Edit,
    SimSource(Simulated),
    SimNetlist(Simulated),
}

/// The module that a simulation is of, and the order of time.
#[derive(Drop)]
pub(crate) struct Simulated {
    pub module: Text,
    pub order: Order,
}

/// What the line says.
pub(crate) fn head_of(alloc: Global, line: &[u8]) -> Result<Head, Memory>
    ensures value { IfOk result (λ head. head ≡ head_of line.now) }
{
    let words = first_words(alloc, line)?;
    head_by(alloc, words.as_slice(), line)
}

/// What a line with these words says.
fn head_by(alloc: Global, words: &[&[u8]], line: &[u8]) -> Result<Head, Memory>
    ensures value { IfOk result (λ head. head ≡ head_by (map (λ word. word.now) words.now) line.now) }
{
    match words {
        [] => Ok(Head::Blank),
        [word, ..] if *word == b"script".as_slice() => {
            let text = Text::from_slice(alloc, text_behind(word.len(), line))?;
            Ok(Head::Whole(Command::Script(text)))
        }
        [word] => Ok(word_alone(word)),
        [word, name] => word_and_name(alloc, word, name),
        [word, which, name] => three_words(alloc, word, which, name),
        [word, which, name, order] => four_words(alloc, word, which, name, order),
        _ => Ok(Head::Whole(Command::Bad)),
    }
}

/// What a word alone says.
fn word_alone(word: &[u8]) -> Head
    ensures value { result ≡ word_alone word.now }
{
    if word == b"load".as_slice() {
        Head::Opens(Opening::Load)
    } else if word == b"edit".as_slice() {
        Head::Opens(Opening::Edit)
    } else if word == b"run".as_slice() {
        Head::Whole(Command::Run)
    } else if word == b"print".as_slice() {
        Head::Whole(Command::Print)
    } else if word == b"version".as_slice() {
        Head::Whole(Command::Version)
    } else if word == b"modules".as_slice() {
        Head::Whole(Command::Modules)
    } else if word == b"quit".as_slice() {
        Head::Whole(Command::Quit)
    } else {
        Head::Whole(Command::Bad)
    }
}

/// What a word and the name of a module say.
fn word_and_name(alloc: Global, word: &[u8], name: &[u8]) -> Result<Head, Memory>
    ensures value { IfOk result (λ head. head ≡ word_and_name word.now name.now) }
{
    if word == b"drop".as_slice() {
        Ok(Head::Whole(Command::Remove(Text::from_slice(alloc, name)?)))
    } else if word == b"show".as_slice() {
        Ok(Head::Whole(Command::Show(Text::from_slice(alloc, name)?)))
    } else if word == b"ports".as_slice() {
        Ok(Head::Whole(Command::Ports(Text::from_slice(alloc, name)?)))
    } else {
        Ok(Head::Whole(Command::Bad))
    }
}

/// What three words say: those of a simulation in the first order of time, or nothing.
fn three_words(alloc: Global, word: &[u8], which: &[u8], name: &[u8]) -> Result<Head, Memory>
    ensures value { IfOk result (λ head. head ≡ three_words word.now which.now name.now) }
{
    if word == b"sim".as_slice() {
        sim_of(alloc, which, name, Order::Together)
    } else {
        Ok(Head::Whole(Command::Bad))
    }
}

/// What four words say: those of a simulation in the second order of time, or nothing.
fn four_words(
    alloc: Global,
    word: &[u8],
    which: &[u8],
    name: &[u8],
    order: &[u8],
) -> Result<Head, Memory>
    ensures value { IfOk result (λ head. head ≡ four_words word.now which.now name.now order.now) }
{
    if word == b"sim".as_slice() && order == b"released".as_slice() {
        sim_of(alloc, which, name, Order::Released)
    } else {
        Ok(Head::Whole(Command::Bad))
    }
}

/// What `sim`, a word, the name of a module and an order of time say.
fn sim_of(alloc: Global, which: &[u8], name: &[u8], order: Order) -> Result<Head, Memory>
    ensures value { IfOk result (λ head. head ≡ sim_of which.now name.now order) }
{
    if which == b"source".as_slice() {
        let module = Text::from_slice(alloc, name)?;
        Ok(Head::Opens(Opening::SimSource(Simulated { module, order })))
    } else if which == b"netlist".as_slice() {
        let module = Text::from_slice(alloc, name)?;
        Ok(Head::Opens(Opening::SimNetlist(Simulated { module, order })))
    } else {
        Ok(Head::Whole(Command::Bad))
    }
}
