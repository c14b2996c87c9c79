//! What is told of an error's line: the place, the cause in words with its names, and a hint.

use crate::causes::Cause;
use crate::drivers::{Driver, drivers_of};
use crate::found::{Found, Item, bit_named, find, source_of};
use crate::pick::{driven_cause, row_at, row_named, row_of};
use crate::text_cause::{is_blank, is_verilog, syntax_cause};
use net_index::Types;
use rtl_bits::{Memory, Text};
use rtl_ir::Design;
use rtl_read::read;
use std::alloc::Global;
use std::str::from_utf8;

/// An error's line: its number, and the words after it.
#[derive(Drop)]
struct Line<'a> {
    error: u32,
    fields: Vec<&'a [u8]>,
}

/// The line of a reply. Its number is 0 where it is none of an error.
fn line_of<'a>(alloc: Global, reply: &'a [u8]) -> Result<Line<'a>, Memory> {
    let mut fields = Vec::new(alloc);
    let line = match reply.strip_suffix(b"\n") {
        Some(line) => line,
        None => reply,
    };
    for field in line.split(|byte| *byte == b' ').skip(2) {
        fields.push(field)?;
    }
    let error = match line.split(|byte| *byte == b' ').nth(1) {
        Some(digits) => number_in(digits),
        None => 0,
    };
    Ok(Line { error, fields })
}

/// The number that the digits write, or 0.
fn number_in(digits: &[u8]) -> u32 {
    match from_utf8(digits) {
        Ok(digits) => match digits.parse::<u32>() {
            Ok(number) => number,
            Err(_) => 0,
        },
        Err(_) => 0,
    }
}

/// What is told of an input without a module.
pub(crate) fn told_empty(alloc: Global, text: &[u8]) -> Result<Text, Memory> {
    let mut told = Text::make(alloc);
    if is_blank(text) {
        if let Some(cause) = row_of(0) {
            told.extend(b"rtlsyn: ")?;
            told.extend(cause.words.as_bytes())?;
            put_hint(&mut told, cause, b"")?;
        }
    }
    Ok(told)
}

/// What is told of an error's line, where the text is the input of this name.
pub(crate) fn told_error(
    alloc: Global,
    name: &str,
    text: &[u8],
    reply: &[u8],
) -> Result<Text, Memory> {
    let line = line_of(alloc, reply)?;
    match line.error {
        0 => Ok(Text::make(alloc)),
        1..=6 | 17 => told_text(alloc, name, text, &line),
        20 => told_over(alloc, &line),
        _ => told_design(alloc, text, &line),
    }
}

/// Writes a row: its words, the names, and its hint.
fn put_row(
    told: &mut Text,
    error: u32,
    row: Option<&'static Cause>,
    kind: &[u8],
    names: &[u8],
) -> Result<(), Memory> {
    let Some(cause) = row else {
        return Ok(());
    };
    told.extend(b"error ")?;
    told.extend(error.to_string(told.allocator())?.as_bytes())?;
    told.extend(b": ")?;
    put_words(told, cause.words, kind)?;
    told.extend(names)?;
    put_hint(told, cause, kind)
}

/// Writes the line of the hint.
fn put_hint(told: &mut Text, cause: &Cause, kind: &[u8]) -> Result<(), Memory> {
    told.extend(b"\nhint: ")?;
    put_words(told, cause.hint, kind)?;
    told.extend(b"\n")
}

/// Writes words, with the type in the places of `@`.
fn put_words(told: &mut Text, words: &str, kind: &[u8]) -> Result<(), Memory> {
    let mut between = b"".as_slice();
    for part in words.as_bytes().split(|byte| *byte == b'@') {
        told.extend(between)?;
        told.extend(part)?;
        between = kind;
    }
    Ok(())
}

/// What is told of an error of the text.
fn told_text(alloc: Global, name: &str, text: &[u8], line: &Line) -> Result<Text, Memory> {
    let place = match line.fields.as_slice() {
        [place, ..] => from_utf8(place).unwrap_or(""),
        [] => "",
    };
    let row = match line.error {
        1 | 2 if is_verilog(text) => row_named(line.error, "verilog"),
        2 => row_named(2, syntax_cause(text, place)),
        17 if place == "input" => row_named(17, "long-input"),
        error => row_of(error),
    };
    let mut told = Text::from_slice(alloc, name.as_bytes())?;
    told.extend(b":")?;
    if place != "input" {
        told.extend(place.as_bytes())?;
        told.extend(b":")?;
    }
    told.extend(b" ")?;
    put_row(&mut told, line.error, row, b"", b"")?;
    Ok(told)
}

/// What is told of error 20, which names the pass.
fn told_over(alloc: Global, line: &Line) -> Result<Text, Memory> {
    let mut names = Text::make(alloc);
    if let [module, pass, ..] = line.fields.as_slice() {
        put_name(&mut names, b" (module ", module)?;
        put_name(&mut names, b", pass ", pass)?;
        names.extend(b")")?;
    }
    let mut told = Text::make(alloc);
    put_row(&mut told, 20, row_of(20), b"", names.as_slice())?;
    Ok(told)
}

/// Writes a word and a name.
fn put_name(names: &mut Text, word: &[u8], name: &[u8]) -> Result<(), Memory> {
    names.extend(word)?;
    names.extend(name)
}

/// What is told of an error of the design.
fn told_design(alloc: Global, text: &[u8], line: &Line) -> Result<Text, Memory> {
    let Ok(design) = read(alloc, text) else {
        return Err(Memory);
    };
    let types = Types::of_design(alloc, design.modules.as_slice())?;
    let Some(found) = find(&design, line.fields.as_slice()) else {
        return Err(Memory);
    };
    let mut told = Text::make(alloc);
    put_source(&mut told, found)?;
    let mut names = Text::make(alloc);
    put_names(&mut names, line, found)?;
    let row = if line.error == 12 {
        row_driven(alloc, &types, line, found, &mut names)?
    } else {
        row_at(alloc, &types, &design, line.error, found)?
    };
    names.extend(b")")?;
    put_row(
        &mut told,
        line.error,
        row,
        type_of(found.item),
        names.as_slice(),
    )?;
    Ok(told)
}

/// The type of a cell; empty for anything else.
fn type_of(item: Item<'_>) -> &[u8] {
    match item {
        Item::Cell(cell) => cell.kind_name.as_slice(),
        _ => b"",
    }
}

/// Writes the place in the source, as `pow.v:1:65`, where it is known.
fn put_source(told: &mut Text, found: Found<'_>) -> Result<(), Memory> {
    let Some(source) = source_of(found) else {
        return Ok(());
    };
    let first = source.split(|byte| *byte == b'|').next().unwrap_or(source);
    let mut parts = first.rsplitn(2, |byte| *byte == b':');
    if let (Some(range), Some(file)) = (parts.next(), parts.next()) {
        told.extend(file)?;
        told.extend(b":")?;
        put_start(told, range)?;
        told.extend(b": ")?;
    }
    Ok(())
}

/// Writes where a range as `1.65-1.70` begins, as `1:65`.
fn put_start(told: &mut Text, range: &[u8]) -> Result<(), Memory> {
    for byte in range {
        match *byte {
            b'-' => return Ok(()),
            b'.' => told.extend(b":")?,
            other => told.push(other)?,
        }
    }
    Ok(())
}

/// Writes the names of an error's line, each with what it is.
fn put_names(names: &mut Text, line: &Line, found: Found<'_>) -> Result<(), Memory> {
    put_name(names, b" (module ", found.module.id.as_slice())?;
    match line.fields.as_slice() {
        [] | [_] => Ok(()),
        [_, name] => put_name(names, item_word(found.item), name),
        [_, name, number, ..] => match found.item {
            Item::Connection => put_name(names, b", connection ", number),
            item => {
                put_name(names, item_word(item), name)?;
                put_name(names, b", bit ", number)
            }
        },
    }
}

/// The word for what is at fault.
fn item_word(item: Item<'_>) -> &'static [u8] {
    match item {
        Item::Module | Item::Connection => b", ",
        Item::Wire(_) => b", wire ",
        Item::Store(_) => b", memory ",
        Item::Cell(_) => b", cell ",
        Item::Process(_) => b", process ",
    }
}

/// The row of error 12. Both drivers are written to the names.
fn row_driven(
    alloc: Global,
    types: &Types,
    line: &Line,
    found: Found<'_>,
    names: &mut Text,
) -> Result<Option<&'static Cause>, Memory> {
    let (Item::Wire(wire), [_, name, at, ..]) = (found.item, line.fields.as_slice()) else {
        return Ok(row_of(12));
    };
    let Some(bit) = bit_named(found.module, name, number_in(at)) else {
        return Ok(row_of(12));
    };
    let drivers = drivers_of(alloc, types, found.module, bit)?;
    put_drivers(names, drivers.as_slice())?;
    let cause = driven_cause(types, found.module, wire, bit, drivers.as_slice());
    Ok(row_named(12, cause))
}

/// Writes what drives a bit.
fn put_drivers(names: &mut Text, drivers: &[Driver]) -> Result<(), Memory> {
    let mut word = b"; driven by ".as_slice();
    for driver in drivers {
        names.extend(word)?;
        put_driver(names, *driver)?;
        word = b" and ";
    }
    Ok(())
}

/// Writes a driver.
fn put_driver(names: &mut Text, driver: Driver) -> Result<(), Memory> {
    match driver {
        Driver::Cell(cell) => put_name(names, b"cell ", cell.name.as_slice()),
        Driver::Process(process) => put_name(names, b"process ", process.name.as_slice()),
        Driver::Connection(number) => {
            let digits = number.to_string(names.allocator())?;
            put_name(names, b"connection ", digits.as_bytes())
        }
    }
}
