//! Why a text is not read (errors 1 and 2), as far as its lines show it.

/// The line with this number, from 1; empty where there is none.
fn line_of(text: &[u8], number: usize) -> &[u8] {
    match text
        .split(|byte| *byte == b'\n')
        .nth(number.saturating_sub(1))
    {
        Some(line) => line,
        None => &[],
    }
}

/// What stands from this column on, from 1.
fn rest_of(line: &[u8], column: usize) -> &[u8] {
    match line.get(column.saturating_sub(1)..) {
        Some(rest) => rest,
        None => &[],
    }
}

/// The numbers of a place, as `18:15`.
fn numbers_of(place: &str) -> Option<(usize, usize)> {
    let (line, column) = place.split_once(':')?;
    match (line.parse::<usize>(), column.parse::<usize>()) {
        (Ok(line), Ok(column)) => Some((line, column)),
        _ => None,
    }
}

/// The name of the cause of error 2 at this place.
pub(crate) fn syntax_cause(text: &[u8], place: &str) -> &'static str {
    let Some((number, column)) = numbers_of(place) else {
        return "word";
    };
    let line = line_of(text, number);
    let rest = rest_of(line, column);
    if rest.starts_with(b"real") {
        "real-parameter"
    } else if rest.starts_with(b"d") && line.contains(&b'\'') {
        "decimal-constant"
    } else if rest.is_empty() && line_of(text, number.saturating_add(1)).is_empty() {
        "cut-off"
    } else {
        "word"
    }
}

/// Whether the byte is a blank within a line.
fn is_space(byte: u8) -> bool {
    matches!(byte, b' ' | b'\t' | b'\r')
}

/// The line without the blanks that it begins with.
fn trimmed(line: &[u8]) -> &[u8] {
    let Some(at) = line.iter().position(|byte| !is_space(*byte)) else {
        return &[];
    };
    match line.get(at..) {
        Some(rest) => rest,
        None => &[],
    }
}

/// Whether the text has nothing but blanks.
pub(crate) fn is_blank(text: &[u8]) -> bool {
    text.iter().all(|byte| is_space(*byte) || *byte == b'\n')
}

/// Whether the text is Verilog, by its first line with anything in it.
pub(crate) fn is_verilog(text: &[u8]) -> bool {
    for line in text.split(|byte| *byte == b'\n') {
        let line = trimmed(line);
        if !line.is_empty() {
            return begins_verilog(line);
        }
    }
    false
}

/// Whether the first line of a text is one of Verilog: a comment, a directive, an attribute, or a module whose name has
/// no backslash.
fn begins_verilog(line: &[u8]) -> bool {
    if let Some(name) = line.strip_prefix(b"module ") {
        return !matches!(trimmed(name), [] | [b'\\' | b'$', ..]);
    }
    matches!(
        line,
        [b'`', ..] | [b'/', b'/' | b'*', ..] | [b'(', b'*', ..]
    )
}
