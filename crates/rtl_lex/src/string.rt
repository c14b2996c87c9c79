//! Strings in double quotes.

ghost use Rattle.std.specs.Prelude.{◌≡◌, ◌+◌, ◌<◌, ◌≤◌, length, take, drop, IfOk, IfSome};
ghost use Rattle.std.specs.List.{prefix_len};
ghost use Rattle.rtl_lex.specs.Bytes.{is_octal};
ghost use Rattle.rtl_lex.specs.Strings.{escape, char_front, is_own, string_len, chars_of};

use crate::number::octal;
use rtl_bits::{Memory, Text};
use std::alloc::Global;

/// How many octal digits stand at the front, three at most.
fn octals(bytes: &[u8]) -> usize
    ensures run { result ≡ prefix_len is_octal (take 3 bytes.now) }
    ensures within { result ≤ length bytes.now }
{
    let first = &bytes[..bytes.len().min(3)];
    first
        .iter()
        .take_while(|b| **b >= b'0' && **b <= b'7')
        .count()
}

/// The character of the escape that stands behind a backslash, and how many bytes write it, the
/// backslash among them.
fn escape(bytes: &[u8]) -> Option<(u8, usize)>
    ensures value { result ≡ escape bytes.now }
    ensures some { IfSome result (λ c. (0 < c.1) × (c.1 ≤ length bytes.now + 1)) }
{
    if bytes.is_empty() {
        return None;
    }
    match bytes[0] {
        b'0'..=b'7' => {
            let count = octals(bytes);
            let char = octal(&bytes[..count])?;
            if char == 0 {
                None
            } else {
                Some((char, count + 1))
            }
        }
        b'n' => Some((b'\n', 2)),
        b't' => Some((b'\t', 2)),
        0 => None,
        other => Some((other, 2)),
    }
}

/// The character at the front, and how many bytes write it. None at a quote, where there is no
/// character, and at the end.
fn char_front(bytes: &[u8]) -> Option<(u8, usize)>
    ensures value { result ≡ char_front bytes.now }
    ensures some { IfSome result (λ c. (0 < c.1) × (c.1 ≤ length bytes.now)) }
{
    if bytes.is_empty() {
        return None;
    }
    match bytes[0] {
        b'\\' => escape(&bytes[1..]),
        b'"' | 0 => None,
        other => Some((other, 1)),
    }
}

/// Whether the byte writes itself.
fn is_own(byte: u8) -> bool
    ensures { result ≡ is_own byte }
{
    byte != 0 && byte != b'"' && byte != b'\\'
}

/// How many bytes stand first that write themselves.
fn owns(bytes: &[u8]) -> usize
    ensures run { result ≡ prefix_len is_own bytes.now }
    ensures within { result ≤ length bytes.now }
{
    bytes.iter().take_while(|b| is_own(**b)).count()
}

/// How many bytes the rest of a string has behind its opening quote, the closing quote among them.
/// None where no string goes on so.
pub fn string_len(bytes: &[u8]) -> Option<usize>
    ensures value { result ≡ string_len bytes.now }
    ensures some { IfSome result (λ n. (0 < n) × (n ≤ length bytes.now)) }
{
    let mut at = owns(bytes);
    while let Some((_, count)) = char_front(&bytes[at..]) {
        at += count;
    }
    if at < bytes.len() && bytes[at] == b'"' {
        Some(at + 1)
    } else {
        None
    }
}

/// What stands behind the opening quote.
fn body_of(text: &[u8]) -> &[u8]
    ensures value { result.now ≡ drop 1 text.now }
{
    if text.is_empty() { text } else { &text[1..] }
}

/// The characters that the text of a string token stands for.
///
/// `\n`, `\t` and one to three octal digits behind a backslash are escapes; any other byte behind a
/// backslash stands for itself.
pub fn chars_of(alloc: Global, text: &[u8]) -> Result<Text, Memory>
    ensures value { IfOk result (λ chars. chars ≡ chars_of text.now) }
{
    let body = body_of(text);
    let mut at = owns(body);
    let mut chars = Text::from_slice(alloc, &body[..at])?;
    while let Some((char, count)) = char_front(&body[at..]) {
        chars.push(char)?;
        at += count;
    }
    Ok(chars)
}
