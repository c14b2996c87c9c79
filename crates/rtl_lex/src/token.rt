//! Tokens.

ghost use Rattle.std.specs.Prelude.{◌≡◌, ◌+◌, length, take, drop, Some, None, IfSome, IfOk, ◌≤◌, ◌<◌};
ghost use Rattle.rtl_lex.specs.Place.{IsPlaceIn, moved};
ghost use Rattle.rtl_lex.specs.Tokens.{
  token_at,
  seen,
  front,
  is_plain,
  minus_front,
  name_front,
  string_front,
  number_front,
};

use crate::number::int_of;
use crate::place::{Place, along, forward};
use crate::scan::{bits, digits, gap, letters, name_bytes};
use crate::string::string_len;
use crate::value::sign_len;
use thiserror::Error;

/// What a token is.
#[derive(Clone, Copy, Debug, PartialEq, Eq)]
pub enum TokenKind {
    /// Lower-case letters.
    Word,
    /// One of `[ ] { } : ,`.
    Mark,
    /// An identifier: `\` or `$`, and one or more bytes above 32.
    Id,
    /// A constant with a width: digits, `'`, an optional `s`, and bits from `0 1 x z m -`.
    Value,
    /// Decimal digits behind an optional `-`.
    Int,
    /// A string in double quotes.
    Chars,
    /// An end of line with all blanks, comments and ends of lines behind it; or the end of the text.
    Line,
}

/// A token, its slice of the text, its place and the place behind it.
#[derive(Clone, Copy, Debug)]
pub struct Token<'a> {
    pub kind: TokenKind,
    pub text: &'a [u8],
    pub place: Place,
    pub next: Place,
}

/// Why there is no token.
#[derive(Clone, Copy, Debug, PartialEq, Eq, Error)]
pub enum LexFault {
    /// No token begins at this byte, or a string begins here that no text goes on with: it has no
    /// closing quote, a NUL byte, or an octal escape of 0 or over 255.
    #[error("no token at {0}")]
    Lex(Place),
    /// The integer that begins here lies outside -2147483648 to 2147483647.
    #[error("integer out of range at {0}")]
    Int(Place),
}

/// An identifier, given what stands behind its first byte.
fn name_front(bytes: &[u8]) -> Option<(TokenKind, usize)>
    ensures front { result ≡ name_front bytes.now }
    ensures within { IfSome result (λ found. (0 < found.1) × (found.1 ≤ length bytes.now + 1)) }
{
    let count = name_bytes(bytes);
    if count == 0 {
        None
    } else {
        Some((TokenKind::Id, count + 1))
    }
}

/// An integer, given what stands behind its minus.
fn minus_front(bytes: &[u8]) -> Option<(TokenKind, usize)>
    ensures front { result ≡ minus_front bytes.now }
    ensures within { IfSome result (λ found. (0 < found.1) × (found.1 ≤ length bytes.now + 1)) }
{
    let count = digits(bytes);
    if count == 0 {
        None
    } else {
        Some((TokenKind::Int, count + 1))
    }
}

/// A string, given what stands behind its opening quote.
fn string_front(bytes: &[u8]) -> Option<(TokenKind, usize)>
    ensures front { result ≡ string_front bytes.now }
    ensures within { IfSome result (λ found. (0 < found.1) × (found.1 ≤ length bytes.now + 1)) }
{
    let count = string_len(bytes)?;
    Some((TokenKind::Chars, count + 1))
}

/// A value or an integer, whose first byte is a digit.
fn number_front(bytes: &[u8]) -> (TokenKind, usize)
    ensures front { result ≡ number_front bytes.now }
    ensures within { result.1 ≤ length bytes.now }
{
    let count = digits(bytes);
    if count < bytes.len() && bytes[count] == b'\'' {
        let tail = &bytes[count + 1..];
        let sign = sign_len(tail);
        (TokenKind::Value, count + 1 + sign + bits(&tail[sign..]))
    } else {
        (TokenKind::Int, count)
    }
}

/// The kind and the length of the token at the front, which is no blank.
fn front(bytes: &[u8]) -> Option<(TokenKind, usize)>
    ensures front { result ≡ front bytes.now }
    ensures within { IfSome result (λ found. found.1 ≤ length bytes.now) }
    ensures some { IfSome result (λ found. 0 < length bytes.now → 0 < found.1) }
    ensures line { 0 ≡ length bytes.now → IfSome result (λ found. found.0 ≡ TokenKind.Line) }
{
    if bytes.is_empty() {
        return Some((TokenKind::Line, 0));
    }
    match bytes[0] {
        b'\n' | b'\r' => Some((TokenKind::Line, gap(bytes, true))),
        b'a'..=b'z' => Some((TokenKind::Word, letters(bytes))),
        b'[' | b']' | b'{' | b'}' | b':' | b',' => Some((TokenKind::Mark, 1)),
        b'\\' | b'$' => name_front(&bytes[1..]),
        b'"' => string_front(&bytes[1..]),
        b'-' => minus_front(&bytes[1..]),
        b'0'..=b'9' => Some(number_front(bytes)),
        _ => None,
    }
}

/// Whether no token of this kind has an end of line in it.
fn is_plain(kind: TokenKind) -> bool
    ensures value { result ≡ is_plain kind }
{
    match kind {
        TokenKind::Chars | TokenKind::Line => false,
        _ => true,
    }
}

/// The place behind the token of this kind and so many bytes that begins at a place.
fn token_end(text: &[u8], from: Place, kind: TokenKind, count: usize) -> Place
    requires place { IsPlaceIn text.now from }
    requires within { from.at + count ≤ length text.now }
    requires token { front (drop from.at text.now) ≡ Some (kind, count) }
    ensures moved { result ≡ moved from (take count (drop from.at text.now)) }
    ensures place { IsPlaceIn text.now result }
    ensures at { result.at ≡ from.at + count }
{
    if is_plain(kind) {
        along(text, from, count)
    } else {
        forward(text, from, count)
    }
}

/// The first token from a place on, behind the blanks and comments that stand there.
///
/// It is as long as it can be. At the end of the text it is an end of line of no bytes.
#[tactic(auto, unfolding(crate::specs::Tokens::token_at))]
pub fn next_token(text: &[u8], from: Place) -> Result<Token<'_>, LexFault>
    requires { IsPlaceIn text.now from }
    ensures token { seen result ≡ token_at (drop from.at text.now) from }
    ensures placed { IfOk result (λ t. IsPlaceIn text.now t.next × (from.at ≤ t.next.at)) }
    ensures further { IfOk result (λ t. from.at < length text.now → from.at < t.next.at) }
    ensures line { IfOk result (λ t. from.at ≡ length text.now → t.kind ≡ TokenKind.Line) }
{
    let bytes = &text[from.at as usize..];
    let skip = gap(bytes, false);
    let place = along(text, from, skip);
    let bytes = &bytes[skip..];
    let Some((kind, length)) = front(bytes) else {
        return Err(LexFault::Lex(place));
    };
    let found = &bytes[..length];
    if kind == TokenKind::Int && int_of(found).is_none() {
        return Err(LexFault::Int(place));
    }
    Ok(Token {
        kind,
        text: found,
        place,
        next: token_end(text, place, kind, length),
    })
}
