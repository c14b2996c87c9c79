//! Which tokens a text has, and where.

use rtl_bits::Memory;
use rtl_lex::{LexFault, Place, TokenKind, next_token};
use std::alloc::{AllocError, Global};

fn name(kind: TokenKind) -> &'static str {
    match kind {
        TokenKind::Word => "word",
        TokenKind::Mark => "mark",
        TokenKind::Id => "id",
        TokenKind::Value => "value",
        TokenKind::Int => "int",
        TokenKind::Chars => "chars",
        TokenKind::Line => "line",
    }
}

/// The tokens of a text by kind and place, up to the end of line that ends it or to the first fault.
fn tokens_of(alloc: Global, text: &[u8]) -> Result<String, AllocError> {
    let mut shown = String::new(alloc);
    let mut place = Place::start();
    for _ in 0..=text.len() {
        match next_token(text, place) {
            Ok(token) => {
                write!(shown, " {} {}", name(token.kind), token.place)?;
                if token.kind == TokenKind::Line && token.next.at == text.len() as u64 {
                    break;
                }
                place = token.next;
            }
            Err(LexFault::Lex(at)) => {
                write!(shown, " none {at}")?;
                break;
            }
            Err(LexFault::Int(at)) => {
                write!(shown, " range {at}")?;
                break;
            }
        }
    }
    Ok(shown)
}

/// Whether a text has these tokens.
pub fn has_tokens(alloc: Global, fields: &[&[u8]]) -> Result<bool, Memory> {
    let [text, tokens] = fields else {
        return Ok(false);
    };
    let found = tokens_of(alloc, text)?;
    Ok(found.as_str().trim_start().as_bytes() == *tokens)
}
