//! Tokens as the grammar sees them.

ghost use Rattle.std.specs.Prelude.{◌≡◌, ◌<◌, ◌≤◌, ◌&&◌, ◌==◌, List, length, drop, None, IfSome};
ghost use Rattle.rtl_lex.specs.Items.{
  number_of,
  as_seen,
  item_of,
  Seen,
  AreItems,
  Leads,
  is_line,
  last_item,
  remaining,
};
ghost use Rattle.rtl_lex.specs.Place.{IsPlaceIn};
ghost use Rattle.rtl_lex.specs.Tokens.{piece};

use crate::number::int_of;
use crate::place::Place;
use crate::sort::{Sort, sort_of};
use crate::token::{LexFault, Token, TokenKind, next_token};

/// A token with its sort, and with its number where it is an integer that is in range.
///
/// An integer that is out of range is an item too, of sort `Int` and with no number, since the
/// grammar decides which fault it is. So is a place where no token begins, of sort `Bad`, and the
/// end of the text, of sort `Finish`. These three have no text.
#[derive(Clone, Copy, Debug)]
pub struct Item<'a> {
    pub sort: Sort,
    pub text: &'a [u8],
    pub number: Option<i32>,
    pub place: Place,
}

/// An item, and where the next one begins, if there is one: its place, and whether an end of line
/// stands before it.
#[derive(Clone, Copy, Debug)]
pub struct Next<'a> {
    pub item: Item<'a>,
    pub rest: Option<(Place, bool)>,
}

fn number_of(kind: TokenKind, text: &[u8]) -> Option<i32>
    ensures { result ≡ number_of kind text.now }
{
    match kind {
        TokenKind::Int => int_of(text),
        _ => None,
    }
}

/// The token as an item.
pub fn item_of<'a>(token: &Token<'a>) -> Item<'a>
    ensures value { as_seen result ≡ item_of (piece token.now) }
{
    Item {
        sort: sort_of(token.kind, token.text),
        text: token.text,
        number: number_of(token.kind, token.text),
        place: token.place,
    }
}

fn is_line(kind: TokenKind) -> bool
    ensures { result ≡ is_line kind }
{
    match kind {
        TokenKind::Line => true,
        _ => false,
    }
}

/// Whether the text ends here: nothing is left, and an end of line stands before.
fn is_ended(text: &[u8], from: Place, line: bool) -> bool
    requires { from.at ≤ length text.now }
    ensures { result ≡ (line && length (drop from.at text.now) == 0) }
{
    line && text.len() - from.at as usize == 0
}

/// The last item, which has no text.
fn last(sort: Sort, place: Place) -> Next<'static>
    ensures item { as_seen result.item ≡ last_item sort place }
    ensures rest { result.rest ≡ None }
{
    Next {
        item: Item {
            sort,
            text: &[],
            number: None,
            place,
        },
        rest: None,
    }
}

/// The first item from the place on; `line` says that an end of line stands before it.
pub fn next_item(text: &[u8], from: Place, line: bool) -> Next<'_>
    requires { IsPlaceIn text.now from }
    ensures item { (items : List Seen) → AreItems items (drop from.at text.now) from line →
        Leads items (as_seen result.item) result.rest text.now }
    ensures place { IfSome result.rest (λ at. IsPlaceIn text.now at.0) }
    ensures further { IfSome result.rest (λ at. remaining text.now at.0 at.1 < remaining text.now from line) }
{
    if is_ended(text, from, line) {
        return last(Sort::Finish, from);
    }
    match next_token(text, from) {
        Ok(token) => Next {
            item: item_of(&token),
            rest: Some((token.next, is_line(token.kind))),
        },
        Err(LexFault::Lex(place)) => last(Sort::Bad, place),
        Err(LexFault::Int(place)) => last(Sort::Int, place),
    }
}
