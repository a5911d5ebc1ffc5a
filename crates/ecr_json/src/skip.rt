// Values that are passed over (RFC 8259). Each is tested as if it were read: its nesting, its numbers and its texts.
ghost use Rattle.std.specs.Prelude.{◌≡◌, ◌∷◌, None, Some};
ghost use Rattle.std.specs.Bool.{MatchBool};
ghost use Rattle.json.specs.Reads.{token_of};
ghost use Rattle.ecr_json.specs.Passing.{passed, passed_items, passed_members};

use crate::number::number_of;
use json::{Reader, Token};

/// Passes over a value that nests no deeper than `depth`; whether there is one.
#[cycle(skip)]
pub(crate) fn skip(reader: &mut Reader<'_>, depth: usize) -> bool
    ensures { MatchBool result (passed depth reader.old ≡ Some reader.new) (passed depth reader.old ≡ None) }
{
    match reader.next() {
        Some(token) => pass(reader, token, depth),
        None => false,
    }
}

/// Passes over a value that begins with the token; whether there is one.
#[cycle(skip)]
pub(crate) fn pass(reader: &mut Reader<'_>, token: Token<'_>, depth: usize) -> bool
    ensures { let ts = token_of token.entry ∷ reader.old in
        MatchBool result (passed depth ts ≡ Some reader.new) (passed depth ts ≡ None) }
{
    match token {
        Token::String(_) | Token::Bool(_) | Token::Null => true,
        Token::Number(text) => number_of(text).is_some(),
        Token::BeginArray => depth > 0 && skip_items(reader, depth - 1),
        Token::BeginObject => depth > 0 && skip_members(reader, depth - 1),
        Token::EndObject | Token::EndArray | Token::Key(_) | Token::Bad => false,
    }
}

/// Passes over the items of a list, and its bracket; whether they are right.
#[cycle(skip)]
pub(crate) fn skip_items(reader: &mut Reader<'_>, depth: usize) -> bool
    ensures { MatchBool result (passed_items depth reader.old ≡ Some reader.new)
        (passed_items depth reader.old ≡ None) }
{
    'items: while !reader.take_end_array() {
        if !skip(reader, depth) {
            return false;
        }
    }
    true
}

/// Passes over the members of an object, and its brace; whether they are right.
#[cycle(skip)]
pub(crate) fn skip_members(reader: &mut Reader<'_>, depth: usize) -> bool
    ensures { MatchBool result (passed_members depth reader.old ≡ Some reader.new)
        (passed_members depth reader.old ≡ None) }
{
    'members: loop {
        match reader.next_key() {
            Ok(Some(_)) => if !skip(reader, depth) {
                return false;
            },
            Ok(None) => return true,
            Err(_) => return false,
        }
    }
}
