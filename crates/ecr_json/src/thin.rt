// JSON values that are read thinly (RFC 8259): of an object the members of given names alone, each without what is
// nested in it.
ghost use Rattle.std.specs.Prelude.{◌≡◌, ◌∷◌, ◌++◌, [], ℕ, List, None, Some, IfOk, OnOk, if◌then◌else◌, map, option_map};
ghost use Rattle.std.specs.Bool.{MatchBool};
ghost use Rattle.json.specs.Json.{value};
ghost use Rattle.json.specs.Reads.{token_of};
ghost use Rattle.json.specs.Token as token;
ghost use Rattle.serde_json.specs.Data.{no_members, null, number, object};
ghost use Rattle.serde_json.specs.Read.{converted, number_of, of_json, read};
ghost use Rattle.serde_json.specs.View.{members_view, view};
ghost use Rattle.ecr_json.specs.Thin.{is_named, IsThin, IsThinOf};
ghost use Rattle.ecr_json.specs.Thinning.{emptied_list, only_last, read_members, thin_list, thin_value, AreFirst, HasThin, Keeps, KeepsOf};

use crate::Mem;
use crate::number::number_of;
use crate::skip::{pass, skip, skip_items, skip_members};
use json::{Reader, Scratch, Token};
use serde_json::{Map, Value};
use std::alloc::Global;

/// How deep arrays and objects may nest, as `serde_json` has it.
const MAX_DEPTH: usize = 127;

/// How many texts of a list are kept: one more than a list of names may have (Amazon ECR API Reference,
/// `DescribeRepositories`, `repositoryNames`).
const MAX_TEXTS: usize = 101;

/// The JSON value of a text, read thinly by the names of members; `None` where the text isn't JSON.
///
/// What isn't kept is tested and takes no memory. The scratch grows to the longest text that it was used for.
pub fn read_thin(
    alloc: Global,
    scratch: &mut Scratch,
    names: &[&str],
    text: &str,
) -> Result<Option<Value>, Mem>
    ensures exact { IfOk result (λ o. IsThinOf (map (λ n. n.now) names.now) (option_map view o) (read text.now)) }
{
    let mut reader = Reader::new(text, scratch)?;
    match read_front(alloc, &mut reader, names)? {
        Some(kept) => Ok(unless_more(&mut reader, kept)),
        None => Ok(None),
    }
}

/// The value, where no token is left.
fn unless_more(reader: &mut Reader<'_>, kept: Value) -> Option<Value>
    ensures { option_map view result ≡ only_last reader.old (view kept) }
{
    match reader.next() {
        Some(_) => None,
        None => Some(kept),
    }
}

/// The value that comes first, thinly; of one that isn't an object null is kept.
fn read_front(alloc: Global, reader: &mut Reader<'_>, names: &[&str]) -> Result<Option<Value>, Mem>
    ensures { IfOk result (λ o. let all = converted of_json (value 127 reader.old) in
        KeepsOf (IsThin (map (λ n. n.now) names.now)) all (option_map view o) reader.new) }
{
    let Some(token) = reader.next() else {
        return Ok(None);
    };
    if let Token::BeginObject = token {
        read_object(alloc, reader, names)
    } else {
        Ok(null_if(pass(reader, token, MAX_DEPTH)))
    }
}

/// Null, where the value was right.
fn null_if(is_right: bool) -> Option<Value>
    ensures { option_map view result ≡ (if is_right then Some null else None) }
{
    if is_right { Some(Value::Null) } else { None }
}

/// The object behind its brace, thinly.
fn read_object(alloc: Global, reader: &mut Reader<'_>, names: &[&str]) -> Result<Option<Value>, Mem>
    ensures { IfOk result (λ o. let all = converted of_json (value 127 (token.begin_object ∷ reader.old)) in
        KeepsOf (IsThin (map (λ n. n.now) names.now)) all (option_map view o) reader.new) }
{
    match read_kept(alloc, reader, names, MAX_DEPTH - 1)? {
        Some(found) => Ok(Some(Value::Object(found))),
        None => Ok(None),
    }
}

/// The named members of an object, thinly, and its brace.
fn read_kept(
    alloc: Global,
    reader: &mut Reader<'_>,
    names: &[&str],
    depth: usize,
) -> Result<Option<Map<String, Value>>, Mem>
    ensures { IfOk result (λ o. let kept = option_map (λ m. members_view m.entries) o in
        KeepsOf (HasThin (map (λ n. n.now) names.now)) (read_members depth reader.old) kept reader.new) }
{
    let mut found = Map::new(alloc);
    'members: loop {
        match reader.next_key() {
            Ok(Some(name)) => {
                let is_right = read_member(alloc, reader, names, name, &mut found, depth)?;
                if !is_right {
                    return Ok(None);
                }
            }
            Ok(None) => return Ok(Some(found)),
            Err(_) => return Ok(None),
        }
    }
}

/// Reads a member's value, and keeps it where it is named; whether it is right.
fn read_member(
    alloc: Global,
    reader: &mut Reader<'_>,
    names: &[&str],
    name: &str,
    found: &mut Map<String, Value>,
    depth: usize,
) -> Result<bool, Mem>
    ensures { IfOk result (λ b. let all = converted of_json (value depth reader.old) in
        MatchBool b (Keeps (map (λ n. n.now) names.now) name.now all (members_view found.old.entries)
        (members_view found.new.entries) reader.new) (all ≡ None)) }
{
    if !is_named(name, names) {
        return Ok(skip(reader, depth));
    }
    match read_value(alloc, reader, depth)? {
        Some(value) => {
            serde_json::put(found, alloc, name, value)?;
            Ok(true)
        }
        None => Ok(false),
    }
}

/// Whether the name is one of these.
fn is_named(name: &str, names: &[&str]) -> bool
    ensures { result ≡ is_named name.now (map (λ n. n.now) names.now) }
{
    for known in names {
        if name == *known {
            return true;
        }
    }
    false
}

/// A value, thinly.
fn read_value(alloc: Global, reader: &mut Reader<'_>, depth: usize) -> Result<Option<Value>, Mem>
    ensures { IfOk result (λ o. thin_value depth reader.old ≡ option_map (λ v. (view v, reader.new)) o) }
{
    match reader.next() {
        Some(token) => read_token(alloc, reader, token, depth),
        None => Ok(None),
    }
}

/// A value that begins with the token, thinly.
fn read_token(
    alloc: Global,
    reader: &mut Reader<'_>,
    token: Token<'_>,
    depth: usize,
) -> Result<Option<Value>, Mem>
    ensures { IfOk result (λ o. thin_value depth (token_of token.entry ∷ reader.old) ≡ option_map
        (λ v. (view v, reader.new)) o) }
{
    match token {
        Token::String(text) => Ok(Some(Value::try_from_str(alloc, text)?)),
        Token::Number(text) => Ok(number_value(text)),
        Token::Bool(b) => Ok(Some(Value::Bool(b))),
        Token::Null => Ok(Some(Value::Null)),
        Token::BeginArray => if depth > 0 {
            read_list(alloc, reader, depth - 1)
        } else {
            Ok(None)
        },
        Token::BeginObject => if depth > 0 {
            Ok(empty_if(alloc, skip_members(reader, depth - 1)))
        } else {
            Ok(None)
        },
        Token::EndObject | Token::EndArray | Token::Key(_) | Token::Bad => Ok(None),
    }
}

/// The number that a text writes, as a value.
fn number_value(text: &str) -> Option<Value>
    ensures { option_map view result ≡ option_map number (number_of text.now) }
{
    match number_of(text) {
        Some(number) => Some(Value::Number(number)),
        None => None,
    }
}

/// The items of a list, and its bracket: the first of them where all are texts, else `{}`.
fn read_list(alloc: Global, reader: &mut Reader<'_>, depth: usize) -> Result<Option<Value>, Mem>
    ensures { IfOk result (λ o. thin_list depth reader.old ≡ option_map (λ v. (view v, reader.new)) o) }
{
    let mut texts = Vec::new(alloc);
    'items: while !reader.take_end_array() {
        let Some(token) = reader.next() else {
            return Ok(None);
        };
        if let Token::String(text) = token {
            keep(alloc, &mut texts, text)?;
        } else {
            return Ok(pass_list(alloc, reader, token, depth));
        }
    }
    Ok(Some(Value::Array(texts)))
}

/// Keeps the text, unless there are enough.
#[tactic(auto, unfolding(crate::specs::Thin::max_texts))]
fn keep(alloc: Global, texts: &mut Vec<Value>, text: &str) -> Result<(), Mem>
    ensures { OnOk result ((seen : List (List ℕ)) → AreFirst texts.old.items seen
        → AreFirst texts.new.items (seen ++ text.now ∷ [])) }
{
    if texts.len() < MAX_TEXTS {
        let value = Value::try_from_str(alloc, text)?;
        texts.push(value)?;
    }
    Ok(())
}

/// Passes over an item that begins with the token, those after it and the bracket: the list as `{}`.
fn pass_list(
    alloc: Global,
    reader: &mut Reader<'_>,
    token: Token<'_>,
    depth: usize,
) -> Option<Value>
    ensures { emptied_list depth (token_of token.entry ∷ reader.old) ≡ option_map (λ v. (view v, reader.new)) result }
{
    let is_right = pass(reader, token, depth) && skip_items(reader, depth);
    empty_if(alloc, is_right)
}

/// The object without members, where the value was right.
fn empty_if(alloc: Global, is_right: bool) -> Option<Value>
    ensures { option_map view result ≡ (if is_right then Some (object no_members) else None) }
{
    if is_right {
        Some(Value::Object(Map::new(alloc)))
    } else {
        None
    }
}
