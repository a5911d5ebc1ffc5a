// The members of JSON objects (RFC 8259, section 4). A value that isn't an object has none, null counts as absent, and
// of equal names in a text `serde_json` keeps the last.
ghost use Rattle.std.specs.Prelude.{◌≡◌, ℤ, Some, option_map};
ghost use Rattle.serde_json.specs.Find.{as_bool, as_str, as_array, as_integer};
ghost use Rattle.serde_json.specs.View.{view, number_view, items_view};
ghost use Rattle.ecr_json.specs.Fields.{unless_null, there, of_type, field, field_map, as_whole, Is64Bits, as_itself};
ghost use Rattle.ecr_json.specs.declared.field.Field.TheVariants.{Here};

use crate::Field;
use serde_json::{Number, Value};

/// The text of a member.
pub fn text<'a>(value: &'a Value, member: &str) -> Field<&'a str>
    ensures exact { field_map (λ s. s.now) result ≡ field as_str member.now (view value.now) }
{
    match there(value, member) {
        Some(found) => of_type(found.as_str()),
        None => Field::Absent,
    }
}

/// The whole number of a member: an integer that is written without a fraction and an exponent.
///
/// `-0`, and an integer below -2^63 or above 2^64 - 1, is read as a float, and so isn't whole.
pub fn whole(value: &Value, member: &str) -> Field<i128>
    ensures exact { result ≡ field as_whole member.now (view value.now) }
    ensures range { (n : ℤ) → result ≡ Here n → Is64Bits n }
{
    match there(value, member) {
        Some(found) => of_type(as_whole(found)),
        None => Field::Absent,
    }
}

/// The truth value of a member.
pub fn truth(value: &Value, member: &str) -> Field<bool>
    ensures exact { result ≡ field as_bool member.now (view value.now) }
{
    match there(value, member) {
        Some(found) => of_type(found.as_bool()),
        None => Field::Absent,
    }
}

/// The items of a member that is an array.
pub fn list<'a>(value: &'a Value, member: &str) -> Field<&'a [Value]>
    ensures exact { field_map (λ s. items_view s.now) result ≡ field as_array member.now (view value.now) }
{
    match there(value, member) {
        Some(found) => of_type(as_items(found)),
        None => Field::Absent,
    }
}

/// The member that is an object.
pub fn object<'a>(value: &'a Value, member: &str) -> Field<&'a Value>
    ensures exact { field_map (λ v. view v.now) result ≡ field as_itself member.now (view value.now) }
{
    match there(value, member) {
        Some(found) => of_type(as_itself(found)),
        None => Field::Absent,
    }
}

/// The member, where it is there and isn't null.
fn there<'a>(value: &'a Value, member: &str) -> Option<&'a Value>
    ensures { option_map (λ v. view v.now) result ≡ there member.now (view value.now) }
{
    unless_null(value.get(member)?)
}

/// The value, unless it is null.
fn unless_null<'a>(value: &'a Value) -> Option<&'a Value>
    ensures { option_map (λ v. view v.now) result ≡ unless_null (view value.now) }
{
    if value.is_null() { None } else { Some(value) }
}

/// What was read of a member that is there.
fn of_type<T>(read: Option<T>) -> Field<T>
    ensures { result ≡ of_type read }
{
    match read {
        Some(found) => Field::Here(found),
        None => Field::Wrong,
    }
}

/// The whole number that the value is.
fn as_whole(value: &Value) -> Option<i128>
    ensures exact { result ≡ as_whole (view value.now) }
    ensures range { (n : ℤ) → result ≡ Some n → Is64Bits n }
{
    as_integer(value.as_number()?)
}

/// The integer that the number is.
fn as_integer(number: &Number) -> Option<i128>
    ensures exact { result ≡ as_integer (number_view number.now) }
    ensures range { (n : ℤ) → result ≡ Some n → Is64Bits n }
{
    if let Some(whole) = number.as_u64() {
        return Some(whole as i128);
    }
    match number.as_i64() {
        Some(whole) => Some(whole as i128),
        None => None,
    }
}

/// The items of the array that the value is.
fn as_items<'a>(value: &'a Value) -> Option<&'a [Value]>
    ensures { option_map (λ s. items_view s.now) result ≡ as_array (view value.now) }
{
    Some(value.as_array()?.as_slice())
}

/// The value, where it is an object.
fn as_itself<'a>(value: &'a Value) -> Option<&'a Value>
    ensures { option_map (λ v. view v.now) result ≡ as_itself (view value.now) }
{
    if value.is_object() { Some(value) } else { None }
}
