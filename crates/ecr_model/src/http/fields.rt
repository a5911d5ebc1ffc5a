// The field lines of a head (RFC 9112, section 5).
ghost use Rattle.std.specs.Prelude.{◌≡◌, ◌||◌, bytes_eq, find, map, not, option_map};
ghost use Rattle.std.specs.List.{list_all};
ghost use Rattle.httparse.specs.Spans.{span_bytes};
ghost use Rattle.ecr_model.specs.http.FieldLines.{field_at};
ghost use Rattle.ecr_model.specs.http.Fields.{first_value, has_name};

use httparse::spans::{HeaderSpan, Span};
use std::marker::Model;

/// The field lines of a head, in their order. Contracts see the list of the fields, each with its name as it came and
/// its value without the spaces and tabs around it.
///
/// Kept are the head's bytes, and where in them each name and each value stands: two pieces of memory, however many
/// fields there are.
#[derive(Drop)]
pub struct Fields {
    head: Vec<u8>,
    places: Vec<HeaderSpan>,
}

impl Model for Fields {
    ghost use Rattle.std.specs.Prelude.{List, map};
    ghost use Rattle.ecr_model.specs.http.FieldLines.{Field, field_at};

    ghost Value = { List Field };

    ghost view = { λ f. map (field_at f.head.items) f.places.items };
}

impl Fields {
    ghost use Rattle.ecr_model.specs.http.Fields.{count_of, each_is};

    /// The fields at these places of a head. Nothing is copied.
    pub fn new(head: Vec<u8>, places: Vec<HeaderSpan>) -> Fields
        ensures fields { result ≡ map (field_at head.items) places.items }
    {
        Fields { head, places }
    }

    /// How many fields have the name, letter case aside (RFC 9110, section 5.1).
    #[tactic(auto, using(crate::proofs::lemmas::http::FieldLemmas::at_places))]
    pub fn count_of(&self, name: &[u8]) -> usize
        ensures count { result ≡ count_of name.now self.now }
    {
        let head = self.head.as_slice();
        self.places
            .iter()
            .filter(|place| has_name(head, *place, name))
            .count()
    }

    /// The value of the first field of the name, letter case aside.
    pub fn first_value(&self, name: &[u8]) -> Option<&[u8]>
        ensures first { option_map (λ v. v.now) result ≡ first_value name.now self.now }
    {
        value_in(self.head.as_slice(), self.places.as_slice(), name)
    }

    /// Whether each field of the name has the value.
    #[tactic(auto, using(crate::proofs::lemmas::http::FieldLemmas::at_places))]
    pub fn each_is(&self, name: &[u8], value: &[u8]) -> bool
        ensures each { result ≡ each_is name.now value.now self.now }
    {
        each_place_is(self.head.as_slice(), self.places.as_slice(), name, value)
    }
}

// The value of the first field of the name.
#[tactic(auto, using(crate::proofs::lemmas::http::FieldLemmas::at_places))]
fn value_in<'a>(head: &'a [u8], places: &[HeaderSpan], name: &[u8]) -> Option<&'a [u8]>
    ensures { option_map (λ v. v.now) result ≡ first_value name.now (map (field_at head.now) places.now) }
{
    match first_place(head, places, name) {
        Some(place) => Some(text_at(head, place.value)),
        None => None,
    }
}

// Where the first field of the name stands.
fn first_place<'a>(head: &[u8], places: &'a [HeaderSpan], name: &[u8]) -> Option<&'a HeaderSpan>
    ensures { option_map (λ p. p.now) result ≡ find (λ p. has_name name.now (field_at head.now p)) places.now }
{
    places.iter().find(|place| has_name(head, *place, name))
}

// Whether each field of the name has the value.
fn each_place_is(head: &[u8], places: &[HeaderSpan], name: &[u8], value: &[u8]) -> bool
    ensures { result ≡ list_all
        (λ p. not (has_name name.now (field_at head.now p)) || bytes_eq
        (span_bytes head.now p.value) value.now) places.now }
{
    places
        .iter()
        .all(|place| has_value(head, place, name, value))
}

// Whether the field at that place has the value, if it has the name.
fn has_value(head: &[u8], place: &HeaderSpan, name: &[u8], value: &[u8]) -> bool
    ensures { result ≡ (not (has_name name.now (field_at head.now place.now)) || bytes_eq
        (span_bytes head.now place.now.value) value.now) }
{
    !has_name(head, place, name) || text_at(head, place.value) == value
}

// Whether the field at that place has the name.
fn has_name(head: &[u8], place: &HeaderSpan, name: &[u8]) -> bool
    ensures { result ≡ has_name name.now (field_at head.now place.now) }
{
    text_at(head, place.name).eq_ignore_ascii_case(name)
}

// The bytes at that place of a head; beyond its end there are none.
fn text_at(head: &[u8], place: Span) -> &[u8]
    ensures { result.now ≡ span_bytes head.now place }
{
    let rest = &head[place.start.min(head.len())..];
    let size = place.end.saturating_sub(place.start);
    &rest[..size.min(rest.len())]
}
