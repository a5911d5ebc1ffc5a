// What the values of fields say (RFC 9110, sections 5.6.1 and 7.6.1).
ghost use Rattle.std.specs.Prelude.{◌≡◌, option_map, take, drop};
ghost use Rattle.std.specs.List.{list_all, before_first};
ghost use Rattle.httparse.specs.Grammar.{is_ows, skip_ows};
ghost use Rattle.ecr_model.specs.http.Fields.{has_name, count_of, first_value, each_is, first_says, is_comma, begins_close, has_later_close, has_close};

use ecr_model::Fields;

/// Whether the first field of the name has the value, letter case aside.
pub(crate) fn first_says(fields: &Fields, name: &[u8], text: &[u8]) -> bool
    ensures says { result ≡ first_says name.now text.now fields.now }
{
    match fields.first_value(name) {
        Some(value) => value.eq_ignore_ascii_case(text),
        None => false,
    }
}

/// Whether a word of the list is `close`.
#[tactic(auto, unfolding(ecr_model::specs::http::Fields::has_close))]
pub(crate) fn has_close(text: &[u8]) -> bool
    ensures close { result ≡ has_close text.now }
{
    begins_close(text) || has_later_close(text)
}

/// Whether a word behind a comma is `close`.
fn has_later_close(text: &[u8]) -> bool
    ensures { result ≡ has_later_close text.now }
{
    let mut rest = text;
    while let [byte, behind @ ..] = rest {
        if is_comma(*byte) && begins_close(behind) {
            return true;
        }
        rest = behind;
    }
    false
}

/// Whether the word that begins here is `close`, letter case and the white space around it aside.
#[tactic(auto, unfolding(ecr_model::specs::http::Fields::begins_close))]
fn begins_close(text: &[u8]) -> bool
    ensures { result ≡ begins_close text.now }
{
    let word = skip_ows(before_comma(text));
    front_of(word).eq_ignore_ascii_case(b"close") && are_ows(rest_of(word))
}

/// What stands before the first comma.
fn before_comma(text: &[u8]) -> &[u8]
    ensures { result.now ≡ before_first is_comma text.now }
{
    for (at, byte) in text.iter().enumerate() {
        if is_comma(*byte) {
            return &text[..at];
        }
    }
    text
}

/// The bytes from the first that is no white space.
fn skip_ows(text: &[u8]) -> &[u8]
    ensures { result.now ≡ skip_ows text.now }
{
    let mut rest = text;
    while let [byte, behind @ ..] = rest {
        if !is_ows(*byte) {
            return rest;
        }
        rest = behind;
    }
    rest
}

/// The first 5 bytes, or all where there are fewer.
fn front_of(word: &[u8]) -> &[u8]
    ensures { result.now ≡ take 5 word.now }
{
    if word.len() < 5 { word } else { &word[..5] }
}

/// What stands behind the first 5 bytes.
fn rest_of(word: &[u8]) -> &[u8]
    ensures { result.now ≡ drop 5 word.now }
{
    if word.len() < 5 { &[] } else { &word[5..] }
}

/// Whether all bytes are white space.
fn are_ows(text: &[u8]) -> bool
    ensures { result ≡ list_all is_ows text.now }
{
    text.iter().all(|byte| is_ows(*byte))
}

/// A space or a tab.
fn is_ows(byte: u8) -> bool
    ensures { result ≡ is_ows byte }
{
    byte == b' ' || byte == b'\t'
}

/// A comma.
fn is_comma(byte: u8) -> bool
    ensures { result ≡ is_comma byte }
{
    byte == b','
}
