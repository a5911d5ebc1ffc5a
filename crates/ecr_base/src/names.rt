// Names of repositories (OCI Distribution 1.1, "Pulling manifests", `<name>`).
ghost use Rattle.std.specs.Prelude.{◌≡◌, ◌↔◌, ℕ, List, IsTrue, IfOk, MatchOption};
ghost use Rattle.ecr_model.specs.names.Names.{IsName, after_dash, after_underscore, after_word, at_word, is_alphanumeric, is_name, name_of};

use ecr_model::{Mem, Name, SharedText};
use std::alloc::Global;

/// The fewest bytes of a name (Amazon ECR API Reference, `CreateRepository`).
const MIN_LENGTH: usize = 2;

/// The most bytes of a name (Amazon ECR API Reference, `CreateRepository`).
const MAX_LENGTH: usize = 256;

/// Whether the text is a name.
///
/// The length is tested first, so a text of any length is answered in the time of 256 bytes.
#[tactic(auto, unfolding(ecr_model::specs::names::Names::is_name))]
pub fn is_name(text: &[u8]) -> bool
    ensures exact { IsTrue result ↔ IsName text.now }
    ensures computed { result ≡ is_name text.now }
{
    text.len() >= MIN_LENGTH && text.len() <= MAX_LENGTH && at_word(text)
}

/// The name that the text is, or `None` where it isn't one.
#[tactic(auto, unfolding(ecr_model::specs::names::Names::name_of))]
pub fn read_name(alloc: Global, text: &[u8]) -> Result<Option<Name>, Mem>
    ensures exact { IfOk result
        (λ o. MatchOption o (¬ (IsName text.now)) (λ name. (name.text ≡ text.now) × IsName text.now)) }
    ensures computed { IfOk result (λ o. o ≡ name_of text.now) }
{
    if !is_name(text) {
        return Ok(None);
    }
    let text = SharedText::copy_of(alloc, text)?;
    Ok(Some(Name { text }))
}

/// The test that computes decides the grammar.
pub fn name_has_one_test()
    ensures agree { (text : List ℕ) → IsTrue (is_name text) ↔ IsName text }
{}

/// Whether a word begins here, and the rest of a name follows.
#[cycle(name)]
fn at_word(text: &[u8]) -> bool
    ensures { result ≡ at_word text.now }
{
    match text {
        [byte, rest @ ..] => is_alphanumeric(*byte) && after_word(rest),
        [] => false,
    }
}

/// Whether the rest of a name follows a byte of a word.
#[cycle(name)]
fn after_word(text: &[u8]) -> bool
    ensures { result ≡ after_word text.now }
{
    match text {
        [byte, rest @ ..] => match *byte {
            b'a'..=b'z' | b'0'..=b'9' => after_word(rest),
            b'.' | b'/' => at_word(rest),
            b'_' => after_underscore(rest),
            b'-' => after_dash(rest),
            _ => false,
        },
        [] => true,
    }
}

/// Whether the rest of a name follows the first `_` between two words.
#[cycle(name)]
fn after_underscore(text: &[u8]) -> bool
    ensures { result ≡ after_underscore text.now }
{
    match text {
        [b'_', rest @ ..] => at_word(rest),
        [byte, rest @ ..] => is_alphanumeric(*byte) && after_word(rest),
        [] => false,
    }
}

/// Whether the rest of a name follows a `-`.
#[cycle(name)]
fn after_dash(text: &[u8]) -> bool
    ensures { result ≡ after_dash text.now }
{
    match text {
        [b'-', rest @ ..] => after_dash(rest),
        [byte, rest @ ..] => is_alphanumeric(*byte) && after_word(rest),
        [] => false,
    }
}

/// Whether the byte is one of `[a-z0-9]`.
fn is_alphanumeric(byte: u8) -> bool
    ensures { result ≡ is_alphanumeric byte }
{
    matches!(byte, b'a'..=b'z' | b'0'..=b'9')
}
