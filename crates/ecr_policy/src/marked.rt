// Texts beside their mark.
ghost use Rattle.std.specs.Prelude.{◌≡◌, ℕ, List, map, bytes_eq};
ghost use Rattle.std.specs.Cmp.Lexicographic.{pointwise};
ghost use Rattle.ecr_policy.specs.Marks.{byte_mark, text_mark, mark_of};

use std::marker::Model;

/// The mark of no texts (FNV-1a of 64 bits, the offset basis).
const FIRST: u64 = 14695981039346656037;

/// What each byte multiplies the mark by (FNV-1a of 64 bits, the prime).
const FACTOR: u64 = 1099511628211;

/// What stands behind each text in the mark. No text of UTF-8 has this byte.
const END: u8 = 255;

/// Texts beside their mark, a number that equal lists have in common. Contracts see the texts.
#[derive(Drop)]
pub(crate) struct Marked<'a> {
    texts: Vec<&'a [u8]>,
    mark: u64,
}

impl<'a> Model for Marked<'a> {
    ghost Value = { List (List ℕ) };

    ghost view = { λ m. map (λ t. t.now) m.texts.items };

    ghost invariant = { λ m. m.mark ≡ mark_of (map (λ t. t.now) m.texts.items) };
}

impl<'a> Marked<'a> {
    /// These texts.
    pub(crate) fn new(texts: Vec<&'a [u8]>) -> Marked<'a>
        ensures { result ≡ map (λ t. t.now) texts.entry.items }
    {
        let mark = mark_of(texts.as_slice());
        Marked { texts, mark }
    }

    /// Whether both have the same texts. They are compared only where the marks are equal.
    pub(crate) fn is_same(&self, other: &Marked<'a>) -> bool
        ensures { result ≡ pointwise bytes_eq self.now other.now }
    {
        self.mark == other.mark && self.texts == other.texts
    }
}

/// The mark of the texts.
#[tactic(auto, unfolding(crate::specs::Marks::mark_of))]
fn mark_of(texts: &[&[u8]]) -> u64
    ensures { result ≡ mark_of (map (λ t. t.now) texts.now) }
{
    let mut mark = FIRST;
    for text in texts {
        mark = text_mark(mark, text);
    }
    mark
}

/// The mark after a text more.
#[tactic(auto, unfolding(crate::specs::Marks::text_mark))]
fn text_mark(mark: u64, text: &[u8]) -> u64
    ensures { result ≡ text_mark mark text.now }
{
    let mut mark = mark;
    for byte in text {
        mark = byte_mark(mark, *byte);
    }
    byte_mark(mark, END)
}

/// The mark after a byte more.
#[tactic(auto, unfolding(crate::specs::Marks::byte_mark))]
fn byte_mark(mark: u64, byte: u8) -> u64
    ensures { result ≡ byte_mark mark byte }
{
    (mark ^ (byte as u64)).wrapping_mul(FACTOR)
}
