// The numbers of JSON (RFC 8259, section 6), as `serde_json` reads them.
ghost use Rattle.std.specs.Prelude.{◌≡◌, ◌==◌, ◌<◌, true, false, length, slice_index, option_map, IsTrue};
ghost use Rattle.serde_json.specs.Read.{float_of, number_from, number_of};
ghost use Rattle.serde_json.specs.View.{number_view};

use fast_float::Numeral;
use serde_json::Number;

/// The number that a text of JSON's grammar writes; `None` where it is too large for a float.
pub(crate) fn number_of(text: &str) -> Option<Number>
    ensures { option_map number_view result ≡ number_of text.now }
{
    let bytes = text.as_bytes();
    if has_minus(bytes) {
        below_zero(&Numeral::scan(&bytes[1..]))
    } else {
        from_zero(&Numeral::scan(bytes))
    }
}

/// Whether the first byte is `-`.
fn has_minus(bytes: &[u8]) -> bool
    ensures value { result ≡ (slice_index bytes.now 0 == 45) }
    ensures some { IsTrue result → 0 < length bytes.now }
{
    !bytes.is_empty() && bytes[0] == b'-'
}

/// The number of a numeral without a sign.
fn from_zero(numeral: &Numeral<'_>) -> Option<Number>
    ensures { option_map number_view result ≡ number_from false numeral.now }
{
    match numeral.to_u64() {
        Some(n) => Number::from_u128(n as u128),
        None => nearest(false, numeral),
    }
}

/// The number of a numeral behind `-`.
fn below_zero(numeral: &Numeral<'_>) -> Option<Number>
    ensures { option_map number_view result ≡ number_from true numeral.now }
{
    if let Some(n) = numeral.to_i64(true) {
        if n < 0 {
            return Number::from_i128(n as i128);
        }
    }
    nearest(true, numeral)
}

/// The nearest float, where it is finite.
fn nearest(negative: bool, numeral: &Numeral<'_>) -> Option<Number>
    ensures { option_map number_view result ≡ float_of negative numeral.now }
{
    Number::from_f64(numeral.to_float::<f64>(negative))
}
