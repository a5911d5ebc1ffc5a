// Texts of parts.
ghost use Rattle.std.specs.Prelude.{◌≡◌, ◌++◌, IfOk, decimal, string_bytes};

use ecr_model::Mem;
use std::alloc::Global;

/// One text behind the other.
pub(crate) fn write_both(alloc: Global, first: &str, second: &str) -> Result<String, Mem>
    ensures { IfOk result (λ s. string_bytes s ≡ first.now ++ second.now) }
{
    let mut text = String::from_str(alloc, first)?;
    text.push_str(second)?;
    Ok(text)
}

/// The number in decimal behind the text.
pub(crate) fn write_number(alloc: Global, text: &str, number: u64) -> Result<String, Mem>
    ensures { IfOk result (λ s. string_bytes s ≡ text.now ++ decimal number) }
{
    let digits = number.to_string(alloc)?;
    write_both(alloc, text, digits.as_str())
}

/// Two texts, each with a number in decimal behind it.
pub(crate) fn write_numbers(
    alloc: Global,
    first: &str,
    one: u64,
    second: &str,
    two: u64,
) -> Result<String, Mem>
    ensures { IfOk result (λ s. string_bytes s ≡ first.now ++ decimal one ++ second.now ++ decimal two) }
{
    let digits = two.to_string(alloc)?;
    let mut text = write_number(alloc, first, one)?;
    text.push_str(second)?;
    text.push_str(digits.as_str())?;
    Ok(text)
}
