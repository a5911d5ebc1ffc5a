// Lists of digests as text (of this registry).
ghost use Rattle.std.specs.Prelude.{◌≡◌, ◌++◌, ◌∷◌, IfOk, OnOk, codes, string_bytes};
ghost use Rattle.ecr_model.specs.names.Digests.{digest_text};
ghost use Rattle.ecr_model.specs.requests.Refusals.{digests_text};

use ecr_base::write_digest;
use ecr_model::{Digest, Mem};
use std::alloc::Global;

/// The digests' texts with a `,` between each two.
pub(crate) fn write_digests(alloc: Global, digests: &[Digest]) -> Result<String, Mem>
    ensures { IfOk result (λ s. string_bytes s ≡ digests_text digests.now) }
{
    match digests {
        [] => Ok(String::new(alloc)),
        [first, rest @ ..] => write_some(alloc, first, rest),
    }
}

/// The first digest's text, and each other's behind a `,`.
fn write_some(alloc: Global, first: &Digest, rest: &[Digest]) -> Result<String, Mem>
    ensures { IfOk result (λ s. string_bytes s ≡ digests_text (first.now ∷ rest.now)) }
{
    let mut text = write_digest(alloc, first)?;
    for digest in rest {
        push_digest(alloc, &mut text, digest)?;
    }
    Ok(text)
}

/// Puts a `,` and the digest's text behind the text.
fn push_digest(alloc: Global, text: &mut String, digest: &Digest) -> Result<(), Mem>
    ensures { OnOk result (string_bytes text.new ≡ string_bytes text.old ++ codes "," ++ digest_text digest.now) }
{
    let digest = write_digest(alloc, digest)?;
    text.push_str(",")?;
    text.push_str(digest.as_str())
}
