// A media type that was given with a request.
ghost use Rattle.std.specs.Prelude.{◌≡◌, ◌==◌};
ghost use Rattle.std.specs.List.{before_first};
ghost use Rattle.ecr_model.specs.documents.Manifests.{after_spaces, before_spaces, given_type};

/// The type up to its first `;`, without the spaces at its ends.
#[tactic(auto, unfolding(ecr_model::specs::documents::Manifests::given_type))]
pub(crate) fn given_type(text: &[u8]) -> &[u8]
    ensures { result.now ≡ given_type text.now }
{
    after_spaces(before_spaces(before_parameters(text)))
}

/// What stands before the first `;`.
fn before_parameters(text: &[u8]) -> &[u8]
    ensures { result.now ≡ before_first (λ b. b == 59) text.now }
{
    for (at, byte) in text.iter().enumerate() {
        if *byte == b';' {
            return &text[..at];
        }
    }
    text
}

/// The text without the spaces at its end.
fn before_spaces(text: &[u8]) -> &[u8]
    ensures { result.now ≡ before_spaces text.now }
{
    let mut end = 0;
    for (at, byte) in text.iter().enumerate() {
        if *byte != b' ' {
            end = at + 1;
        }
    }
    &text[..end]
}

/// The text without the spaces at its beginning.
fn after_spaces(text: &[u8]) -> &[u8]
    ensures { result.now ≡ after_spaces text.now }
{
    for (at, byte) in text.iter().enumerate() {
        if *byte != b' ' {
            return &text[at..];
        }
    }
    &text[text.len()..]
}
