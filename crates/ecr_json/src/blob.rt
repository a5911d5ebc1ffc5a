// Bytes in base64 (RFC 4648, section 4).
ghost use Rattle.std.specs.Prelude.{◌≡◌, ℕ, List, Ok, None, IfOk, IfSome, option_map};
ghost use Rattle.base64.specs.Engines.{standard};
ghost use Rattle.base64.specs.GeneralPurpose.{encode_of, IsBytes};
ghost use Rattle.ecr_json.specs.Blobs.{blob_of};

use crate::Mem;
use base64::DecodeAllocError;
use base64::engine::general_purpose::STANDARD;
use std::alloc::Global;

/// The bytes that the text is the base64 of, with its padding; `None` where it is that of no bytes.
pub fn decode_blob(alloc: Global, text: &str) -> Result<Option<Vec<u8>>, Mem>
    ensures exact { IfOk result (λ o. option_map (λ v. v.items) o ≡ blob_of text.now) }
    ensures some { IfOk result (λ o. IfSome o (λ v. text.now ≡ encode_of standard v.items)) }
    ensures none { result ≡ Ok None → (bytes : List ℕ) → IsBytes bytes → ¬ (text.now ≡ encode_of standard bytes) }
{
    match STANDARD.decode(alloc, text.as_bytes()) {
        Ok(bytes) => Ok(Some(bytes)),
        Err(DecodeAllocError::DecodeError(_)) => Ok(None),
        Err(DecodeAllocError::OutOfMemory) => Err(Mem),
    }
}
