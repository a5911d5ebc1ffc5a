// Text and other bytes.
ghost use Rattle.std.specs.Prelude.{◌≡◌, List, ℕ, IfOk};

use crate::{Mem, Twin};
use std::alloc::Global;
use std::convert::AsSlice;
use std::marker::Model;

/// Bytes that one value has, such as a body. Contracts see the list of the bytes.
#[derive(Drop)]
pub struct Text {
    bytes: Vec<u8>,
}

impl Model for Text {
    ghost Value = { List ℕ };

    ghost view = { λ t. t.bytes.items };
}

impl Text {
    /// The text of these bytes, which aren't copied.
    pub fn from_vec(bytes: Vec<u8>) -> Text
        ensures text { result ≡ bytes.items }
    {
        Text { bytes }
    }

    /// A copy of these bytes.
    pub fn copy_of(alloc: Global, bytes: &[u8]) -> Result<Text, Mem>
        ensures copied { IfOk result (λ t. t ≡ bytes.now) }
    {
        let bytes = Vec::from_slice(alloc, bytes)?;
        Ok(Text { bytes })
    }

    /// The bytes.
    pub fn as_bytes(&self) -> &[u8]
        ensures text { result.now ≡ self.now }
    {
        self.bytes.as_slice()
    }
}

impl AsSlice<u8> for Text {
    ghost items = { λ t. t };

    fn as_slice(&self) -> &[u8] {
        self.bytes.as_slice()
    }
}

impl Clone for Text {
    ghost is_clone = { λ text copy. copy ≡ text };

    fn clone(&self) -> Result<Text, Mem> {
        let bytes = self.bytes.clone()?;
        Ok(Text { bytes })
    }
}

impl Twin for Text {
    ghost same = { λ text copy is. is };
}
