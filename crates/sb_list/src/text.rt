ghost use Rattle.std.specs.Prelude.{◌≡◌, IfOk};

use crate::listed::Listed;
use std::alloc::{AllocError, Global};

/// A text of bytes in no set encoding.
pub type Text = Listed<u8>;

impl Listed<u8> {
    /// The text that holds these bytes.
    pub fn of(alloc: Global, bytes: &[u8]) -> Result<Text, AllocError>
        ensures { IfOk result (λ text. text ≡ bytes.now) }
    {
        Listed::from_slice(alloc, bytes)
    }

    /// The bytes of the text, read without memory.
    pub fn bytes(&self) -> &[u8]
        ensures { result.now ≡ self.now }
    {
        self.as_slice()
    }
}
