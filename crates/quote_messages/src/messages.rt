//! The bytes of a message.
ghost use Rattle.std.specs.Prelude.{◌≡◌, ℕ, List, IfOk};

use fix_fields::Memory;
use std::alloc::Global;
use std::marker::Model;

/// The bytes of one message, received or sent. A contract sees the list of them.
#[derive(Drop)]
pub struct Message {
    bytes: Vec<u8>,
}

impl Model for Message {
    ghost Value = { List ℕ };

    ghost view = { λ m. m.bytes.items };
}

impl Message {
    /// The message of these bytes. It takes no memory.
    pub fn new(bytes: Vec<u8>) -> Self
        ensures { result ≡ bytes.items }
    {
        Message { bytes }
    }

    /// A copy of these bytes; it fails only for memory.
    pub fn copy_of(alloc: Global, bytes: &[u8]) -> Result<Self, Memory>
        ensures { IfOk result (λ m. m ≡ bytes.now) }
    {
        let bytes = Vec::from_slice(alloc, bytes)?;
        Ok(Message { bytes })
    }

    /// The bytes.
    pub fn as_bytes(&self) -> &[u8]
        ensures { result.now ≡ self.now }
    {
        self.bytes.as_slice()
    }

    /// The bytes as the list that they are kept in. It takes no memory.
    pub fn into_bytes(self) -> Vec<u8>
        ensures { result.items ≡ self }
    {
        self.bytes
    }
}
