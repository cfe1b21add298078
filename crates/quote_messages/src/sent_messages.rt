//! The messages that the venue sends.
ghost use Rattle.std.specs.Prelude.{◌≡◌, ◌≤◌, ℕ, List, Some, length, IsTrue, is_some};
ghost use Rattle.fix_fields.specs.Frame.{frame_of};

use fix_fields::{Frame, known_frame};
use std::marker::Model;

/// A message that the venue sends: its bytes are a frame. A contract sees the list of them.
#[derive(Drop)]
pub struct SentMessage {
    bytes: Vec<u8>,
}

impl Model for SentMessage {
    ghost Value = { List ℕ };

    ghost view = { λ m. m.bytes.items };

    ghost invariant = { λ m. IsTrue (is_some (frame_of m.bytes.items)) };
}

impl SentMessage {
    /// The message of the bytes of a frame. It takes no memory.
    pub(crate) fn new(bytes: Vec<u8>) -> Self
        requires { IsTrue (is_some (frame_of bytes.items)) }
        ensures { result ≡ bytes.items }
    {
        SentMessage { bytes }
    }

    /// The frame that the bytes are. It is not tested again.
    pub fn frame(&self) -> Frame<'_>
        ensures { frame_of self.now ≡ Some result }
    {
        known_frame(self.bytes.as_slice())
    }

    /// The bytes.
    pub fn as_bytes(&self) -> &[u8]
        ensures value { result.now ≡ self.now }
        ensures frame { IsTrue (is_some (frame_of result.now)) }
    {
        self.bytes.as_slice()
    }

    /// The bytes as the list that they are kept in. It takes no memory.
    pub fn into_bytes(self) -> Vec<u8>
        ensures value { result.items ≡ self }
        ensures frame { IsTrue (is_some (frame_of result.items)) }
    {
        self.bytes
    }
}
