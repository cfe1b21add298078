//! The messages that come from a firm.
ghost use Rattle.std.specs.Prelude.{◌≡◌, IfOk, IsTrue, is_some};
ghost use Rattle.fix_fields.specs.Frame.{frame_of};

use crate::Message;
use fix_fields::Memory;
use std::alloc::Global;
use std::marker::Model;

/// A message that comes from a firm, and whether its bytes are known to be a frame, as those are
/// that this program wrote for the firm itself: then nothing of it is tested again. A contract sees
/// the list of the bytes.
#[derive(Drop)]
pub struct FirmMessage {
    message: Message,
    is_frame: bool,
}

impl Model for FirmMessage {
    ghost use Rattle.std.specs.Prelude.{ℕ, List, IsTrue, is_some};
    ghost use Rattle.fix_fields.specs.Frame.{frame_of};

    ghost Value = { List ℕ };

    ghost view = { λ m. m.message };

    ghost invariant = { λ m. IsTrue m.is_frame → IsTrue (is_some (frame_of m.message)) };
}

impl FirmMessage {
    /// A message of any bytes. It takes no memory.
    pub fn new(message: Message) -> Self
        ensures { result ≡ message }
    {
        FirmMessage {
            message,
            is_frame: false,
        }
    }

    /// A message whose bytes are a frame. It takes no memory.
    pub fn of_frame(message: Message) -> Self
        requires { IsTrue (is_some (frame_of message)) }
        ensures { result ≡ message }
    {
        FirmMessage {
            message,
            is_frame: true,
        }
    }

    /// A copy of any bytes; it fails only for memory.
    pub fn copy_of(alloc: Global, bytes: &[u8]) -> Result<Self, Memory>
        ensures { IfOk result (λ m. m ≡ bytes.now) }
    {
        let message = Message::copy_of(alloc, bytes)?;
        Ok(FirmMessage {
            message,
            is_frame: false,
        })
    }

    /// Whether the bytes are known to be a frame.
    pub fn is_frame(&self) -> bool
        ensures { IsTrue result → IsTrue (is_some (frame_of self.now)) }
    {
        self.is_frame
    }

    /// The bytes.
    pub fn as_bytes(&self) -> &[u8]
        ensures { result.now ≡ self.now }
    {
        self.message.as_bytes()
    }

    /// The message alone. It takes no memory.
    pub fn into_message(self) -> Message
        ensures { result ≡ self }
    {
        self.message
    }
}
