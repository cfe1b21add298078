//! Messages with the firms that they are sent to.
ghost use Rattle.std.specs.Prelude.{◌≡◌, ℕ, List, Some, IsTrue, is_some, IfOk};
ghost use Rattle.fix_fields.specs.Frame.{frame_of};

use fix_fields::{Frame, Memory, known_frame};
use quote_messages::SentMessage;
use std::alloc::Global;
use std::marker::Model;

/// A message that the venue sends, and the firm that it goes to. A contract sees the number of the
/// firm and the bytes.
#[derive(Drop)]
pub struct SentTo {
    firm: u16,
    bytes: Vec<u8>,
}

impl Model for SentTo {
    ghost use Rattle.std.specs.Prelude.{ℕ, List, IsTrue, is_some};
    ghost use Rattle.fix_fields.specs.Frame.{frame_of};

    ghost Value = { ℕ × List ℕ };

    ghost view = { λ sent. (sent.firm, sent.bytes.items) };

    ghost invariant = { λ sent. IsTrue (is_some (frame_of sent.bytes.items)) };
}

impl SentTo {
    /// A message as the firm with this number was sent it.
    pub(crate) fn new(alloc: Global, firm: u16, message: &SentMessage) -> Result<Self, Memory>
        ensures { IfOk result (λ sent. sent ≡ (firm, message.now)) }
    {
        let mut bytes = Vec::new(alloc);
        bytes.extend_from_slice(message.as_bytes())?;
        Ok(SentTo { firm, bytes })
    }

    /// The number of the firm.
    pub fn firm(&self) -> u16
        ensures { result ≡ self.now.0 }
    {
        self.firm
    }

    /// The bytes of the message.
    pub fn as_bytes(&self) -> &[u8]
        ensures { result.now ≡ self.now.1 }
    {
        self.bytes.as_slice()
    }

    /// The frame that the bytes are. It is not tested again.
    pub fn frame(&self) -> Frame<'_>
        ensures { frame_of self.now.1 ≡ Some result }
    {
        known_frame(self.bytes.as_slice())
    }
}
