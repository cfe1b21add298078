//! The number of a message.
ghost use Rattle.std.specs.Prelude.{◌≡◌};
ghost use Rattle.note_lines.specs.NoteLines as spec;

use fix_fields::Frame;
use quote_messages::read_number;

/// The tag of MsgSeqNum.
const MSG_SEQ_NUM: u32 = 34;

/// MsgSeqNum (34) of a message that a firm is sent, or 0 where it has none.
pub fn number_in(frame: &Frame<'_>) -> u64
    ensures { result ≡ spec.number_in frame.now }
{
    let Some(value) = frame.get(MSG_SEQ_NUM) else {
        return 0;
    };
    read_number(value).unwrap_or(0)
}
