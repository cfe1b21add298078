//! Why a message is not translated.

use thiserror::Error;

/// Why a message is not translated: the first of these.
#[derive(Clone, Copy, Debug, PartialEq, Eq, Error)]
pub enum Untranslated {
    /// To a firm: it is no frame that begins with 35, 49, 56, 34 and 52. To the venue: it is no
    /// message whose body is lawful fields, the first with tag 35 (MsgType).
    #[error("the message does not have the fields of one")]
    Form,
    /// To a firm: its MsgSeqNum (34) is not the number that is due.
    #[error("MsgSeqNum (34) of the venue's message is not the number that is due")]
    Number,
    /// To a firm: it has a field that the wire adds: 1181, 60, or that of what is told beside it.
    #[error("the venue's message has a field that the wire adds")]
    Added,
    /// To a firm: what stands behind the session's header would be longer than
    /// [`MOST_WIRE_BODY`](crate::MOST_WIRE_BODY). To the venue: it would be longer than a frame may be.
    #[error("the message is too long")]
    TooLong,
    /// Memory is refused. It is asked for of messages without the faults above, but for the length.
    #[error("memory is refused")]
    Memory,
}
