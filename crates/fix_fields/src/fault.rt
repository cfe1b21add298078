//! What is wrong with bytes that are no frame, and with texts that are no moment.
ghost use Rattle.std.specs.Prelude.{◌≡◌};

use crate::Memory;
use thiserror::Error;

/// Why bytes are no frame: the first of these checks, in this order, that they do not pass.
#[derive(Clone, Copy, Debug, PartialEq, Eq, Error)]
pub enum Garbled {
    /// There are more than 4,096 bytes.
    #[error("the message is longer than 4,096 bytes")]
    TooLong,
    /// They do not begin `8=FIXT.1.1`, SOH, `9=` (BeginString, and the tag of BodyLength).
    #[error("the message does not begin with BeginString FIXT.1.1 and BodyLength")]
    Start,
    /// They do not go on with BodyLength (9), 1 to 6 digits and SOH, or what follows is not exactly
    /// that number of bytes and seven more.
    #[error("BodyLength is not the length of the body")]
    Length,
    /// Their body is not one or more fields `tag=value` SOH, each with a tag of 1 to 9 digits that
    /// does not begin with 0 and is not 8, 9 or 10, the first with tag 35 (MsgType).
    #[error("the body is no list of fields that begins with MsgType")]
    Field,
    /// They do not end in `10=` (CheckSum), three digits and SOH.
    #[error("the message does not end with CheckSum")]
    End,
    /// CheckSum (10) is not the sum of all bytes before it, modulo 256.
    #[error("CheckSum is not the sum of the bytes")]
    Sum,
}

/// Why no more messages can be cut out of a stream of bytes. A fault of the first four stands for
/// ever; it shows at one byte, and what comes behind that byte is no matter.
#[derive(Clone, Copy, Debug, PartialEq, Eq, Error)]
pub enum StreamFault {
    /// A message departs from `8=FIXT.1.1`, SOH, `9=` (BeginString, and the tag of BodyLength). It
    /// shows at the first byte that does.
    #[error("a message does not begin with BeginString FIXT.1.1 and BodyLength")]
    Start,
    /// BodyLength (9) is not 1 to 6 digits and SOH. It shows at the first byte that can't belong to
    /// them.
    #[error("BodyLength is not 1 to 6 digits")]
    Length,
    /// The message would have more than 4,096 bytes. It shows at the SOH after BodyLength (9).
    #[error("a message is longer than 4,096 bytes")]
    TooLong,
    /// The seven bytes after the body are not `10=` (CheckSum), three digits and SOH. It shows at
    /// the last of the seven.
    #[error("a message does not end with CheckSum")]
    End,
    /// Memory was refused. The bytes may be fed again.
    #[error("out of memory")]
    Memory,
}

impl From<Memory> for StreamFault {
    ghost use Rattle.fix_fields.specs.declared.fault.StreamFault.TheVariants.{Memory};

    ghost from_gives = { λ _ fault. fault ≡ Memory };

    fn from(_error: Memory) -> StreamFault {
        StreamFault::Memory
    }
}

/// Why a text is no moment of a day.
#[derive(Clone, Copy, Debug, PartialEq, Eq, Error)]
pub enum MomentFault {
    /// It is neither `YYYYMMDD-HH:MM:SS` nor `YYYYMMDD-HH:MM:SS.sss` of any date and time of day.
    #[error("the text is no UTCTimestamp")]
    Form,
    /// It is a moment of another date.
    #[error("the UTCTimestamp is one of another day")]
    OtherDay,
}
