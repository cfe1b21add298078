//! Why a message is rejected at the session level.

use thiserror::Error;

/// SessionRejectReason (373) of a Reject (35=3).
#[derive(Clone, Copy, Debug, PartialEq, Eq, Error)]
pub enum SessionRejectReason {
    /// 1: the tag is required and does not stand.
    #[error("required tag missing")]
    RequiredTagMissing,
    /// 4: the tag stands without a value.
    #[error("tag without a value")]
    TagWithoutValue,
    /// 5: the value is not one that the tag may have here.
    #[error("value not allowed for this tag")]
    ValueIncorrect,
    /// 6: the value is not of the tag's form.
    #[error("incorrect data format for value")]
    IncorrectDataFormat,
    /// 9: SenderCompID (49) or TargetCompID (56) names another firm.
    #[error("CompID problem")]
    CompIdProblem,
    /// 11: MsgType (35) is none that the firm may send.
    #[error("MsgType that this firm may not send")]
    InvalidMsgType,
    /// 13: the tag stands more than once.
    #[error("tag more than once")]
    TagMoreThanOnce,
    /// 16: the party group is not one run of as many entries as NoPartyIDs (453) says.
    #[error("incorrect number of entries in the group")]
    IncorrectNumInGroup,
}

impl SessionRejectReason {
    ghost use Rattle.std.specs.Prelude.{◌≡◌, ◌<◌};
    ghost use Rattle.quote_messages.specs.Codes.{session_reject_code};

    /// The number that stands in the field 373.
    pub fn code(self) -> u64
        ensures code { result ≡ session_reject_code self }
        ensures short { result < 100 }
    {
        match self {
            SessionRejectReason::RequiredTagMissing => 1,
            SessionRejectReason::TagWithoutValue => 4,
            SessionRejectReason::ValueIncorrect => 5,
            SessionRejectReason::IncorrectDataFormat => 6,
            SessionRejectReason::CompIdProblem => 9,
            SessionRejectReason::InvalidMsgType => 11,
            SessionRejectReason::TagMoreThanOnce => 13,
            SessionRejectReason::IncorrectNumInGroup => 16,
        }
    }
}

/// The first fault of a message at the session level.
#[derive(Clone, Copy, Debug, PartialEq, Eq, Error)]
#[error("field {tag}: {reason}")]
pub struct SessionFault {
    /// The tag at fault, RefTagID (371).
    pub tag: u32,
    /// What is wrong with it, SessionRejectReason (373).
    pub reason: SessionRejectReason,
}
