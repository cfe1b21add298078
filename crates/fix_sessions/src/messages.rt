//! What a message says to a session.

use crate::texts::Text;
use crate::turns::{Denial, Fault};

/// What a field says that has a number or a time.
#[derive(Clone, Copy, Debug, PartialEq, Eq)]
pub enum Reading {
    /// The field is missing.
    Missing,
    /// It has no number, or no time.
    Faulty,
    /// It has this number, or the milliseconds from the beginning of the calendar to this time.
    Is {
        /// The number.
        value: u64,
    },
}

/// What a TestRequest asks for.
#[derive(Debug, Drop)]
pub enum TestId<'a> {
    /// TestReqID (112) is missing.
    Missing,
    /// It has more than 1,024 bytes.
    TooLong,
    /// This TestReqID.
    Is {
        /// The TestReqID.
        id: Text<'a>,
    },
}

/// What a Logon asks for.
#[derive(Clone, Copy, Debug, PartialEq, Eq)]
pub struct Terms {
    /// MsgSeqNum (34).
    pub number: u64,
    /// SendingTime (52).
    pub sent: Reading,
    /// EncryptMethod (98) is 0.
    pub is_plain: bool,
    /// DefaultApplVerID (1137) is 9.
    pub is_fix50: bool,
    /// HeartBtInt (108).
    pub seconds: Reading,
    /// ResetSeqNumFlag (141) is Y.
    pub resets: bool,
    /// NextExpectedMsgSeqNum (789).
    pub expects: Reading,
}

/// What a message says beside its header.
#[derive(Debug, Drop)]
pub enum Kind<'a> {
    /// Logon (35=A).
    Logon,
    /// Heartbeat (35=0).
    Heartbeat {
        /// The number of the TestRequest that it answers (112).
        answers: Option<u64>,
    },
    /// TestRequest (35=1).
    TestRequest {
        /// What it asks for.
        id: TestId<'a>,
    },
    /// ResendRequest (35=2).
    ResendRequest {
        /// BeginSeqNo (7).
        first: Reading,
        /// EndSeqNo (16).
        last: Reading,
    },
    /// Reject (35=3).
    Reject,
    /// SequenceReset (35=4) that fills a gap: its GapFillFlag (123) is neither absent nor N.
    Fill {
        /// NewSeqNo (36).
        next: Reading,
    },
    /// SequenceReset (35=4) in reset mode.
    Reset {
        /// NewSeqNo (36).
        next: Reading,
    },
    /// Logout (35=5).
    Logout,
    /// A message of the venue's that the gateway does not take.
    Denied {
        /// What it says of it.
        denial: Denial<'a>,
    },
    /// Another message: the venue's.
    Other,
}

/// What a Reject names of a message.
#[derive(Debug, Drop)]
pub struct Origin<'a> {
    /// MsgSeqNum (34), where it is there once and a number from 1 on.
    pub number: Option<u64>,
    /// MsgType (35).
    pub msg_type: Option<Text<'a>>,
}

/// A message that came, as a session sees it.
#[derive(Debug, Drop)]
pub struct Incoming<'a> {
    /// BeginString (8), where it is not FIXT.1.1.
    pub version: Option<Text<'a>>,
    /// What a Reject names of it.
    pub origin: Origin<'a>,
    /// The tag of SenderCompID (49) or TargetCompID (56), where it is another's.
    pub stranger: Option<u64>,
    /// PossDupFlag (43) is Y.
    pub is_repeat: bool,
    /// SendingTime (52).
    pub sent: Reading,
    /// OrigSendingTime (122).
    pub first_sent: Reading,
    /// What is wrong with its form.
    pub flaw: Option<Fault>,
    /// What it says.
    pub kind: Kind<'a>,
}

/// What came.
#[derive(Debug, Drop)]
pub enum Heard<'a> {
    /// No message: it is garbled.
    Garbled,
    /// The first bytes of a message that is too long.
    TooLong {
        /// Its MsgSeqNum (34).
        number: Option<u64>,
    },
    /// A message.
    Message {
        /// What it says.
        message: Incoming<'a>,
    },
}
