//! What an event does.

use crate::bodies::Body;
use crate::state::Session;
use crate::texts::Text;
use fix_fields::Moment;

/// Why a session logs a firm out, or refuses a Logon.
#[derive(Clone, Copy, Debug, PartialEq, Eq)]
pub enum Why {
    /// The firm logs out.
    Answered,
    /// The venue is closed.
    Closed,
    /// An operator has suspended the firm.
    Suspended,
    /// EncryptMethod (98) is not 0.
    Encrypted,
    /// DefaultApplVerID (1137) is not 9.
    Version,
    /// HeartBtInt (108) is none of 1 to 300.
    Heartbeat,
    /// SendingTime (52) is no time of this day, or more than two minutes off.
    Clock,
    /// ResetSeqNumFlag (141) is Y, and numbers are not to be reset.
    Reset,
    /// The engine has lost its store.
    Lost,
    /// An operator has reset the session: numbers begin at 1.
    Begin,
    /// MsgSeqNum (34) is one that came before.
    TooLow {
        /// The number that is expected.
        expected: u64,
    },
    /// NextExpectedMsgSeqNum (789) is above what was sent, or no number.
    Ahead,
    /// The firm is logged on already.
    LoggedOn,
    /// MsgSeqNum (34) can't be read.
    Number,
    /// SenderCompID (49) or TargetCompID (56) is another's.
    Names,
    /// A message has more than 65,536 bytes.
    TooLong,
    /// Nothing came, not even an answer to a TestRequest.
    Silent,
}

/// What is wrong with a message, as a Reject tells it.
#[derive(Clone, Copy, Debug, PartialEq, Eq)]
pub struct Fault {
    /// RefTagID (371), where a field is at fault.
    pub tag: Option<u64>,
    /// SessionRejectReason (373).
    pub reason: u64,
}

/// What the gateway says of a message that it does not take.
#[derive(Debug, Drop)]
pub struct Denial<'a> {
    /// BusinessRejectReason (380).
    pub reason: u64,
    /// BusinessRejectRefID (379), where it names one.
    pub id: Option<Text<'a>>,
    /// Text (58).
    pub text: Text<'a>,
}

/// A message to the firm, but for its header.
#[derive(Debug, Drop)]
pub enum Word<'a> {
    /// 35=A: 98=0, 108, 141=Y if the firm's has it, 789 if the firm's has one, 1137=9.
    Logon {
        /// HeartBtInt (108).
        seconds: u64,
        /// ResetSeqNumFlag (141) is Y.
        resets: bool,
        /// NextExpectedMsgSeqNum (789), where the firm sent one.
        expects: Option<u64>,
    },
    /// 35=0: nothing.
    Heartbeat,
    /// 35=0, the answer to a TestRequest: 112.
    Answer {
        /// TestReqID (112).
        id: Text<'a>,
    },
    /// 35=1: 112, its own number.
    TestRequest {
        /// TestReqID (112): its own number.
        id: u64,
    },
    /// 35=2, of all from a number on: 7, 16=0.
    ResendRequest {
        /// BeginSeqNo (7).
        first: u64,
    },
    /// 35=3: 45, 371, 372, 373; no 58.
    Reject {
        /// RefSeqNum (45).
        number: u64,
        /// RefMsgType (372), where the message has one.
        kind: Option<Text<'a>>,
        /// RefTagID (371) and SessionRejectReason (373).
        fault: Fault,
    },
    /// 35=4, a gap fill: 123=Y, 36.
    Fill {
        /// NewSeqNo (36).
        next: u64,
    },
    /// 35=5: 58, and nothing in the answer to the firm's own.
    Logout {
        /// Text (58).
        why: Why,
    },
    /// 35=5: 58, which names another BeginString (8).
    Foreign {
        /// That BeginString.
        version: Text<'a>,
    },
    /// 35=5: 58, a reason that the gateway gives.
    LogoutFor {
        /// Text (58).
        text: Text<'a>,
    },
    /// 35=j, the gateway does not take a message: 45, 372, 379, 380, 58.
    Denied {
        /// RefSeqNum (45).
        number: u64,
        /// RefMsgType (372), where the message has one.
        kind: Option<Text<'a>>,
        /// BusinessRejectReason (380), BusinessRejectRefID (379) and Text (58).
        denial: Denial<'a>,
    },
    /// What is kept: the fields that the venue gave, behind its 35; or those of a Reject, a
    /// BusinessMessageReject, or an answer to a TestRequest.
    Kept {
        /// Its fields behind the header.
        body: Body<'a>,
        /// It was kept under another number before a reset (97=Y).
        is_copy: bool,
    },
    /// What is kept, once more (43=Y): the same.
    Again {
        /// Its fields behind the header.
        body: Body<'a>,
        /// It was kept under another number before a reset (97=Y).
        is_copy: bool,
        /// The moment at which it was kept: OrigSendingTime (122).
        first: Moment,
    },
}

/// What is kept under a number, as the caller hands it back.
#[derive(Debug, Drop)]
pub struct Stored<'a> {
    /// The message.
    pub body: Body<'a>,
    /// The moment at which it was kept.
    pub first: Moment,
    /// It was kept under another number before a reset.
    pub is_copy: bool,
}

/// What becomes of a message.
#[derive(Clone, Copy, Debug, PartialEq, Eq)]
pub enum Way {
    /// It leaves.
    Leaves,
    /// It is kept under its number, and leaves.
    KeptAndLeaves,
    /// It is kept under its number, and waits.
    Kept,
}

/// A message to the firm under its number.
#[derive(Debug, Drop)]
pub struct Said<'a> {
    /// MsgSeqNum (34).
    pub number: u64,
    /// What becomes of it.
    pub way: Way,
    /// What it says.
    pub word: Word<'a>,
}

/// What becomes of a turn's connection.
#[derive(Clone, Copy, Debug, PartialEq, Eq)]
pub enum Ending {
    /// It stands.
    Stands,
    /// It ends.
    Ends,
    /// It ends with the firm's Logout, or after two seconds ([`crate::is_logout`]); nothing that
    /// comes on it goes to the session.
    Parts,
}

/// What an operator is told.
#[derive(Clone, Copy, Debug, PartialEq, Eq)]
pub enum Notice {
    /// The credentials of a Logon were wrong.
    Credentials,
    /// A Logon was refused.
    Refused {
        /// For this reason.
        why: Why,
    },
    /// A Logon was refused, since the gateway does not take it.
    Denied,
    /// The firm's engine has lost its store: no Logon is accepted until an operator acts.
    LostStore,
    /// The firm has sent a Reject: its engine has lost the message that it names.
    Rejected,
    /// A connection ends on which nothing came for two seconds, for a newer one.
    Dead,
}

/// What one event does.
#[derive(Debug, Drop)]
pub struct Turn<'a> {
    /// The session from then on.
    pub session: Session,
    /// The connection on which messages leave, and which ends.
    pub connection: u64,
    /// A message to the firm.
    pub first: Option<Said<'a>>,
    /// Another behind it.
    pub second: Option<Said<'a>>,
    /// The message that came is given to the venue, under this number.
    pub takes: Option<u64>,
    /// The Rejects and BusinessMessageRejects of the session that are kept are kept no longer.
    pub drops_rejects: bool,
    /// What becomes of the connection.
    pub ending: Ending,
    /// What an operator is told.
    pub notice: Option<Notice>,
}

/// What a session asks of its caller.
#[derive(Clone, Copy, Debug, PartialEq, Eq)]
pub enum Want {
    /// Nothing, if none of the others is asked for.
    Nothing,
    /// What is kept under the first number to be sent again: before all else.
    Again {
        /// The number.
        number: u64,
    },
    /// What is kept under the first number that has not left, unless a 35=3 is held.
    Fresh {
        /// The number.
        number: u64,
    },
    /// A tick, if a TestRequest is due; or a ResendRequest, unless a 35=3 is held.
    Tick,
    /// The Logon of the connection that waits, once more, if the session has no connection.
    Logon {
        /// The connection.
        connection: u64,
    },
}
