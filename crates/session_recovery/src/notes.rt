//! What the gateway seals beside the entries.
ghost use Rattle.std.specs.Prelude.{◌≡◌};
ghost use Rattle.session_recovery.specs.Notes as spec;

/// A running hash of 256 bits, as four numbers.
#[repr(C)]
#[derive(Clone, Copy, Debug, PartialEq, Eq)]
pub struct Digest {
    /// Its first 64 bits.
    pub first: u64,
    /// Its second.
    pub second: u64,
    /// Its third.
    pub third: u64,
    /// Its fourth.
    pub fourth: u64,
}

/// What a note is of.
#[derive(Clone, Copy, Debug, PartialEq, Eq)]
pub enum NoteKind {
    /// The answer to a Logon (A): number 1 is free no more, and the session not freshly reset. Its
    /// last Logon is LOGON. With `Y` the Rejects and BusinessMessageRejects are kept no longer, and
    /// the last message that is kept is the last that is given.
    Logon {
        /// SendingTime (52) of the Logon, counted as [`Note::moment`].
        last_logon: u64,
        /// ResetSeqNumFlag (141) is Y.
        resets: bool,
    },
    /// A Heartbeat, TestRequest or ResendRequest (0, 1, 2): nothing else.
    Own,
    /// A Reject or BusinessMessageReject (3, j): it is kept under its number, first sent at MOMENT,
    /// and is the last that is kept.
    Reject,
    /// A Logout (5): number 1 is free no more.
    Logout,
    /// An operator's reset (R): epoch is one more. The venue's messages that are kept under numbers
    /// above HAD get the numbers from 2 on, in their order, as copies, and nothing else is kept.
    /// The first and the last that are given, and the last that is kept, are the first and the last
    /// of the copies; with none they are 0. The next number is behind them. Expected is 1, had 0,
    /// number 1 is free, the session is freshly reset at MOMENT and not locked, and there was no
    /// Logon. Entries up to LAST count no longer.
    Reset {
        /// The last place among the entries before it.
        since: u64,
        /// The place of the act that it carries out.
        act: u64,
    },
    /// The firm's engine has lost its store (L): the session is locked.
    Locked,
    /// An operator's release (L): the session is not locked.
    Released {
        /// The place of the act.
        act: u64,
    },
    /// A mark (M): nothing else.
    Mark,
}

/// A note of one firm's session, without the body of a Reject.
#[repr(C)]
#[derive(Clone, Copy, Debug, PartialEq, Eq)]
pub struct Note {
    /// How many resets by an operator were carried out before it.
    pub epoch: u64,
    /// MsgSeqNum (34) of the message, or 0 where there is none.
    pub number: u64,
    /// How many messages the venue had given the firm before it.
    pub given: u64,
    /// Their running hash.
    pub digest: Digest,
    /// When it was put, in milliseconds from the beginning of the calendar.
    pub moment: u64,
    /// The number that the firm's next message has, after it.
    pub expected: u64,
    /// The number of the last TestRequest that the firm has answered, or 0.
    pub had: u64,
    /// What it is of.
    pub kind: NoteKind,
}

/// Whether two hashes are the same.
pub(crate) fn is_same(one: &Digest, other: &Digest) -> bool
    ensures { result ≡ spec.is_same one.now other.now }
{
    one.first == other.first
        && one.second == other.second
        && one.third == other.third
        && one.fourth == other.fourth
}
