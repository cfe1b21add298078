//! Texts (58) of a Logout.
ghost use Rattle.std.specs.Prelude.{◌≡◌, ◌≤◌, true, length};
ghost use Rattle.fix_sessions.specs.Written as spec;
ghost use Rattle.fix_fields.specs.Frame.{IsValue};

use crate::turns::Why;

/// Text (58) of a Logout that names no number, and is not the answer to the firm's own.
pub(crate) fn why_text(why: Why) -> &'static [u8]
    ensures value_is { spec.names_no_number why ≡ true → result.now ≡ spec.why_text why }
    ensures short { length result.now ≤ 80 }
    ensures value { IsValue result.now }
{
    match why {
        Why::Answered => b"",
        Why::Closed => b"the venue is closed",
        Why::Suspended => b"suspended by the venue",
        Why::Encrypted => b"EncryptMethod (98) is not 0",
        Why::Version => b"DefaultApplVerID (1137) is not 9",
        Why::Heartbeat => b"HeartBtInt (108) is not 1 to 300",
        Why::Clock => b"SendingTime (52) is not the venue's time",
        Why::Reset => b"numbers are not reset any more today (141)",
        Why::Lost => b"MsgSeqNum was too low: ask the venue",
        Why::Begin => b"numbers begin at 1: log on with 141=Y",
        Why::TooLow { .. } => b"MsgSeqNum too low",
        Why::Ahead => b"NextExpectedMsgSeqNum (789) is not one that the venue has reached",
        Why::LoggedOn => b"logged on already",
        Why::Number => b"MsgSeqNum (34) can not be read",
        Why::Names => b"SenderCompID (49) or TargetCompID (56) is another's",
        Why::TooLong => b"a message has more than 65536 bytes",
        Why::Silent => b"nothing came",
    }
}
