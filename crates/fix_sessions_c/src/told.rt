//! What a turn tells C.
ghost use Rattle.std.specs.Prelude.{◌≡◌, ◌<◌, length, take, true, false};
ghost use Rattle.fix_sessions_c.specs.Told as spec;

use crate::parts::{Parts, Setting, joined, parts_of};
use crate::states::{SessionState, shown};
use fix_sessions::{Ending, Notice, Said, Turn, Way};
use std::alloc::Global;

/// A message of a turn.
#[repr(C)]
#[derive(Clone, Copy)]
pub struct Sent {
    /// MsgSeqNum (34), or 0 where there is none.
    pub number: u64,
    /// How many bytes leave.
    pub len: usize,
    /// It is kept under its number.
    pub is_kept: bool,
}

/// What one event did.
#[repr(C)]
#[derive(Clone, Copy)]
pub struct Told {
    /// The connection on which messages leave, and which ends.
    pub connection: u64,
    /// The message that leaves first, or is kept.
    pub first: Sent,
    /// The message that leaves behind it.
    pub second: Sent,
    /// How many bytes the frame has that is kept under the first one's number.
    pub kept_len: usize,
    /// The message that came is given to the venue under this number, or 0.
    pub takes: u64,
    /// The Rejects and BusinessMessageRejects of the session that are kept are kept no longer.
    pub drops_rejects: bool,
    /// What becomes of the connection: 0 it stands, 1 it ends, 2 it ends with the firm's Logout or
    /// after two seconds.
    pub ending: u32,
    /// What an operator is told: 0 nothing, 1 wrong credentials, 2 a Logon was refused, 3 the engine
    /// has lost its store, 4 the firm sent a Reject, 5 an old connection was dead.
    pub notice: u32,
}

/// A number, or 0.
pub(crate) fn code(number: Option<u64>) -> u64
    ensures { result ≡ spec.code number }
{
    match number {
        None => 0,
        Some(number) => number,
    }
}

/// A message, with this many bytes that leave.
fn sent_of(said: &Option<Said>, len: usize) -> Sent
    ensures { result ≡ spec.sent_of said.now len }
{
    match said {
        None => Sent {
            number: 0,
            len,
            is_kept: false,
        },
        Some(said) => Sent {
            number: said.number,
            len,
            is_kept: is_kept(said.way),
        },
    }
}

/// Whether a message is kept.
pub(crate) fn is_kept(way: Way) -> bool
    ensures { result ≡ spec.is_kept way }
{
    match way {
        Way::Leaves => false,
        Way::KeptAndLeaves => true,
        Way::Kept => true,
    }
}

/// Whether a message leaves.
pub(crate) fn is_leaving(way: Way) -> bool
    ensures { result ≡ spec.is_leaving way }
{
    match way {
        Way::Leaves => true,
        Way::KeptAndLeaves => true,
        Way::Kept => false,
    }
}

/// What becomes of a connection, as a number.
fn ending_code(ending: Ending) -> u32
    ensures { result ≡ spec.ending_code ending }
{
    match ending {
        Ending::Stands => 0,
        Ending::Ends => 1,
        Ending::Parts => 2,
    }
}

/// What an operator is told, as a number.
fn notice_code(notice: Option<Notice>) -> u32
    ensures { result ≡ spec.notice_code notice }
{
    match notice {
        None => 0,
        Some(notice) => some_notice_code(notice),
    }
}

/// The same of a notice.
fn some_notice_code(notice: Notice) -> u32
    ensures { result ≡ spec.some_notice_code notice }
{
    match notice {
        Notice::Credentials => 1,
        Notice::Refused { .. } => 2,
        Notice::Denied => 2,
        Notice::LostStore => 3,
        Notice::Rejected => 4,
        Notice::Dead => 5,
    }
}

/// What a turn did, with so many bytes.
fn told_of(turn: &Turn, first: usize, second: usize, kept: usize) -> Told
    ensures { result ≡ spec.told_of turn.now first second kept }
{
    Told {
        connection: turn.connection,
        first: sent_of(&turn.first, first),
        second: sent_of(&turn.second, second),
        kept_len: kept,
        takes: code(turn.takes),
        drops_rejects: turn.drops_rejects,
        ending: ending_code(turn.ending),
        notice: notice_code(turn.notice),
    }
}

/// Bytes are copied to the front of a place, where there is room for them.
pub(crate) fn copy(out: &mut [u8], bytes: &[u8]) -> bool
    ensures done { result ≡ true → take (length bytes.now) out.new ≡ bytes.now }
    ensures not_done { result ≡ false → length out.old < length bytes.now }
{
    if bytes.len() > out.len() {
        return false;
    }
    out[..bytes.len()].copy_from_slice(bytes);
    true
}

/// What a turn does is told, and the session goes on; or, where memory or room is refused, the
/// session is as before.
pub(crate) fn tell(
    alloc: Global,
    setting: &Setting,
    turn: &Turn,
    session: &mut SessionState,
    out: &mut [u8],
    report: &mut Told,
) -> bool
    ensures done { result ≡ true → spec.IsTold setting.now.names setting.now.date setting.now.moment turn.now session.new out.new report.new }
    ensures not_done { result ≡ false → session.new ≡ session.old }
{
    let Ok(parts) = parts_of(alloc, setting, turn) else {
        return false;
    };
    let Ok(bytes) = joined(alloc, &parts) else {
        return false;
    };
    if !copy(out, &bytes) {
        return false;
    }
    let Parts {
        first,
        second,
        kept,
    } = parts;
    *report = told_of(turn, first.len(), second.len(), kept.len());
    *session = shown(&turn.session);
    true
}
