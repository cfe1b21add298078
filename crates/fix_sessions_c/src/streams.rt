//! What asks no session, or changes none.
ghost use Rattle.std.specs.Prelude.{◌≡◌, ◌++◌, ◌⊎◌, true, false, IfOk};
ghost use Rattle.fix_sessions.specs.Cuts as cuts;
ghost use Rattle.fix_sessions.specs.Heard as heard;
ghost use Rattle.fix_sessions.specs.Sending as sending;
ghost use Rattle.fix_sessions.specs.Visits as visits;
ghost use Rattle.fix_sessions_c.specs.States.{read};
ghost use Rattle.fix_sessions_c.specs.Told as spec;

use crate::states::{SessionState, read};
use crate::told::copy;
use fix_fields::{Date, Memory, Moment};
use fix_sessions::{
    Clock, Logon, Text, Want, What, is_first_late, is_logout, is_parting_over, next_message,
    question, wants,
};
use std::alloc::Global;

/// What is found in a stream.
#[repr(C)]
#[derive(Clone, Copy)]
pub struct FoundNext {
    /// So many bytes are garbled.
    pub skip: usize,
    /// What stands behind them: 0 no whole message, 1 a message, 2 the first 65,536 bytes of one that
    /// is too long.
    pub kind: u32,
    /// The length of that message.
    pub len: usize,
}

/// How long the texts of a Logon are that a question copies, one behind the other.
#[repr(C)]
#[derive(Clone, Copy)]
pub struct Asked {
    /// SenderCompID (49).
    pub firm: usize,
    /// TargetCompID (56).
    pub venue: usize,
    /// TargetSubID (57), or 0.
    pub desk: usize,
    /// Username (553), or 0.
    pub username: usize,
    /// Password (554), or 0.
    pub password: usize,
}

/// What a session asks for.
#[repr(C)]
#[derive(Clone, Copy)]
pub struct Wanted {
    /// 0 nothing, 1 what is kept under a number, which leaves again, 2 the same for the first time,
    /// 3 a tick, 4 the Logon of a connection once more.
    pub kind: u32,
    /// That number, or that connection.
    pub number: u64,
}

/// Finds the first message of a stream.
#[unsafe(no_mangle)]
pub extern "C" fn fix_sessions_next(bytes: &[u8], found: &mut FoundNext)
    ensures { found.new ≡ spec.found_next (cuts.next_message bytes.now) }
{
    let next = next_message(bytes);
    *found = found_by(next.skip, next.what);
}

/// What is found behind so many bytes.
fn found_by(skip: usize, what: What) -> FoundNext
    ensures { result ≡ spec.found_by skip what }
{
    match what {
        What::Nothing => FoundNext {
            skip,
            kind: 0,
            len: 0,
        },
        What::Message { len } => FoundNext { skip, kind: 1, len },
        What::TooLong => FoundNext {
            skip,
            kind: 2,
            len: 0,
        },
    }
}

/// What the first message of a connection asks for. False where it is no Logon that can be read,
/// memory is refused, or `out` is too short.
#[unsafe(no_mangle)]
pub extern "C" fn fix_sessions_question(
    alloc: Global,
    bytes: &[u8],
    out: &mut [u8],
    lengths: &mut Asked,
) -> bool
    ensures { result ≡ true → spec.IsAsked (heard.question bytes.now) out.new lengths.new }
{
    let Some(logon) = question(bytes) else {
        return false;
    };
    let Ok(all) = asked_bytes(alloc, &logon) else {
        return false;
    };
    if !copy(out, &all) {
        return false;
    }
    *lengths = asked_of(&logon);
    true
}

/// The texts of a Logon, one behind the other.
fn asked_bytes(alloc: Global, logon: &Logon) -> Result<Vec<u8>, Memory>
    ensures { IfOk result (λ all. all.items ≡ spec.asked_bytes logon.now) }
{
    let mut all = Vec::new(alloc);
    all.extend_from_slice(logon.firm.as_bytes())?;
    all.extend_from_slice(logon.venue.as_bytes())?;
    all.extend_from_slice(text_or_none(&logon.desk))?;
    all.extend_from_slice(text_or_none(&logon.username))?;
    all.extend_from_slice(text_or_none(&logon.password))?;
    Ok(all)
}

/// Their lengths.
fn asked_of(logon: &Logon) -> Asked
    ensures { result ≡ spec.asked_of logon.now }
{
    Asked {
        firm: logon.firm.as_bytes().len(),
        venue: logon.venue.as_bytes().len(),
        desk: text_or_none(&logon.desk).len(),
        username: text_or_none(&logon.username).len(),
        password: text_or_none(&logon.password).len(),
    }
}

/// A text, or no bytes.
fn text_or_none<'a>(text: &Option<Text<'a>>) -> &'a [u8]
    ensures { result.now ≡ spec.text_or_none text.now }
{
    match text {
        Some(text) => text.as_bytes(),
        None => &[],
    }
}

/// Whether bytes are a Logout.
#[unsafe(no_mangle)]
pub extern "C" fn fix_sessions_is_logout(bytes: &[u8]) -> bool
    ensures { result ≡ heard.is_logout bytes.now }
{
    is_logout(bytes)
}

/// What a session asks for.
#[unsafe(no_mangle)]
pub extern "C" fn fix_sessions_wants(session: &SessionState, wanted: &mut Wanted)
    ensures { wanted.new ≡ spec.wanted (sending.wants (read session.now)) }
{
    *wanted = wanted_of(wants(&read(session)));
}

/// What is wanted, as a number and what it is about.
fn wanted_of(want: Want) -> Wanted
    ensures { result ≡ spec.wanted want }
{
    match want {
        Want::Nothing => Wanted { kind: 0, number: 0 },
        Want::Again { number } => Wanted { kind: 1, number },
        Want::Fresh { number } => Wanted { kind: 2, number },
        Want::Tick => Wanted { kind: 3, number: 0 },
        Want::Logon { connection } => Wanted {
            kind: 4,
            number: connection,
        },
    }
}

/// Whether a connection ends on which no whole message came since that moment. False where a text is
/// none.
#[unsafe(no_mangle)]
pub extern "C" fn fix_sessions_is_first_late(since: u64, date: &[u8], moment: u32) -> bool
    ensures late { result ≡ true → visits.is_first_late since moment ≡ true }
    ensures not_late { result ≡ false
        → spec.IsNoTime date.now moment ⊎ (visits.is_first_late since moment ≡ false) }
{
    let Some(date) = Date::new(date) else {
        return false;
    };
    let Some(moment) = Moment::new(moment) else {
        return false;
    };
    is_first_late(since, &Clock::new(&date, moment))
}

/// Whether a connection ends on which a Logout left at that moment that refused a Logon. False where
/// a text is none.
#[unsafe(no_mangle)]
pub extern "C" fn fix_sessions_is_parting_over(since: u64, date: &[u8], moment: u32) -> bool
    ensures over { result ≡ true → visits.is_parting_over since moment ≡ true }
    ensures not_over { result ≡ false
        → spec.IsNoTime date.now moment ⊎ (visits.is_parting_over since moment ≡ false) }
{
    let Some(date) = Date::new(date) else {
        return false;
    };
    let Some(moment) = Moment::new(moment) else {
        return false;
    };
    is_parting_over(since, &Clock::new(&date, moment))
}
