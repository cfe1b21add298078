//! What bytes say to a session.
ghost use Rattle.std.specs.Prelude.{◌≡◌, ◌≤◌, length, IfSome, option_and_then};
ghost use Rattle.std.specs.Option.{option_copied};
ghost use Rattle.fix_fields.specs.Frame.{value_of};
ghost use Rattle.fix_sessions.specs.Fields.{fields_in};
ghost use Rattle.fix_sessions.specs.Heard as spec;
ghost use Rattle.fix_sessions.specs.Texts as texts;
ghost use Rattle.fix_sessions.specs.Texts.{number_of};

use crate::cuts::{Front, body_of, front_of, read_of_long, version_of};
use crate::fields::has;
use crate::flaws::{flaw_of, is_msg_type};
use crate::messages::{Heard, Incoming, Kind, Origin, Reading, Terms, TestId};
use crate::numbers::read_number;
use crate::scanned::Scanned;
use crate::texts::{Names, Text};
use crate::times::read_time;

/// Whose session the first message of a connection names, and its credentials.
#[derive(Debug, Drop)]
pub struct Logon<'a> {
    /// SenderCompID (49).
    pub firm: Text<'a>,
    /// TargetCompID (56).
    pub venue: Text<'a>,
    /// TargetSubID (57).
    pub desk: Option<Text<'a>>,
    /// Username (553).
    pub username: Option<Text<'a>>,
    /// Password (554).
    pub password: Option<Text<'a>>,
}

/// What the first message of a connection asks for: whose session it is, and the credentials. None
/// where it is no Logon that can be read: then the connection is to end.
#[tactic(auto, unfolding(crate::specs::Heard::question))]
pub fn question(bytes: &[u8]) -> Option<Logon<'_>>
    ensures { result ≡ spec.question bytes.now }
{
    let body = Scanned::of(logon_body(bytes)?);
    let firm = text(&body, 49)?;
    let venue = text(&body, 56)?;
    Some(Logon {
        firm,
        venue,
        desk: text(&body, 57),
        username: text(&body, 553),
        password: text(&body, 554),
    })
}

/// Whether bytes are a Logout: what a connection that parts waits for.
#[tactic(auto, unfolding(crate::specs::Heard::is_logout))]
pub fn is_logout(bytes: &[u8]) -> bool
    ensures { result ≡ spec.is_logout bytes.now }
{
    let Some(body) = whole_body(bytes) else {
        return false;
    };
    is_fixt(version_of(bytes)) && has(body, 35, b"5")
}

/// The terms of a Logon of this session.
#[tactic(auto, unfolding(crate::specs::Heard::logon_of))]
pub(crate) fn logon_of(names: &Names, bytes: &[u8]) -> Option<Terms>
    ensures { result ≡ spec.logon_of names.now bytes.now }
{
    let body = Scanned::of(logon_body(bytes)?);
    if stranger_of(names, &body).is_some() {
        return None;
    }
    if !names_desk(&names.desk, &body) {
        return None;
    }
    let number = number_once(&body)?;
    Some(Terms {
        number,
        sent: time_at(&body, 52),
        is_plain: body.has(98, b"0"),
        is_fix50: body.has(1137, b"9"),
        seconds: number_at(&body, 108),
        resets: body.has(141, b"Y"),
        expects: number_at(&body, 789),
    })
}

/// Whether a Logon names this one of several venues, if it has to.
fn names_desk(desk: &Option<Text>, body: &Scanned) -> bool
    ensures { result ≡ spec.names_desk desk.now (fields_in body.now) }
{
    match desk {
        None => true,
        Some(desk) => body.has(57, desk.as_bytes()),
    }
}

/// What bytes say.
#[tactic(auto, unfolding(crate::specs::Heard::heard_of))]
pub(crate) fn heard_of<'a>(names: &Names, bytes: &'a [u8]) -> Heard<'a>
    ensures { result ≡ spec.heard_of names.now bytes.now }
{
    match front_of(bytes) {
        Front::Begun => Heard::Garbled,
        Front::Garbled => Heard::Garbled,
        Front::Wrong { .. } => Heard::Garbled,
        Front::TooLong => Heard::TooLong {
            number: number_once(&Scanned::of(read_of_long(bytes))),
        },
        Front::Whole { len } => {
            if len != bytes.len() {
                return Heard::Garbled;
            }
            let body = body_of(bytes, len);
            Heard::Message {
                message: incoming_of(names, version_of(bytes), len, body),
            }
        }
    }
}

/// The body of bytes that are a message, and nothing more.
fn whole_body(bytes: &[u8]) -> Option<&[u8]>
    ensures body { option_copied result ≡ spec.whole_body bytes.now }
    ensures within { IfSome result (λ body. length body.now ≤ length bytes.now) }
{
    let Front::Whole { len } = front_of(bytes) else {
        return None;
    };
    if len != bytes.len() {
        return None;
    }
    Some(body_of(bytes, len))
}

/// The body of a Logon that can be read, of whatever names.
#[tactic(auto, unfolding(crate::specs::Heard::logon_body))]
fn logon_body(bytes: &[u8]) -> Option<&[u8]>
    ensures { option_copied result ≡ spec.logon_body bytes.now }
{
    let body = whole_body(bytes)?;
    if !is_fixt(version_of(bytes)) {
        return None;
    }
    let scanned = Scanned::of(body);
    if flaw_of(bytes.len(), &scanned).is_some() {
        return None;
    }
    if !scanned.has(35, b"A") || number_once(&scanned).is_none() {
        return None;
    }
    Some(body)
}

/// A message as the session sees it.
fn incoming_of<'a>(names: &Names, version: &'a [u8], whole: usize, body: &'a [u8]) -> Incoming<'a>
    requires { length body.now ≤ whole }
    ensures { result ≡ spec.incoming_of names.now version.now whole body.now }
{
    let version = foreign_of(version);
    let body = Scanned::of(body);
    let origin = Origin {
        number: number_once(&body),
        msg_type: msg_type_of(&body),
    };
    Incoming {
        version,
        origin,
        stranger: stranger_of(names, &body),
        is_repeat: body.has(43, b"Y"),
        sent: time_at(&body, 52),
        first_sent: time_at(&body, 122),
        flaw: flaw_of(whole, &body),
        kind: kind_of(&body),
    }
}

/// Whether a BeginString (8) is FIXT.1.1.
fn is_fixt(version: &[u8]) -> bool
    ensures { result ≡ spec.is_fixt version.now }
{
    version == b"FIXT.1.1".as_slice()
}

/// BeginString (8), where it is not FIXT.1.1.
fn foreign_of(version: &[u8]) -> Option<Text<'_>>
    ensures { result ≡ spec.foreign_of version.now }
{
    if is_fixt(version) {
        return None;
    }
    Text::new(version)
}

/// MsgType (35) as a Reject names it: 1 to 4 letters or digits.
fn msg_type_of<'a>(body: &Scanned<'a>) -> Option<Text<'a>>
    ensures { result ≡ spec.msg_type_of (fields_in body.now) }
{
    let name = text(body, 35)?;
    if is_msg_type(name.as_bytes()) {
        Some(name)
    } else {
        None
    }
}

/// What it says beside its header.
fn kind_of<'a>(body: &Scanned<'a>) -> Kind<'a>
    ensures { result ≡ spec.kind_of (fields_in body.now) }
{
    if body.has(35, b"A") {
        return Kind::Logon;
    }
    if body.has(35, b"0") {
        let answers = answered(body);
        return Kind::Heartbeat { answers };
    }
    if body.has(35, b"1") {
        let id = test_id_of(body);
        return Kind::TestRequest { id };
    }
    if body.has(35, b"2") {
        let first = number_at(body, 7);
        let last = number_at(body, 16);
        return Kind::ResendRequest { first, last };
    }
    if body.has(35, b"3") {
        return Kind::Reject;
    }
    if body.has(35, b"4") {
        return reset_of(body);
    }
    if body.has(35, b"5") {
        return Kind::Logout;
    }
    Kind::Other
}

/// A SequenceReset, by its GapFillFlag (123): absent or N is reset mode.
fn reset_of<'a>(body: &Scanned<'a>) -> Kind<'a>
    ensures { result ≡ spec.reset_of (fields_in body.now) }
{
    let next = number_at(body, 36);
    if body.times(123) == 0 || body.has(123, b"N") {
        Kind::Reset { next }
    } else {
        Kind::Fill { next }
    }
}

/// The number of the TestRequest that a Heartbeat answers.
fn answered(body: &Scanned) -> Option<u64>
    ensures { result ≡ option_and_then number_of (value_of 112 (fields_in body.now)) }
{
    let id = body.value(112)?;
    read_number(id)
}

/// What a TestRequest asks for.
fn test_id_of<'a>(body: &Scanned<'a>) -> TestId<'a>
    ensures { result ≡ spec.test_id_of (value_of 112 (fields_in body.now)) }
{
    let Some(id) = body.value(112) else {
        return TestId::Missing;
    };
    match Text::new(id) {
        Some(id) => TestId::Is { id },
        None => TestId::TooLong,
    }
}

/// The tag of the name that is another's.
fn stranger_of(names: &Names, body: &Scanned) -> Option<u64>
    ensures { result ≡ spec.stranger_of names.now (fields_in body.now) }
{
    if !body.has(49, names.firm.as_bytes()) {
        return Some(49);
    }
    if !body.has(56, names.venue.as_bytes()) {
        return Some(56);
    }
    None
}

/// MsgSeqNum (34): there once, and a number from 1 on.
fn number_once(body: &Scanned) -> Option<u64>
    ensures { result ≡ spec.number_once (fields_in body.now) }
{
    if body.times(34) != 1 {
        return None;
    }
    let number = read_number(body.value(34)?)?;
    if number == 0 { None } else { Some(number) }
}

/// The number that a tag has.
fn number_at(body: &Scanned, tag: u64) -> Reading
    ensures { result ≡ texts.number_at tag (fields_in body.now) }
{
    let Some(text) = body.value(tag) else {
        return Reading::Missing;
    };
    read_as(read_number(text))
}

/// The time that a tag has.
fn time_at(body: &Scanned, tag: u64) -> Reading
    ensures { result ≡ texts.time_at tag (fields_in body.now) }
{
    let Some(text) = body.value(tag) else {
        return Reading::Missing;
    };
    read_as(read_time(text))
}

/// What is read where it can be.
fn read_as(value: Option<u64>) -> Reading
    ensures { result ≡ texts.read_as value }
{
    match value {
        Some(value) => Reading::Is { value },
        None => Reading::Faulty,
    }
}

/// The short text that a tag has.
fn text<'a>(body: &Scanned<'a>, tag: u64) -> Option<Text<'a>>
    ensures { result ≡ texts.text_at tag (fields_in body.now) }
{
    Text::new(body.value(tag)?)
}
