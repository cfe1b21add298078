//! A stream that is cut into messages, and goes on behind what is garbled.
ghost use Rattle.std.specs.Prelude.{◌≡◌, ◌≤◌, ◌%◌, length, take, drop, sum, IsTrue};
ghost use Rattle.std.specs.List.{list_all};
ghost use Rattle.std.specs.Char.{is_ascii_digit};
ghost use Rattle.fix_sessions.specs.Cuts as spec;

use crate::fields::{ended_pieces, front_piece, near, past};
use crate::numbers::{are_digits, small_number};

/// How many bytes the longest message has that is read.
pub const MOST_MESSAGE: usize = 65_536;

/// How many bytes CheckSum (10) has, with its tag and its SOH.
const END_LEN: usize = 7;

/// What is found in a stream.
#[derive(Clone, Copy, Debug, PartialEq, Eq)]
pub struct Found {
    /// So many bytes are garbled, and say nothing.
    pub skip: usize,
    /// What stands behind them.
    pub what: What,
}

/// What stands behind the garbled bytes of a stream.
#[derive(Clone, Copy, Debug, PartialEq, Eq)]
pub enum What {
    /// No more bytes than may begin a message: wait for others.
    Nothing,
    /// A message of this length.
    Message {
        /// Its length, in bytes.
        len: usize,
    },
    /// The first 65,536 bytes of a longer message.
    TooLong,
}

/// What stands at the front of bytes.
#[derive(Clone, Copy, Debug, PartialEq, Eq)]
pub enum Front {
    /// What may begin a message.
    Begun,
    /// What begins none.
    Garbled,
    /// A message with a wrong sum.
    Wrong {
        /// Its length, in bytes.
        len: usize,
    },
    /// A message.
    Whole {
        /// Its length, in bytes.
        len: usize,
    },
    /// The first bytes of one that is too long.
    TooLong,
}

/// Finds the first message of a stream, or that there is none yet. The caller drops the garbled
/// bytes, hands the message to a session, and calls again with what stands behind it. A message
/// with a wrong sum is passed over whole, and what else is garbled byte by byte: so no byte is
/// summed twice, and a byte that begins nothing costs no more than a few others.
pub fn next_message(bytes: &[u8]) -> Found
    ensures { result ≡ spec.next_message bytes.now }
{
    let mut skip = 0;
    while skip < bytes.len() {
        match front_of(past(bytes, skip)) {
            Front::Garbled => skip += 1,
            Front::Wrong { len } => skip += len,
            Front::Begun => return found_at(skip, What::Nothing),
            Front::Whole { len } => return found_at(skip, What::Message { len }),
            Front::TooLong => return found_at(skip, What::TooLong),
        }
    }
    found_at(skip, What::Nothing)
}

/// What is found behind so many bytes.
fn found_at(skip: usize, what: What) -> Found
    ensures { result ≡ spec.found_at skip what }
{
    Found { skip, what }
}

/// What stands at the front of bytes.
#[tactic(auto, unfolding(crate::specs::Cuts::front_of))]
pub(crate) fn front_of(bytes: &[u8]) -> Front
    ensures value { result ≡ spec.front_of bytes.now }
    ensures there { spec.IsThere bytes.now result }
{
    if !agrees(bytes, b"8=") {
        return Front::Garbled;
    }
    if bytes.len() <= 2 {
        return Front::Begun;
    }
    let near = near(past(bytes, 2), 17);
    let version = front_piece(near);
    if !is_version(version) {
        return Front::Garbled;
    }
    if version.len() == near.len() {
        return Front::Begun;
    }
    front_by_length(bytes)
}

/// What bytes begin whose BeginString is whole.
fn front_by_length(bytes: &[u8]) -> Front
    ensures value { result ≡ spec.front_by_length bytes.now }
    ensures there { spec.IsThere bytes.now result }
{
    let rest = behind_version(bytes);
    let near = near(past(rest, 2), 10);
    let digits = front_piece(near);
    if !agrees(rest, b"9=") || digits.len() > 9 || !are_digits(digits) {
        return Front::Garbled;
    }
    if digits.len() == near.len() {
        return Front::Begun;
    }
    if digits.is_empty() {
        return Front::Garbled;
    }
    front_by_len(bytes, version_of(bytes).len(), digits)
}

/// What bytes begin whose BodyLength is whole.
fn front_by_len(bytes: &[u8], version_len: usize, digits: &[u8]) -> Front
    requires version { version_len ≡ length (spec.version_of bytes.now) }
    requires digits { digits.now ≡ spec.length_text bytes.now }
    requires few { length digits.now ≤ 9 }
    requires all { IsTrue (list_all is_ascii_digit digits.now) }
    ensures value { result ≡ spec.front_by_len bytes.now }
    ensures there { spec.IsThere bytes.now result }
{
    let len = version_len + digits.len() + small_number(digits) as usize + 13;
    if len > MOST_MESSAGE {
        return if bytes.len() < MOST_MESSAGE {
            Front::Begun
        } else {
            Front::TooLong
        };
    }
    if digits.len() > 6 {
        return Front::Garbled;
    }
    if bytes.len() < len {
        return Front::Begun;
    }
    front_by_end(bytes, len)
}

/// What bytes begin of which as many stand there as a message has.
fn front_by_end(bytes: &[u8], len: usize) -> Front
    requires len { len ≡ spec.whole_len bytes.now }
    requires there { len ≤ length bytes.now }
    ensures value { result ≡ spec.front_by_end bytes.now }
    ensures there { spec.IsThere bytes.now result }
{
    let end = near(past(bytes, len - END_LEN), END_LEN);
    if !is_end(end) {
        return Front::Garbled;
    }
    if has_sum(end, checksum(near(bytes, len - END_LEN))) {
        Front::Whole { len }
    } else {
        Front::Wrong { len }
    }
}

/// Whether a text is a CheckSum.
fn is_end(text: &[u8]) -> bool
    ensures { result ≡ spec.is_end text.now }
{
    near(text, 3) == b"10=".as_slice()
        && are_digits(near(past(text, 3), 3))
        && past(text, 6) == b"\x01".as_slice()
}

/// Whether a text is a CheckSum with this sum.
fn has_sum(text: &[u8], sum: u8) -> bool
    ensures { result ≡ spec.has_sum text.now sum }
{
    let digits = [b'0' + sum / 100, b'0' + sum / 10 % 10, b'0' + sum % 10];
    text.len() == END_LEN
        && near(text, 3) == b"10=".as_slice()
        && near(past(text, 3), 3) == digits.as_slice()
        && past(text, 6) == b"\x01".as_slice()
}

/// The sum of bytes, modulo 256.
fn checksum(bytes: &[u8]) -> u8
    ensures { result ≡ sum bytes.now % 256 }
{
    let mut sum: u8 = 0;
    for byte in bytes {
        sum = sum.wrapping_add(*byte);
    }
    sum
}

/// Whether bytes and a text are the same as far as both go.
fn agrees(bytes: &[u8], text: &[u8]) -> bool
    ensures { result ≡ spec.agrees bytes.now text.now }
{
    near(bytes, text.len()) == near(text, bytes.len())
}

/// Whether a text may be a BeginString: 1 to 16 printable bytes without an equals sign.
fn is_version(text: &[u8]) -> bool
    ensures { result ≡ spec.is_version text.now }
{
    if text.is_empty() || text.len() > 16 {
        return false;
    }
    are_of_version(text)
}

/// Whether each byte may stand in a version.
fn are_of_version(text: &[u8]) -> bool
    ensures { result ≡ list_all spec.is_of_version text.now }
{
    text.iter().all(|byte| is_of_version(*byte))
}

/// Whether a byte may stand in a version: printable, and no equals sign.
fn is_of_version(byte: u8) -> bool
    ensures { result ≡ spec.is_of_version byte }
{
    byte >= 32 && byte <= 126 && byte != 61
}

/// BeginString (8) of bytes that begin a message.
pub(crate) fn version_of(bytes: &[u8]) -> &[u8]
    ensures { result.now ≡ spec.version_of bytes.now }
{
    front_piece(near(past(bytes, 2), 17))
}

/// What stands behind it.
fn behind_version(bytes: &[u8]) -> &[u8]
    ensures value { result.now ≡ spec.behind_version bytes.now }
    ensures shorter { length result.now ≤ length bytes.now }
{
    past(past(bytes, 2), version_of(bytes).len() + 1)
}

/// The digits of BodyLength (9).
fn length_text(bytes: &[u8]) -> &[u8]
    ensures { result.now ≡ spec.length_text bytes.now }
{
    front_piece(near(past(behind_version(bytes), 2), 10))
}

/// What stands behind them.
fn behind_length(bytes: &[u8]) -> &[u8]
    ensures value { result.now ≡ spec.behind_length bytes.now }
    ensures shorter { length result.now ≤ length bytes.now }
{
    past(past(behind_version(bytes), 2), length_text(bytes).len() + 1)
}

/// The body of a message of this length.
pub(crate) fn body_of(bytes: &[u8], len: usize) -> &[u8]
    requires { len ≡ spec.whole_len bytes.now }
    ensures body { result.now ≡ spec.body_of bytes.now }
    ensures within { length result.now ≤ length bytes.now }
{
    let around = version_of(bytes).len() + length_text(bytes).len() + 13;
    near(behind_length(bytes), len - around)
}

/// What is read of a message that is too long: the fields that end with SOH among its first 65,536
/// bytes.
pub(crate) fn read_of_long(bytes: &[u8]) -> &[u8]
    ensures { result.now ≡ spec.read_of_long bytes.now }
{
    ended_pieces(behind_length(near(bytes, MOST_MESSAGE)))
}
