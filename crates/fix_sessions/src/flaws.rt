//! What is wrong with the form of a message.
ghost use Rattle.std.specs.Prelude.{◌≡◌, ◌≤◌, ◌+◌, ◌-◌, length, nat_lt, MatchOption, IfSome, Some, None, false};
ghost use Rattle.std.specs.Option.{option_copied};
ghost use Rattle.std.specs.List.{list_all};
ghost use Rattle.std.specs.Char.{is_ascii_alphanumeric};
ghost use Rattle.fix_sessions.specs.Fields.{fields_in, piece_field};
ghost use Rattle.fix_sessions.specs.Flaws as spec;

use crate::fields::{
    front_piece, has_equals, last_tag, near, past, piece_field, split_piece, times,
};
use crate::numbers::are_digits;
use crate::scanned::Scanned;
use crate::turns::Fault;

/// The longest message, in bytes, without what a resend adds.
const MOST_TAKEN: usize = 4_096;

/// The longest TestReqID (112), in bytes: the Heartbeat with a longer one would not fit.
const MOST_TEST_ID: usize = 1_024;

/// A fault of a field.
fn fault_at(tag: u64, reason: u64) -> Option<Fault>
    ensures { result ≡ spec.fault_at tag reason }
{
    Some(Fault {
        tag: Some(tag),
        reason,
    })
}

/// What is wrong with a message of this length and this body.
#[tactic(auto, unfolding(crate::specs::Flaws::flaw_of))]
pub(crate) fn flaw_of(whole: usize, body: &Scanned) -> Option<Fault>
    requires { length body.now ≤ whole }
    ensures { result ≡ spec.flaw_of whole body.now }
{
    if let Some(fault) = form_flaw(body) {
        return Some(fault);
    }
    if is_too_long(whole, body.bytes()) {
        return fault_at(9, 5);
    }
    value_flaw(body)
}

/// Whether a message is too long.
fn is_too_long(whole: usize, body: &[u8]) -> bool
    requires { length body.now ≤ whole }
    ensures { result ≡ nat_lt 4096 (whole - spec.added_within (length body.now) body.now) }
{
    whole > MOST_TAKEN && whole - added_len(body) > MOST_TAKEN
}

/// What is wrong with the form of a body.
fn form_flaw(body: &Scanned) -> Option<Fault>
    ensures { result ≡ spec.form_flaw body.now }
{
    if body.times(35) == 0 {
        return fault_at(35, 1);
    }
    if let Some(fault) = body.pieces_flaw() {
        return Some(fault);
    }
    if !is_closed(body.bytes()) {
        return Some(Fault {
            tag: last_tag(body.bytes()),
            reason: 6,
        });
    }
    None
}

/// What is wrong with the pieces of a body from a place on.
#[tactic(auto, using(crate::proofs::FlawLemmas::passes, crate::proofs::FlawLemmas::is_told, crate::proofs::FlawLemmas::no_more))]
pub(crate) fn pieces_flaw(body: &[u8], start: usize) -> Option<Fault>
    requires { start ≤ length body.now + 1 }
    ensures { result ≡ spec.flaw_from (length body.now) body.now start }
{
    let mut at = start;
    while at < body.len() {
        let piece = front_piece(past(body, at));
        let before = near(body, at);
        let field = piece_field(piece);
        if let Some(fault) = piece_flaw(before, piece, field, is_again(before, field)) {
            return Some(fault);
        }
        at += piece.len() + 1;
    }
    None
}

/// Whether a text ends with SOH.
fn is_closed(text: &[u8]) -> bool
    ensures { result ≡ spec.is_closed text.now }
{
    text.is_empty() || text[text.len() - 1] == 1
}

/// Whether the session reads a field with the tag of this one, and one stands in these bytes.
fn is_again(before: &[u8], field: Option<(u64, &[u8])>) -> bool
    ensures { MatchOption field.entry (result ≡ false) (λ f. result ≡ spec.is_again f.0 (fields_in before.now)) }
{
    match field {
        Some((tag, _)) => is_read(tag) && times(before, tag) > 0,
        None => false,
    }
}

/// What is wrong with a piece, behind these bytes. The caller says whether its field stands there
/// again, since it may know that without reading them.
pub(crate) fn piece_flaw(
    before: &[u8],
    piece: &[u8],
    field: Option<(u64, &[u8])>,
    is_again: bool,
) -> Option<Fault>
    requires field { MatchOption field (piece_field piece.now ≡ None)
        (λ f. piece_field piece.now ≡ Some (f.0, f.1.now)) }
    requires again { IfSome field (λ f. is_again ≡ spec.is_again f.0 (fields_in before.now)) }
    ensures { result ≡ spec.piece_flaw before.now piece.now }
{
    let Some((tag, value)) = field else {
        return Some(no_field(before, piece));
    };
    if before.is_empty() && tag != 35 {
        return fault_at(tag, 14);
    }
    if tag == 8 || tag == 9 || tag == 10 {
        return fault_at(tag, 13);
    }
    if is_again {
        return fault_at(tag, 13);
    }
    if tag == 35 && !is_msg_type(value) {
        return fault_at(35, 11);
    }
    if tag == 112 && value.len() > MOST_TEST_ID {
        return fault_at(112, 5);
    }
    None
}

/// What is wrong with a piece that is no field.
fn no_field(before: &[u8], piece: &[u8]) -> Fault
    ensures { result ≡ spec.no_field before.now piece.now }
{
    if has_equals(piece) {
        return Fault {
            tag: None,
            reason: 0,
        };
    }
    Fault {
        tag: last_tag(before),
        reason: 17,
    }
}

/// Whether a session reads the field with this tag.
pub(crate) fn is_read(tag: u64) -> bool
    ensures { result ≡ spec.is_read tag }
{
    matches!(
        tag,
        35 | 49
            | 56
            | 34
            | 52
            | 43
            | 97
            | 122
            | 50
            | 57
            | 553
            | 554
            | 98
            | 108
            | 141
            | 789
            | 1137
            | 7
            | 16
            | 36
            | 112
            | 123
    )
}

/// Whether a text is 1 to 4 letters or digits.
pub(crate) fn is_msg_type(text: &[u8]) -> bool
    ensures { result ≡ spec.is_msg_type text.now }
{
    if text.is_empty() || text.len() > 4 {
        return false;
    }
    are_letters_or_digits(text)
}

/// Whether each byte is a letter or a digit.
fn are_letters_or_digits(text: &[u8]) -> bool
    ensures { result ≡ list_all is_ascii_alphanumeric text.now }
{
    text.iter().all(|byte| byte.is_ascii_alphanumeric())
}

/// How many bytes a resend has added to a body: PossDupFlag (43), PossResend (97), and
/// OrigSendingTime (122).
#[tactic(auto, using(crate::proofs::FlawLemmas::added_step, crate::proofs::FlawLemmas::behind_shorter))]
fn added_len(body: &[u8]) -> usize
    ensures fits { result ≤ length body.now }
    ensures value { result ≡ spec.added_within (length body.now) body.now }
{
    let mut rest = body;
    let mut len = 0;
    while !rest.is_empty() {
        let (piece, behind) = split_piece(rest);
        len += added_by(piece, rest.len() - behind.len());
        rest = behind;
    }
    len
}

/// How many bytes a piece of this length is of these.
fn added_by(piece: &[u8], len: usize) -> usize
    ensures value { result ≡ spec.added_len len (piece_field piece.now) }
    ensures few { result ≤ len }
{
    let Some((tag, _)) = piece_field(piece) else {
        return 0;
    };
    if tag == 43 || tag == 97 || tag == 122 {
        len
    } else {
        0
    }
}

/// The first of two faults.
fn or_else(first: Option<Fault>, other: Option<Fault>) -> Option<Fault>
    ensures { result ≡ spec.or_else first other }
{
    match first {
        None => other,
        Some(fault) => Some(fault),
    }
}

/// What is wrong with the values of what the session reads of its own messages.
fn value_flaw(body: &Scanned) -> Option<Fault>
    ensures { result ≡ spec.value_flaw (fields_in body.now) }
{
    let id = or_else(some_flaw(112, body.value(112)), flag_flaw(body));
    let new = or_else(number_flaw(36, body.value(36)), id);
    let last = or_else(number_flaw(16, body.value(16)), new);
    or_else(number_flaw(7, body.value(7)), last)
}

/// What is wrong with a value: it is empty.
fn some_flaw(tag: u64, text: Option<&[u8]>) -> Option<Fault>
    ensures { result ≡ spec.some_flaw tag (option_copied text.entry) }
{
    match text {
        None => None,
        Some([]) => fault_at(tag, 4),
        Some(_) => None,
    }
}

/// What is wrong with GapFillFlag (123).
fn flag_flaw(body: &Scanned) -> Option<Fault>
    ensures { result ≡ spec.flag_flaw 123 (fields_in body.now) }
{
    or_else(some_flaw(123, body.value(123)), letter_flaw(body))
}

/// What is wrong with a GapFillFlag that stands: it is neither Y nor N.
fn letter_flaw(body: &Scanned) -> Option<Fault>
    ensures { result ≡ spec.letter_flaw 123 (fields_in body.now) }
{
    if body.times(123) == 0 || body.has(123, b"Y") || body.has(123, b"N") {
        return None;
    }
    fault_at(123, 6)
}

/// What is wrong with a number.
fn number_flaw(tag: u64, text: Option<&[u8]>) -> Option<Fault>
    ensures { result ≡ spec.number_flaw tag (option_copied text.entry) }
{
    let Some(text) = text else {
        return None;
    };
    if text.is_empty() {
        return fault_at(tag, 4);
    }
    if text.len() > 9 || !are_digits(text) {
        return fault_at(tag, 6);
    }
    None
}
