//! A body whose fields were found once.
ghost use Rattle.std.specs.Prelude.{◌≡◌, ◌≤◌, MatchOption, Some, None, length, map, false};
ghost use Rattle.std.specs.Option.{option_copied};
ghost use Rattle.fix_fields.specs.Frame.{value_of, times_of};
ghost use Rattle.fix_sessions.specs.Fields as fields;
ghost use Rattle.fix_sessions.specs.Fields.{fields_in};
ghost use Rattle.fix_sessions.specs.Flaws as spec;

use crate::fields::{front_piece, near, past, piece_field, times, value};
use crate::flaws::{is_read, piece_flaw, pieces_flaw};
use crate::turns::Fault;
use arrayvec::ArrayVec;
use std::marker::Model;

/// How many fields are listed at most: a session's messages and a quote have fewer.
const MOST_LISTED: usize = 24;

/// A body of which the first fields are listed, so that none of its bytes is read for each tag that
/// a session asks for. A clause sees the bytes.
#[derive(Drop)]
pub(crate) struct Scanned<'a> {
    /// The body.
    bytes: &'a [u8],
    /// The fields that stand before a place,
    listed: ArrayVec<(u64, &'a [u8]), MOST_LISTED>,
    /// this place: the end of the body, or where the list was full,
    at: usize,
    /// and what is wrong with the pieces before it.
    flaw: Option<Fault>,
}

impl<'a> Model for Scanned<'a> {
    ghost use Rattle.std.specs.Prelude.{◌≡◌, ◌≤◌, ◌+◌, ◌++◌, ℕ, List, length, drop, map};
    ghost use Rattle.fix_sessions.specs.Fields.{fields_in};
    ghost use Rattle.fix_sessions.specs.Flaws.{flaw_from, or_else};

    ghost Value = { List ℕ };

    ghost view = { λ s. s.bytes.now };

    ghost invariant = { λ s. (fields_in s.bytes.now
        ≡ map (λ f. (f.0, f.1.now)) s.listed.items ++ fields_in (drop s.at s.bytes.now))
        × (flaw_from (length s.bytes.now) s.bytes.now 0
        ≡ or_else s.flaw (flaw_from (length s.bytes.now) s.bytes.now s.at))
        × (s.at ≤ length s.bytes.now + 1) };
}

impl<'a> Scanned<'a> {
    ghost use Rattle.std.specs.Prelude.{◌≡◌, length};
    ghost use Rattle.std.specs.Option.{option_copied};
    ghost use Rattle.fix_fields.specs.Frame.{value_of, times_of};
    ghost use Rattle.fix_sessions.specs.Fields.{fields_in};
    ghost use Rattle.fix_sessions.specs.Flaws as spec;
    ghost use Rattle.fix_sessions.specs.Texts.{has_text};

    /// Goes through a body.
    pub(crate) fn of(bytes: &'a [u8]) -> Self
        ensures { result ≡ bytes.now }
    {
        let mut listed = ArrayVec::new();
        let mut flaw = None;
        let mut at = 0;
        while at < bytes.len() && !listed.is_full() {
            let piece = front_piece(past(bytes, at));
            let field = piece_field(piece);
            let next = at + piece.len() + 1;
            flaw = flaw_with(flaw, listed.as_slice(), near(bytes, at), piece, field);
            at = next;
            if let Some(field) = field {
                listed.push(field);
            }
        }
        Scanned {
            bytes,
            listed,
            at,
            flaw,
        }
    }

    /// The bytes.
    pub(crate) fn bytes(&self) -> &'a [u8]
        ensures { result.now ≡ self.now }
    {
        self.bytes
    }

    /// The value of the first field with a tag.
    #[tactic(auto, using(crate::proofs::ScanLemmas::value_in_front, crate::proofs::ScanLemmas::value_behind))]
    pub(crate) fn value(&self, tag: u64) -> Option<&'a [u8]>
        ensures { option_copied result ≡ value_of tag (fields_in self.now) }
    {
        match listed_value(self.listed.as_slice(), tag) {
            Some(value) => Some(value),
            None => value(past(self.bytes, self.at), tag),
        }
    }

    /// How many fields have a tag.
    #[tactic(auto, using(crate::proofs::ScanLemmas::times_together))]
    pub(crate) fn times(&self, tag: u64) -> usize
        ensures { result ≡ times_of tag (fields_in self.now) }
    {
        listed_times(self.listed.as_slice(), tag) + times(past(self.bytes, self.at), tag)
    }

    /// What is wrong with the pieces.
    pub(crate) fn pieces_flaw(&self) -> Option<Fault>
        ensures { result ≡ spec.flaw_from (length self.now) self.now 0 }
    {
        match self.flaw {
            Some(fault) => Some(fault),
            None => pieces_flaw(self.bytes, self.at),
        }
    }

    /// Whether the first value of a tag is this text.
    pub(crate) fn has(&self, tag: u64, text: &[u8]) -> bool
        ensures { result ≡ has_text tag text.now (fields_in self.now) }
    {
        let Some(found) = self.value(tag) else {
            return false;
        };
        found == text
    }
}

/// The first fault of a body, once a piece is passed behind these bytes, whose fields are listed.
fn flaw_with(
    flaw: Option<Fault>,
    listed: &[(u64, &[u8])],
    before: &[u8],
    piece: &[u8],
    field: Option<(u64, &[u8])>,
) -> Option<Fault>
    requires listed { fields_in before.now ≡ map (λ f. (f.0, f.1.now)) listed.now }
    requires field { MatchOption field (fields.piece_field piece.now ≡ None)
        (λ f. fields.piece_field piece.now ≡ Some (f.0, f.1.now)) }
    ensures { result ≡ spec.or_else flaw (spec.piece_flaw before.now piece.now) }
{
    match flaw {
        Some(fault) => Some(fault),
        None => piece_flaw(before, piece, field, is_listed(listed, field)),
    }
}

/// Whether the session reads a field with the tag of this one, and one is listed.
fn is_listed(listed: &[(u64, &[u8])], field: Option<(u64, &[u8])>) -> bool
    ensures { MatchOption field.entry (result ≡ false)
        (λ f. result ≡ spec.is_again f.0 (map (λ f. (f.0, f.1.now)) listed.now)) }
{
    match field {
        Some((tag, _)) => is_read(tag) && listed_times(listed, tag) > 0,
        None => false,
    }
}

/// The value of the first of these fields that has a tag.
fn listed_value<'a>(listed: &[(u64, &'a [u8])], tag: u64) -> Option<&'a [u8]>
    ensures { option_copied result ≡ value_of tag (map (λ f. (f.0, f.1.now)) listed.now) }
{
    for field in listed {
        if field.0 == tag {
            return Some(field.1);
        }
    }
    None
}

/// How many of these fields have a tag.
#[tactic(auto, using(crate::proofs::FieldLemmas::times_cons))]
fn listed_times(listed: &[(u64, &[u8])], tag: u64) -> usize
    ensures value { result ≡ times_of tag (map (λ f. (f.0, f.1.now)) listed.now) }
    ensures few { result ≤ length listed.now }
{
    let mut count = 0;
    for field in listed {
        if field.0 == tag {
            count += 1;
        }
    }
    count
}
