//! The party group of a request.
ghost use Rattle.std.specs.Prelude.{◌≡◌, ◌≢◌, ◌==◌, if◌then◌else◌, ℕ, ◌+◌, ◌≤◌, List, [], ◌∷◌};
ghost use Rattle.std.specs.Prelude.{length, Some, None, MatchOption, IsTrue};
ghost use Rattle.fix_fields.specs.Frame.{Field, times_of};
ghost use Rattle.market_terms.specs.Texts.{is_id};
ghost use Rattle.quote_messages.specs.TagReading.{Reads};
ghost use Rattle.quote_messages.specs.ValueForms.{AnId, AnyText};
ghost use Rattle.quote_messages.specs.SessionLines.{occurrence_of, required, first_fault};
ghost use Rattle.quote_messages.specs.SessionLines.{number_at, text_at};
ghost use Rattle.quote_messages.specs.Slots.{said_by};
ghost use Rattle.quote_messages.specs.PartyGroup as spec;
ghost use Rattle.quote_messages.specs.PartyGroup.{party_group, named_dealers, group_of};
ghost use Rattle.quote_messages.specs.PartyGroup.{before_entry, entries_of, entries_fault};
ghost use Rattle.quote_messages.specs.PartyGroup.{entry_lines, dealer_of_entry, AreWhole};
ghost use Rattle.quote_messages.specs.GroupReading.{run_of, IsAbsent, StandsBefore};

use crate::slots::{FieldSlots, Slot};
use crate::tag_reading::fault;
use crate::{Id, NamedDealers, SessionFault, SessionRejectReason};
use fix_fields::{Fields, MOST_BODY};

/// The dealers that a message names, or the fault of its party group, whose number of entries (453)
/// is this.
#[tactic(auto, unfolding(crate::specs::PartyGroup::party_group))]
pub(crate) fn read_parties<'a>(
    message: &FieldSlots<'a>,
    count: u64,
) -> Result<NamedDealers<'a>, SessionFault>
    requires { number_at 453 message.now ≡ Some count }
    ensures { (date : List ℕ) → Reads (party_group date message.now) result
        (λ dealers. dealers ≡ named_dealers message.now) }
{
    let fields = message.fields();
    if !is_one_group(&fields, count) {
        return Err(fault(453, SessionRejectReason::IncorrectNumInGroup));
    }
    check_entries(fields.again())?;
    Ok(NamedDealers::of(fields))
}

/// Whether the party group begins with an entry, has so many, and has all fields of entries.
fn is_one_group(fields: &Fields, count: u64) -> bool
    requires count { number_at 453 fields.now ≡ Some count }
    requires few { length fields.now ≤ MOST_BODY }
    ensures { result ≡ spec.is_one_group (group_of fields.now) fields.now }
{
    let group = behind_count(fields.again());
    if !begins_with_entry(group.again()) {
        return false;
    }
    let (len, entries) = measured(group);
    if entries as u64 != count {
        return false;
    }
    len == fields.again().filter(|field| is_of_party(field.0)).count()
}

/// What stands behind NoPartyIDs (453), nothing where it does not stand.
fn behind_count(fields: Fields<'_>) -> Fields<'_>
    ensures run { run_of result ≡ group_of fields.entry }
    ensures shorter { length result ≤ length fields.entry }
{
    let mut rest = fields;
    while let Some((tag, _)) = rest.next() {
        if tag == 453 {
            return rest;
        }
    }
    rest
}

/// Whether the run at the front begins with an entry, where it is not empty.
fn begins_with_entry(fields: Fields<'_>) -> bool
    ensures { result ≡ spec.begins_with_entry (run_of fields.entry) }
{
    for (tag, _) in fields {
        if is_of_party(tag) {
            return tag == 448;
        }
        if is_beside_parties(tag) {
            return true;
        }
    }
    true
}

/// How many fields the run at the front has, and how many entries.
fn measured(fields: Fields<'_>) -> (usize, usize)
    requires { length fields ≤ MOST_BODY }
    ensures len { result.0 ≡ length (run_of fields.entry) }
    ensures entries { result.1 ≡ times_of 448 (run_of fields.entry) }
{
    let mut len = 0;
    let mut entries = 0;
    for (tag, _) in fields {
        if is_of_party(tag) {
            len += 1;
            entries += counted(tag);
            continue;
        }
        if is_beside_parties(tag) {
            return (len, entries);
        }
    }
    (len, entries)
}

/// 1 for PartyID (448), with which an entry begins, and 0 for another tag.
fn counted(tag: u32) -> usize
    ensures one { result ≡ (if tag == 448 then 1 else 0) }
    ensures most { result ≤ 1 }
{
    if tag == 448 {
        return 1;
    }
    0
}

/// Whether a tag is one of an entry.
fn is_of_party(tag: u32) -> bool
    ensures { result ≡ spec.is_of_party tag }
{
    tag == 448 || tag == 447 || tag == 452
}

/// Whether a tag is another one of the tables of a QuoteRequest.
fn is_beside_parties(tag: u32) -> bool
    ensures { result ≡ spec.is_beside_parties tag }
{
    match tag {
        49 | 56 | 52 | 50 | 35 => true,
        131 | 146 | 48 | 22 | 54 | 38 | 126 | 453 => true,
        _ => false,
    }
}

/// The first fault of the first entry that has one.
fn check_entries(fields: Fields<'_>) -> Result<(), SessionFault>
    ensures { (date : List ℕ) → Reads (entries_fault date (entries_of fields.entry)) result
        (λ _. Unit {0}) }
{
    let mut rest = fields;
    while let Some((tag, value)) = rest.next() {
        if tag != 448 {
            continue;
        }
        check_entry(value, &rest)?;
    }
    Ok(())
}

/// The first fault of an entry: that of its PartyID (448), which is this, of its PartyIDSource
/// (447), and of its PartyRole (452).
fn check_entry(id: &[u8], behind: &Fields) -> Result<(), SessionFault>
    ensures { (date : List ℕ) → Reads (first_fault entry_lines date ((448, id.now)
        ∷ before_entry behind.now)) result (λ _. Unit {0}) }
{
    check_party_id(id, behind)?;
    check_in_entry(447, id, behind)?;
    check_in_entry(452, id, behind)?;
    Ok(())
}

/// The fault of the PartyID (448) with which an entry begins.
fn check_party_id(id: &[u8], behind: &Fields) -> Result<(), SessionFault>
    ensures { (date : List ℕ) → Reads (required 448 AnId date ((448, id.now)
        ∷ before_entry behind.now)) result (λ _. Unit {0}) }
{
    if id.is_empty() {
        return Err(fault(448, SessionRejectReason::TagWithoutValue));
    }
    if Id::new(id).is_none() {
        return Err(fault(448, SessionRejectReason::IncorrectDataFormat));
    }
    Ok(())
}

/// The fault of another tag of an entry, which has to stand with any value.
#[tactic(auto, unfolding(crate::specs::SessionLines::tag_fault))]
fn check_in_entry(tag: u32, id: &[u8], behind: &Fields) -> Result<(), SessionFault>
    requires { tag ≢ 448 }
    ensures { (date : List ℕ) → Reads (required tag AnyText date ((448, id.now)
        ∷ before_entry behind.now)) result (λ _. Unit {0}) }
{
    let slot = slot_in_entry(tag, behind);
    let Some(value) = slot.first else {
        return Err(fault(tag, SessionRejectReason::RequiredTagMissing));
    };
    if slot.is_repeated {
        return Err(fault(tag, SessionRejectReason::TagMoreThanOnce));
    }
    if value.is_empty() {
        return Err(fault(tag, SessionRejectReason::TagWithoutValue));
    }
    Ok(())
}

/// How a tag other than PartyID (448) stands in an entry with these fields behind its PartyID.
fn slot_in_entry<'a>(tag: u32, behind: &Fields<'a>) -> Slot<'a>
    requires { tag ≢ 448 }
    ensures { (id : List ℕ) → said_by result ≡ occurrence_of tag ((448, id)
        ∷ before_entry behind.now) }
{
    slot_before_entry(tag, behind.again())
}

/// How a tag stands before the next entry.
fn slot_before_entry(wanted: u32, fields: Fields<'_>) -> Slot<'_>
    ensures { said_by result ≡ occurrence_of wanted (before_entry fields.entry) }
{
    let Some((first, rest)) = next_before_entry(wanted, fields) else {
        return Slot::empty();
    };
    let is_repeated = next_before_entry(wanted, rest).is_some();
    Slot {
        first: Some(first),
        is_repeated,
    }
}

/// The first value that a tag has before the next entry, and the fields behind it.
fn next_before_entry<'a>(wanted: u32, fields: Fields<'a>) -> Option<(&'a [u8], Fields<'a>)>
    ensures { MatchOption result (IsAbsent wanted (before_entry fields.entry))
        (λ found. StandsBefore wanted (before_entry fields.entry) found.0.now (before_entry found.1)) }
{
    let mut rest = fields;
    while let Some((tag, value)) = rest.next() {
        if tag == 448 {
            return None;
        }
        if tag == wanted {
            return Some((value, rest));
        }
    }
    None
}

/// The next dealer that the entries name, where there is one; the fields are then those behind it.
pub(crate) fn next_dealer<'a>(fields: &mut Fields<'a>) -> Option<&'a [u8]>
    requires { AreWhole (entries_of fields.old) }
    ensures next { MatchOption result (named_dealers fields.old ≡ [])
        (λ id. (named_dealers fields.old ≡ id.now ∷ named_dealers fields.new)
        × IsTrue (is_id id.now)) }
    ensures whole { AreWhole (entries_of fields.new) }
    ensures none { MatchOption result (named_dealers fields.new ≡ []) (λ _. Unit {0}) }
{
    while let Some((tag, value)) = fields.next() {
        if tag != 448 {
            continue;
        }
        if names_dealer(fields) {
            return Some(value);
        }
    }
    None
}

/// Whether an entry with these fields behind its PartyID (448) names a dealer: PartyIDSource 447=D,
/// PartyRole 452=35.
fn names_dealer(behind: &Fields) -> bool
    ensures { (id : List ℕ) → dealer_of_entry ((448, id) ∷ before_entry behind.now)
        ≡ (if result then Some id else None) }
{
    let source = value_in_entry(447, behind);
    if b"D".as_slice() != source {
        return false;
    }
    let role = value_in_entry(452, behind);
    b"35".as_slice() == role
}

/// The first value of a tag other than PartyID (448) in an entry with these fields behind its
/// PartyID, empty where it has none.
fn value_in_entry<'a>(tag: u32, behind: &Fields<'a>) -> &'a [u8]
    requires { tag ≢ 448 }
    ensures { (id : List ℕ) → result.now ≡ text_at tag ((448, id) ∷ before_entry behind.now) }
{
    let slot = slot_in_entry(tag, behind);
    let Some(value) = slot.first else {
        return &[];
    };
    value
}
