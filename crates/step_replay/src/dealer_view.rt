//! What a dealer is sent for what is due to it.
ghost use Rattle.std.specs.Prelude.{◌≡◌, ◌||◌, ℕ, List, length, IfOk, IfSome, OnOk};
ghost use Rattle.std.specs.Option.{option_map};
ghost use Rattle.venue_rows.specs.declared.dealer_rows.DealerRow.{DealerRow};
ghost use Rattle.dealer_desk.specs.DealerFacts.{number_to_drop};
ghost use Rattle.dealer_desk.specs.DealerDesk.{book_at, verdict_at, with_event};
ghost use Rattle.dealer_desk.specs.DealerOutput.{word_asked};
ghost use Rattle.dealer_desk.specs.declared.events.DealerEvent.{DealerEvent};
ghost use Rattle.step_replay.specs.declared.dues.Due.{Due};
ghost use Rattle.step_replay.specs.DealerView as spec;
ghost use Rattle.step_replay.specs.NoteViews.{dealer_note_view};
ghost use Rattle.step_replay.specs.RowOfWords as kept;

use crate::Due;
use dealer_desk::{
    DealerDesk, DealerNote, DealerVerdict, facts_say_how_words_were_settled,
    words_are_asked_event_by_event,
};
use fix_fields::{Date, Memory, Moment};
use quote_messages::{FirmMessage, RoomRef, SentMessage};
use quote_word::{PlainWords, Settled, Words};
use std::alloc::Global;
use venue_rows::DealerRow;

/// Every message that a dealer is sent on a day, for what is due to it and nothing else. It is
/// total: it fails only for memory. A lifting of a quote that the dealer can't have, or that was
/// withdrawn, has no effect, and neither has a closing notice of a request that was not shown or
/// whose notice was sent, nor a drop where no quote is left to be dropped.
pub fn alone(
    alloc: Global,
    date: &Date,
    row: &DealerRow,
    dues: &[Due],
) -> Result<Vec<SentMessage>, Memory>
    ensures { IfOk result (λ messages.
        messages.items ≡ spec.dealer_view date.now row.now dues.now) }
{
    let (messages, _) = alone_output(alloc, date, row, dues)?;
    Ok(messages)
}

/// The messages that [`alone`] gives, and beside each what the dealer's desk notes of it: why it
/// refuses, or of which trade it tells. It fails only for memory.
pub fn alone_output(
    alloc: Global,
    date: &Date,
    row: &DealerRow,
    dues: &[Due],
) -> Result<(Vec<SentMessage>, Vec<Option<DealerNote>>), Memory>
    ensures messages { IfOk result (λ output.
        output.0.items ≡ spec.dealer_view date.now row.now dues.now) }
    ensures notes { IfOk result (λ output.
        output.1.items ≡ dealer_note_view date.now row.now dues.now) }
{
    let mut desk = DealerDesk::new(alloc, *date, row.copy())?;
    let mut words = PlainWords::new(alloc, row.quotes)?;
    for due in dues {
        do_due(&mut desk, &mut words, due)?;
    }
    Ok(desk.into_output())
}

/// Lets an item happen at the desk of its dealer, or to the word of its quote.
fn do_due(desk: &mut DealerDesk, words: &mut PlainWords, due: &Due) -> Result<(), Memory>
    requires { length words.old ≡ desk.old.row.quotes }
    ensures ok { OnOk result (kept.Happens due.now
        (record { desk = desk.old; words = words.old })
        (record { desk = desk.new; words = words.new })) }
    ensures words { OnOk result (length words.new ≡ length words.old) }
    ensures row { OnOk result (desk.new.row ≡ desk.old.row) }
{
    quotes_are_withdrawn_event_by_event();
    match due {
        Due::Own(moment, message) => {
            receive_own(desk, words, *moment, message)?;
            Ok(())
        }
        Due::Shown(ask, moment) => {
            desk.show(NO_ROOM, ask.copy(), *moment)?;
            Ok(())
        }
        Due::Lifted(quote) => {
            lift(words, *quote);
            Ok(())
        }
        Due::Closed(request, close, moment) => {
            desk.tell_request(*request, *close, *moment)?;
            Ok(())
        }
        Due::Drop(last, moment) => {
            drop_next(desk, words, *last, *moment)?;
            Ok(())
        }
    }
}

/// The room of every request here: none is routed.
const NO_ROOM: RoomRef = RoomRef { investor: 0, n: 0 };

/// Receives a message of the dealer's own, with the settlement of the word that it asks.
fn receive_own(
    desk: &mut DealerDesk,
    words: &mut PlainWords,
    moment: Moment,
    message: &FirmMessage,
) -> Result<(), Memory>
    requires { length words.old ≡ desk.old.row.quotes }
    ensures ok { OnOk result (let asked = word_asked (verdict_at desk.old moment message.now) in
        desk.new ≡ with_event desk.old
        (DealerEvent.Received moment message.now (option_map (kept.settlement_in words.old) asked))) }
    ensures words { words.new
        ≡ kept.with_asked words.old (word_asked (verdict_at desk.old moment message.now)) }
    ensures asked { IfSome (word_asked (verdict_at desk.old moment message.now))
        (kept.IsOfRow desk.old.row.quotes) }
{
    let verdict = judged(desk, moment, message);
    let settlement = ask(words, verdict.word_asked());
    desk.receive_judged(moment, message.as_bytes(), verdict, settlement)?;
    Ok(())
}

/// The verdict on a message: that it is a frame is not tested where it is known.
fn judged<'a>(desk: &DealerDesk, moment: Moment, message: &'a FirmMessage) -> DealerVerdict<'a>
    ensures verdict { result ≡ verdict_at desk.now moment message.now }
    ensures own { IfSome (word_asked result) (kept.IsOfRow desk.now.row.quotes) }
{
    if !message.is_frame() {
        let tested = desk.judge(moment, message.as_bytes());
        return tested;
    }
    let known = desk.judge_frame(moment, message.as_bytes());
    known
}

/// Drops the next of the quotes up to `last`, with the settlement of its word.
fn drop_next(
    desk: &mut DealerDesk,
    words: &mut PlainWords,
    last: u32,
    moment: Moment,
) -> Result<(), Memory>
    requires { length words.old ≡ desk.old.row.quotes }
    ensures ok { OnOk result (let asked = number_to_drop (book_at desk.old) last in
        desk.new ≡ with_event desk.old
        (DealerEvent.Drop last moment (option_map (kept.settlement_in words.old) asked))) }
    ensures words { words.new
        ≡ kept.with_asked words.old (number_to_drop (book_at desk.old) last) }
    ensures asked { IfSome (number_to_drop (book_at desk.old) last)
        (kept.IsOfRow desk.old.row.quotes) }
{
    let settlement = ask(words, desk.question_drop(last));
    desk.drop_one(last, moment, settlement)?;
    Ok(())
}

/// Withdraws the word of the quote that is asked, and returns what it is from then on.
fn ask(words: &mut PlainWords, asked: Option<u32>) -> Option<Settled>
    requires { IfSome asked (kept.IsOfRow (length words.old)) }
    ensures settlement { result ≡ option_map (kept.settlement_in words.old) asked }
    ensures words { words.new ≡ kept.with_asked words.old asked }
{
    let quote = asked?;
    let settlement = words.withdraw(quote - 1);
    Some(settlement)
}

/// Lifts the word of a quote, where the dealer can have that quote and its word is open.
fn lift(words: &mut PlainWords, quote: u32)
    ensures lifted { words.new ≡ kept.with_lifting words.old quote }
    ensures length { length words.new ≡ length words.old }
{
    if quote < 1 || quote > words.len() {
        return;
    }
    words.lift(quote - 1);
}

/// A quote is withdrawn at a desk where it was before, or where the last event asked its word and
/// it was settled so. It does nothing, and is called for what it says.
fn quotes_are_withdrawn_event_by_event()
    ensures { kept.GrowsByEvents }
{
    words_are_asked_event_by_event();
    facts_say_how_words_were_settled();
}

/// The dealer view is a function of the date, the dealer's row and the list: two lists that are
/// equal have equal views, whatever else differs between the two days.
pub fn equal_lists_have_equal_views()
    ensures { (date : List ℕ) (row : DealerRow) (dues others : List Due) → dues ≡ others
        → spec.dealer_view date row dues ≡ spec.dealer_view date row others }
{}

/// So are the notes beside its messages: two lists that are equal have equal notes. It does nothing,
/// and is called for what it says.
pub fn equal_lists_have_equal_notes()
    ensures { (date : List ℕ) (row : DealerRow) (dues others : List Due) → dues ≡ others
        → dealer_note_view date row dues ≡ dealer_note_view date row others }
{}
