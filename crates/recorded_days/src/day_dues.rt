//! What was due to a dealer on a recorded day, and what it was sent for that.
ghost use Rattle.std.specs.Prelude.{◌≡◌, ℕ, List, [], ◌++◌, IfOk, OnOk, Option};
ghost use Rattle.std.specs.Option.{option_map};
ghost use Rattle.quote_word.specs.declared.settled.Settled.{Settled};
ghost use Rattle.venue_rows.specs.declared.dealer_rows.DealerRow.{DealerRow};
ghost use Rattle.dealer_desk.specs.DealerDesk.{DeskEvents, with_event};
ghost use Rattle.dealer_desk.specs.DealerOutput.{dealer_output};
ghost use Rattle.dealer_desk.specs.declared.events.DealerEvent.{DealerEvent};
ghost use Rattle.recorded_days.specs.DayDues as spec;
ghost use Rattle.step_replay.specs.DealerView.{dealer_view};

use crate::records::DayRecord;
use dealer_desk::{
    DealerDesk, DealerEvent, facts_say_how_words_were_settled, what_is_asked_is_of_the_day,
    words_are_asked_event_by_event,
};
use fix_fields::{Date, Memory, Moment};
use quote_messages::FirmMessage;
use quote_word::Settled;
use std::alloc::Global;
use step_replay::Due;
use venue_rows::{DealerRow, VenueConfig};

impl DayRecord {
    /// What was due to the dealer with this number on the recorded day: the events at its desk, and
    /// directly before each that was settled lifted the lifting of the quote that it asked. It is
    /// none where the configuration or the record has no such dealer.
    pub fn due(
        &self,
        alloc: Global,
        config: &VenueConfig,
        dealer: u16,
    ) -> Result<Option<Vec<Due>>, Memory>
        ensures { IfOk result (λ dues. option_map (λ list. list.items) dues
            ≡ spec.day_dues_of config.now self.now dealer) }
    {
        let Some(row) = config.dealer(dealer) else {
            return Ok(None);
        };
        let Some(events) = self.dealer_events(dealer) else {
            return Ok(None);
        };
        let dues = day_dues(alloc, config.date(), row, events)?;
        Ok(Some(dues))
    }
}

/// What was due to a dealer by these events at its desk.
fn day_dues(
    alloc: Global,
    date: &Date,
    row: &DealerRow,
    events: &[DealerEvent],
) -> Result<Vec<Due>, Memory>
    ensures { IfOk result (λ dues.
        dues.items ≡ spec.day_due_list date.now row.now events.now) }
{
    let mut desk = DealerDesk::new(alloc, *date, row.copy())?;
    let mut dues = Vec::new(alloc);
    for event in events {
        put_event(alloc, &mut desk, &mut dues, event)?;
    }
    Ok(dues)
}

/// Puts what is due by an event, with the lifting that the desk learns of by it, behind some dues.
fn put_event(
    alloc: Global,
    desk: &mut DealerDesk,
    dues: &mut Vec<Due>,
    event: &DealerEvent,
) -> Result<(), Memory>
    ensures { OnOk result (record { desk = desk.new; dues = dues.new.items }
        ≡ spec.after_recorded (record { desk = desk.old; dues = dues.old.items }) event.now) }
{
    match event {
        DealerEvent::Received {
            moment,
            message,
            settlement,
        } => {
            put_received(alloc, desk, dues, *moment, message.as_bytes(), *settlement)?;
            Ok(())
        }
        DealerEvent::Shown { room, ask, moment } => {
            dues.push(Due::Shown(ask.copy(), *moment))?;
            desk.show(*room, ask.copy(), *moment)?;
            Ok(())
        }
        DealerEvent::Told {
            request,
            close,
            moment,
        } => {
            dues.push(Due::Closed(*request, *close, *moment))?;
            desk.tell_request(*request, *close, *moment)?;
            Ok(())
        }
        DealerEvent::Drop {
            last,
            moment,
            settlement,
        } => {
            put_drop(desk, dues, *last, *moment, *settlement)?;
            Ok(())
        }
    }
}

/// Puts a message of the dealer's own behind some dues, and before it the lifting that the desk
/// learns of by its settlement.
fn put_received(
    alloc: Global,
    desk: &mut DealerDesk,
    dues: &mut Vec<Due>,
    moment: Moment,
    bytes: &[u8],
    settlement: Option<Settled>,
) -> Result<(), Memory>
    ensures { OnOk result (record { desk = desk.new; dues = dues.new.items }
        ≡ spec.after_recorded (record { desk = desk.old; dues = dues.old.items })
        (DealerEvent.Received moment bytes.now settlement)) }
{
    let verdict = desk.judge(moment, bytes);
    let asked = verdict.word_asked();
    put_lifting(dues, asked, settlement)?;
    dues.push(Due::Own(moment, FirmMessage::copy_of(alloc, bytes)?))?;
    desk.receive_judged(moment, bytes, verdict, settlement_taken(asked, settlement))?;
    Ok(())
}

/// The same of a drop.
fn put_drop(
    desk: &mut DealerDesk,
    dues: &mut Vec<Due>,
    last: u32,
    moment: Moment,
    settlement: Option<Settled>,
) -> Result<(), Memory>
    ensures { OnOk result (record { desk = desk.new; dues = dues.new.items }
        ≡ spec.after_recorded (record { desk = desk.old; dues = dues.old.items })
        (DealerEvent.Drop last moment settlement)) }
{
    let asked = desk.question_drop(last);
    put_lifting(dues, asked, settlement)?;
    dues.push(Due::Drop(last, moment))?;
    desk.drop_one(last, moment, settlement_taken(asked, settlement))?;
    Ok(())
}

/// Puts the lifting that a dealer learns of by a settlement behind some dues, where it learns of
/// one.
fn put_lifting(
    dues: &mut Vec<Due>,
    asked: Option<u32>,
    settlement: Option<Settled>,
) -> Result<(), Memory>
    ensures { OnOk result
        (dues.new.items ≡ dues.old.items ++ spec.lifting_learned asked settlement) }
{
    let Some(quote) = asked else {
        return Ok(());
    };
    let Some(Settled::Lifted) = settlement else {
        return Ok(());
    };
    dues.push(Due::Lifted(quote))?;
    Ok(())
}

/// The settlement that a desk is handed for the word of the quote that it asks.
fn settlement_taken(asked: Option<u32>, settlement: Option<Settled>) -> Option<Settled>
    ensures { result ≡ spec.settlement_taken asked settlement }
{
    let _asked = asked?;
    let Some(settled) = settlement else {
        return Some(Settled::Withdrawn);
    };
    Some(settled)
}

/// Where each event of a desk had a settlement exactly where it asked a word, and all settlements
/// of one word agree, what the desk sent is the dealer view of what was due by its events, whatever
/// the liftings were that no dealer saw.
pub fn recorded_dealers_are_sent_their_view()
    ensures { (date : List ℕ) (row : DealerRow) (events : List DealerEvent)
        (word_of : ℕ → Option Settled)
        → spec.AreAnswered (record { date = date; row = row; events = events })
        → spec.AnswersAre word_of (record { date = date; row = row; events = events })
        → dealer_output date row events
        ≡ dealer_view date row (spec.day_due_list date row events) }
{
    words_are_asked_event_by_event();
    facts_say_how_words_were_settled();
    what_is_asked_is_of_the_day();
}

/// A law: each event of a desk had a settlement exactly where it asked a word, where so had each
/// before, and so has the last. It does nothing.
pub fn events_are_settled_one_by_one()
    ensures none { (date : List ℕ) (row : DealerRow)
        → spec.AreAnswered (record { date = date; row = row; events = [] }) }
    ensures more { (desk : DeskEvents) (now : DealerEvent)
        → spec.AreAnswered desk → spec.IsSettledIfAsked desk now
        → spec.AreAnswered (with_event desk now) }
{}
