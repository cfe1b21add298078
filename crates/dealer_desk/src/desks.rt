//! The desk of one dealer.
ghost use Rattle.std.specs.Prelude.{◌≡◌, ◌+◌, ◌≤◌, [], is_some, IfOk, IfSome, IsTrue, OnOk, OnErr};
ghost use Rattle.fix_fields.specs.Frame.{frame_of};
ghost use Rattle.dealer_desk.specs.DealerFacts.{requests_shown, exposure_of, number_to_drop};
ghost use Rattle.dealer_desk.specs.DealerFacts.{quote_to_drop};
ghost use Rattle.dealer_desk.specs.DealerOutput as spec;
ghost use Rattle.dealer_desk.specs.DealerDesk.{book_at, rooms_at, with_event, with_notice};
ghost use Rattle.dealer_desk.specs.DealerDesk.{with_notice_in, may_close, may_close_in, verdict_at};
ghost use Rattle.dealer_desk.specs.DealerOutput.{dealer_output, number_in, word_asked};
ghost use Rattle.dealer_desk.specs.DealerOutput.{verdict_duty};
ghost use Rattle.dealer_desk.specs.DealerNotes.{dealer_notes};
ghost use Rattle.dealer_desk.specs.QuoteLines.{lines_of};

use crate::answers::{duty_of, outcome_of, take_note};
use crate::drops::{drop_message, drop_note, further_drop, note_drop, unpost_of};
use crate::index::DealerIndex;
use crate::rules::{dealer_verdict, frame_verdict};
use crate::sending::{next_message, noted_with, notice_note, notice_of, output_message, push_some};
use crate::{DealerEvent, DealerNote, DealerVerdict};
use fix_fields::{Date, Memory, Moment};
use market_terms::{Ask, Close, Duty, QuoteLine, RoomRef};
use quote_messages::{Message, OutMessage, Request, SentMessage};
use quote_word::Settled;
use std::alloc::Global;
use std::marker::Model;
use venue_rows::DealerRow;

/// The desk of one dealer: the events that came to it, and the messages that its dealer was sent,
/// with what is noted beside each.
///
/// A contract sees the day, the dealer's row and the list of events. What was sent is
/// `dealer_output` of them, what is noted `dealer_notes`, and nothing else goes into either.
#[derive(Drop)]
pub struct DealerDesk {
    alloc: Global,
    date: Date,
    row: DealerRow,
    events: Vec<DealerEvent>,
    sent: Vec<SentMessage>,
    notes: Vec<Option<DealerNote>>,
    index: DealerIndex,
}

impl Model for DealerDesk {
    ghost use Rattle.dealer_desk.specs.DealerDesk.{DeskEvents};
    ghost use Rattle.dealer_desk.specs.RuleCuts.{IsDesk};

    ghost Value = { DeskEvents };

    ghost view = { λ desk. record {
      date = desk.date;
      row = desk.row;
      events = desk.events.items;
    } };

    ghost invariant = { λ desk.
        IsDesk desk.date desk.row desk.events.items desk.sent.items desk.notes.items desk.index };
}

impl DealerDesk {
    /// The desk at the start of the day.
    pub fn new(alloc: Global, date: Date, row: DealerRow) -> Result<Self, Memory>
        ensures { IfOk result (λ desk. desk ≡ record { date = date; row = row; events = [] }) }
    {
        Ok(DealerDesk {
            alloc,
            date,
            row,
            events: Vec::new(alloc),
            sent: Vec::new(alloc),
            notes: Vec::new(alloc),
            index: DealerIndex::new(alloc),
        })
    }

    /// What its memory comes from.
    pub fn alloc(&self) -> Global {
        self.alloc
    }

    /// The verdict on bytes that come at this moment: what the session and the market make of them.
    /// It may be handed to [`DealerDesk::receive_judged`] as long as nothing else comes to the
    /// desk, so that a message is read and judged once. The quote whose word it asks has a number
    /// from 1 to the quotes of the dealer's row.
    pub fn judge<'a>(&self, moment: Moment, bytes: &'a [u8]) -> DealerVerdict<'a>
        ensures verdict { result ≡ verdict_at self.now moment bytes.now }
        ensures own { IfSome (word_asked result)
            (λ quote. (1 ≤ quote) × (quote ≤ self.now.row.quotes)) }
    {
        let verdict = dealer_verdict(&self.date, &self.row, &self.index, moment, bytes);
        verdict
    }

    /// The same of bytes that are known to be a frame: that is not tested again.
    pub fn judge_frame<'a>(&self, moment: Moment, bytes: &'a [u8]) -> DealerVerdict<'a>
        requires { IsTrue (is_some (frame_of bytes.now)) }
        ensures verdict { result ≡ verdict_at self.now moment bytes.now }
        ensures own { IfSome (word_asked result)
            (λ quote. (1 ≤ quote) × (quote ≤ self.now.row.quotes)) }
    {
        let verdict = frame_verdict(&self.date, &self.row, &self.index, moment, bytes);
        verdict
    }

    /// The own number of the quote whose word has to be asked before these bytes are taken at this
    /// moment: that of the quote that a Quote (35=S) would replace, or that a QuoteCancel (35=Z)
    /// would withdraw. Numbers are from 1 to the quotes of the dealer's row.
    pub fn question(&self, moment: Moment, bytes: &[u8]) -> Option<u32>
        ensures quote { result ≡ word_asked (verdict_at self.now moment bytes.now) }
        ensures own { IfSome result (λ quote. (1 ≤ quote) × (quote ≤ self.now.row.quotes)) }
    {
        let verdict = dealer_verdict(&self.date, &self.row, &self.index, moment, bytes);
        let quote = verdict.word_asked();
        quote
    }

    /// Receives a message of its dealer, whatever its bytes are, with the settlement of the word
    /// that it asks, and gives what is left to be done in the room of its request. After an error
    /// the desk is as before.
    pub fn take(
        &mut self,
        moment: Moment,
        bytes: &[u8],
        settlement: Option<Settled>,
    ) -> Result<Option<Duty>, Memory>
        requires { is_some settlement ≡ is_some
            (word_asked (verdict_at self.old moment bytes.now)) }
        ensures ok { OnOk result
            (self.new ≡ with_event self.old (DealerEvent.Received moment bytes.now settlement)) }
        ensures duty { IfOk result (λ duty. duty
            ≡ verdict_duty (rooms_at self.old) moment
            (verdict_at self.old moment bytes.now) settlement) }
        ensures err { OnErr result (self.new ≡ self.old) }
    {
        let verdict = dealer_verdict(&self.date, &self.row, &self.index, moment, bytes);
        let duty = self.receive_judged(moment, bytes, verdict, settlement)?;
        Ok(duty)
    }

    /// The same of a message that was judged already.
    pub fn receive_judged(
        &mut self,
        moment: Moment,
        bytes: &[u8],
        verdict: DealerVerdict<'_>,
        settlement: Option<Settled>,
    ) -> Result<Option<Duty>, Memory>
        requires judged { verdict ≡ verdict_at self.old moment bytes.now }
        requires settled { is_some settlement ≡ is_some (word_asked verdict) }
        ensures ok { OnOk result
            (self.new ≡ with_event self.old (DealerEvent.Received moment bytes.now settlement)) }
        ensures duty { IfOk result
            (λ duty. duty ≡ verdict_duty (rooms_at self.old) moment verdict.entry settlement) }
        ensures err { OnErr result (self.new ≡ self.old) }
    {
        let message = Message::copy_of(self.alloc, bytes)?;
        let duty = duty_of(&self.index, moment, &verdict, settlement);
        let outcome = outcome_of(verdict, settlement);
        let sent = output_message(
            self.alloc,
            &self.date,
            &self.row,
            &self.sent,
            moment,
            &outcome.output,
        )?;
        let beside = outcome.beside;
        let noted = noted_with(&outcome.output, beside);
        self.events.reserve(1)?;
        self.sent.reserve(1)?;
        self.notes.reserve(1)?;
        take_note(&mut self.index, outcome.note)?;
        self.events.push(DealerEvent::Received {
            moment,
            message,
            settlement,
        })?;
        push_some(&mut self.sent, sent)?;
        push_some(&mut self.notes, noted)?;
        Ok(duty)
    }

    /// Shows the dealer a request, and returns the number that it has among those shown to this
    /// dealer. A room is shown once: where one was shown before, it goes on to mean its first
    /// request. After an error the desk is as before.
    pub fn show(&mut self, room: RoomRef, ask: Ask, moment: Moment) -> Result<u64, Memory>
        ensures number { IfOk result (λ number. number ≡ requests_shown (book_at self.old) + 1) }
        ensures ok { OnOk result
            (self.new ≡ with_event self.old (DealerEvent.Shown room ask moment)) }
        ensures err { OnErr result (self.new ≡ self.old) }
    {
        let number = self.index.requests_shown() + 1;
        let request = OutMessage::Request(Request {
            number,
            ask: ask.copy(),
        });
        let message = next_message(
            self.alloc, &self.date, &self.row, &self.sent, moment, &request,
        )?;
        self.events.reserve(1)?;
        self.sent.reserve(1)?;
        self.notes.reserve(1)?;
        self.index.show(room, ask.copy())?;
        self.events.push(DealerEvent::Shown { room, ask, moment })?;
        self.sent.push(message)?;
        self.notes.push(None)?;
        Ok(number)
    }

    /// Tells the dealer how the request of a room ended. It returns false, and changes nothing,
    /// where that room was not shown or was told already. After an error the desk is as before.
    pub fn tell(&mut self, room: RoomRef, close: Close, moment: Moment) -> Result<bool, Memory>
        ensures told { IfOk result
            (λ told. told ≡ may_close_in self.old (number_in (rooms_at self.old) room)) }
        ensures ok { OnOk result (self.new
            ≡ with_notice_in self.old (number_in (rooms_at self.old) room) close moment) }
        ensures err { OnErr result (self.new ≡ self.old) }
    {
        let Some(number) = self.index.number_in(room) else {
            return Ok(false);
        };
        let told = self.tell_request(number, close, moment)?;
        Ok(told)
    }

    /// The same by the number that the request has among those shown to this dealer.
    pub fn tell_request(
        &mut self,
        number: u64,
        close: Close,
        moment: Moment,
    ) -> Result<bool, Memory>
        ensures told { IfOk result (λ told. told ≡ may_close self.old number) }
        ensures ok { OnOk result (self.new ≡ with_notice self.old number close moment) }
        ensures err { OnErr result (self.new ≡ self.old) }
    {
        let Some(notice) = notice_of(&self.index, number, close) else {
            return Ok(false);
        };
        let note = notice_note(&self.index, number, close);
        let message = next_message(
            self.alloc, &self.date, &self.row, &self.sent, moment, &notice,
        )?;
        self.events.reserve(1)?;
        self.sent.reserve(1)?;
        self.notes.reserve(1)?;
        self.index.tell(number, close);
        self.events.push(DealerEvent::Told {
            request: number,
            close,
            moment,
        })?;
        self.sent.push(message)?;
        self.notes.push(note)?;
        Ok(true)
    }

    /// The own number of the quote whose word has to be asked before the next of the quotes up to
    /// `last` is dropped: of those that are live and not known to be lifted the one with the lowest
    /// number. Numbers are from 1 to the quotes of the dealer's row.
    pub fn question_drop(&self, last: u32) -> Option<u32>
        ensures quote { result ≡ number_to_drop (book_at self.now) last }
        ensures own { IfSome result (λ quote. (1 ≤ quote) × (quote ≤ self.now.row.quotes)) }
    {
        let own = self.index.quote_to_drop(last)?;
        Some(own.quote.number)
    }

    /// Drops the next of the quotes up to `last`, with the settlement of its word, for a cancel of
    /// all quotes that came at this moment. It gives what is left to be done in the room of that
    /// quote, and the same drop once more where another quote is left. After an error the desk is
    /// as before.
    pub fn drop_one(
        &mut self,
        last: u32,
        moment: Moment,
        settlement: Option<Settled>,
    ) -> Result<(Option<Duty>, Option<Duty>), Memory>
        requires { is_some settlement ≡ is_some (number_to_drop (book_at self.old) last) }
        ensures ok { OnOk result
            (self.new ≡ with_event self.old (DealerEvent.Drop last moment settlement)) }
        ensures unpost { IfOk result (λ duties. duties.0
            ≡ spec.unpost_dropped (rooms_at self.old) moment settlement
            (quote_to_drop (book_at self.old) last)) }
        ensures further { IfOk result
            (λ duties. duties.1 ≡ spec.further_drop (book_at self.new) last moment) }
        ensures err { OnErr result (self.new ≡ self.old) }
    {
        let output = drop_message(&self.index, last, settlement);
        let noted = noted_with(&output, drop_note(&self.index, last, settlement));
        let unpost = unpost_of(&self.index, last, moment, settlement);
        let sent = output_message(
            self.alloc, &self.date, &self.row, &self.sent, moment, &output,
        )?;
        self.events.reserve(1)?;
        self.sent.reserve(1)?;
        self.notes.reserve(1)?;
        note_drop(&mut self.index, last, settlement);
        self.events.push(DealerEvent::Drop {
            last,
            moment,
            settlement,
        })?;
        push_some(&mut self.sent, sent)?;
        push_some(&mut self.notes, noted)?;
        let further = further_drop(&self.index, last, moment);
        Ok((unpost, further))
    }

    /// Whether the request of a room was shown.
    pub fn was_shown(&self, room: RoomRef) -> bool
        ensures { result ≡ is_some (number_in (rooms_at self.now) room) }
    {
        self.index.number_in(room).is_some()
    }

    /// The messages that the dealer was sent, the first one first.
    pub fn sent(&self) -> &[SentMessage]
        ensures { result.now ≡ dealer_output self.now.date self.now.row self.now.events }
    {
        self.sent.as_slice()
    }

    /// What is noted of these messages, one for each and in their order.
    pub fn notes(&self) -> &[Option<DealerNote>]
        ensures { result.now ≡ dealer_notes self.now.date self.now.row self.now.events }
    {
        self.notes.as_slice()
    }

    /// The same messages, taken out of the desk. It takes no memory.
    pub fn into_sent(self) -> Vec<SentMessage>
        ensures { result.items ≡ dealer_output self.date self.row self.events }
    {
        let Self { sent, .. } = self;
        sent
    }

    /// The messages and what is noted of them, taken out of the desk. It takes no memory.
    pub fn into_output(self) -> (Vec<SentMessage>, Vec<Option<DealerNote>>)
        ensures sent { result.0.items ≡ dealer_output self.date self.row self.events }
        ensures notes { result.1.items ≡ dealer_notes self.date self.row self.events }
    {
        let Self { sent, notes, .. } = self;
        (sent, notes)
    }

    /// The events, the messages and the lines of the blotter, taken out of the desk. It takes no
    /// memory.
    pub fn into_parts(self) -> (Vec<DealerEvent>, Vec<SentMessage>, Vec<QuoteLine>)
        ensures events { result.0.items ≡ self.events }
        ensures sent { result.1.items ≡ dealer_output self.date self.row self.events }
        ensures lines { result.2.items ≡ lines_of (book_at self) }
    {
        let Self {
            events,
            sent,
            index,
            ..
        } = self;
        (events, sent, index.into_lines())
    }

    /// The events that came to the desk, the first one first.
    pub fn events(&self) -> &[DealerEvent]
        ensures { result.now ≡ self.now.events }
    {
        self.events.as_slice()
    }

    /// The sum of the quantities of the dealer's live quotes, never above the limit of its row.
    pub fn exposure(&self) -> u64
        ensures sum { result ≡ exposure_of (book_at self.now) }
        ensures within { result ≤ self.now.row.exposure }
    {
        self.index.exposure()
    }

    /// The lines of the dealer's blotter: one for each accepted quote, in order.
    pub fn lines(&self) -> &[QuoteLine]
        ensures { result.now ≡ lines_of (book_at self.now) }
    {
        self.index.lines()
    }

    /// The day.
    pub fn date(&self) -> &Date
        ensures { result.now ≡ self.now.date }
    {
        &self.date
    }

    /// What the configuration says of the dealer.
    pub fn row(&self) -> &DealerRow
        ensures { result.now ≡ self.now.row }
    {
        &self.row
    }
}
