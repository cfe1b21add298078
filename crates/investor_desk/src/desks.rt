//! The desk of one investor.
ghost use Rattle.std.specs.Prelude.{◌≡◌, ◌≤◌, ◌++◌, true, is_some, length, Some, IfOk, OnOk, OnErr};
ghost use Rattle.std.specs.Prelude.{option_and_then};
ghost use Rattle.std.specs.Option.{option_map, option_to_list};
ghost use Rattle.venue_rows.specs.Rows.{investor_numbered};
ghost use Rattle.investor_desk.specs.InvestorFacts.{knows, offer_with_word, offers_shown};
ghost use Rattle.investor_desk.specs.InvestorFacts.{open_request};
ghost use Rattle.investor_desk.specs.InvestorDesk.{market_for, no_events, book_at, verdict_at};
ghost use Rattle.investor_desk.specs.InvestorDesk.{with_event};
ghost use Rattle.investor_desk.specs.InvestorOutput.{investor_output, verdict_duty, event_facts};
ghost use Rattle.investor_desk.specs.InvestorOutput.{event_messages, event_note, moment_of};
ghost use Rattle.investor_desk.specs.InvestorOutput.{investor_notes};
ghost use Rattle.investor_desk.specs.BookChanges.{book_with};
ghost use Rattle.investor_desk.specs.RuleCuts.{IsLawful, messages_of, next_written, noted};
ghost use Rattle.investor_desk.specs.RequestLines.{lines_of};

use crate::answers::{
    answer_note, answer_outcome, decline_outcome, duty_of, expiry_outcome, offer_outcome,
    take_note, verdict_note, withdrawal_outcome,
};
use crate::index::{InvestorIndex, copy_of};
use crate::market::Market;
use crate::outcomes::{Note, Outcome, Sent};
use crate::rules::investor_verdict;
use crate::sending::{push_note, push_some, write_both};
use crate::verdicts::received_outcome;
use crate::{InvestorEvent, InvestorNote, KeptResponse};
use fix_fields::{Date, Memory, Moment};
use market_terms::{Duty, Offer, Reply, RequestLine, ResponseRef};
use quote_messages::{Message, SentMessage};
use std::alloc::Global;
use std::marker::Model;
use venue_rows::{BondRow, InvestorRow, Name, VenueConfig};

/// The desk of one investor: the events that came to it, and the messages that the investor was
/// sent.
///
/// A contract sees what the desk looks at of the venue's configuration, and the list of events.
/// What was sent is `investor_output` of them, and nothing else goes into it. A call about a
/// request that was not accepted changes nothing but the events.
#[derive(Drop)]
pub struct InvestorDesk {
    alloc: Global,
    market: Market,
    events: Vec<InvestorEvent>,
    sent: Vec<SentMessage>,
    notes: Vec<Option<InvestorNote>>,
    index: InvestorIndex,
}

impl Model for InvestorDesk {
    ghost use Rattle.investor_desk.specs.InvestorDesk.{DeskEvents};
    ghost use Rattle.investor_desk.specs.RuleCuts.{IsDesk};

    ghost Value = { DeskEvents };

    ghost view = { λ desk. record { market = desk.market; events = desk.events.items } };

    ghost invariant = { λ desk. IsDesk desk.market desk.events.items desk.sent.items
        desk.notes.items desk.index };
}

impl InvestorDesk {
    /// The desk at the start of the day of the investor with this number as a firm. Of the
    /// configuration it keeps the day, the bonds, the names of the dealers and the investor's row.
    pub fn new(alloc: Global, config: &VenueConfig, firm: u16) -> Result<Self, Memory>
        requires { is_some (investor_numbered config.now firm) ≡ true }
        ensures { IfOk result (λ desk. Some desk
            ≡ option_map no_events (market_for config.now firm)) }
    {
        let row = config.investor(firm).unwrap();
        let market = Market::of(alloc, config, firm, row)?;
        Ok(InvestorDesk {
            alloc,
            market,
            events: Vec::new(alloc),
            sent: Vec::new(alloc),
            notes: Vec::new(alloc),
            index: InvestorIndex::new(alloc),
        })
    }

    /// The same of an investor that sees these bonds and the dealers with these names, and of which
    /// nothing else of the venue is known. Its number as a firm, which no message bears, is 0.
    pub fn of_seen(
        alloc: Global,
        date: Date,
        row: InvestorRow,
        bonds: Vec<BondRow>,
        dealers: Vec<Name>,
    ) -> Self
        requires { length dealers.items ≤ VenueConfig.MOST_DEALERS }
        ensures { result ≡ no_events (record {
          date = date;
          bonds = bonds.items;
          dealers = dealers.items;
          firm = 0;
          row = row;
        }) }
    {
        let market = Market::seen(date, row, bonds, dealers);
        InvestorDesk {
            alloc,
            market,
            events: Vec::new(alloc),
            sent: Vec::new(alloc),
            notes: Vec::new(alloc),
            index: InvestorIndex::new(alloc),
        }
    }

    /// What its memory comes from.
    pub fn alloc(&self) -> Global {
        self.alloc
    }

    /// Takes a message of the investor's own, whatever its bytes are, and gives what is left to be
    /// done in the room of its request. After an error the desk is as before.
    pub fn take(&mut self, moment: Moment, bytes: &[u8]) -> Result<Option<Duty>, Memory>
        ensures ok { OnOk result (self.new
            ≡ with_event self.old (InvestorEvent.Received moment bytes.now)) }
        ensures duty { IfOk result (λ duty. duty
            ≡ verdict_duty self.old.market moment (verdict_at self.old moment bytes.now)) }
        ensures err { OnErr result (self.new ≡ self.old) }
    {
        let message = Message::copy_of(self.alloc, bytes)?;
        let verdict = investor_verdict(&self.market, &self.index, moment, bytes);
        let duty = duty_of(&self.market, moment, &verdict);
        let beside = verdict_note(&verdict);
        let outcome = received_outcome(verdict);
        let sent = self.written(moment, &outcome)?;
        self.keep(
            InvestorEvent::Received { moment, message },
            outcome.note,
            sent,
            beside,
        )?;
        Ok(duty)
    }

    /// Shows the investor a quote on a request with this number, where the request is open. Where a
    /// quote of the same dealer stands on that request, it first reports that one gone. After an
    /// error the desk is as before.
    pub fn quote_came(&mut self, n: u32, offer: &Offer, moment: Moment) -> Result<(), Memory>
        ensures ok { OnOk result (self.new
            ≡ with_event self.old (InvestorEvent.QuoteCame n offer.now moment)) }
        ensures err { OnErr result (self.new ≡ self.old) }
    {
        let outcome = offer_outcome(&self.index, n, offer);
        let sent = self.written(moment, &outcome)?;
        let note = outcome.note;
        let event = InvestorEvent::QuoteCame {
            request: n,
            offer: copy_of(offer),
            moment,
        };
        self.keep(event, note, sent, None)
    }

    /// Reports the earliest shown of the quotes with this word that stand on the request with this
    /// number gone, where the request is open and there is such a quote. After an error the desk is
    /// as before.
    pub fn quote_gone(&mut self, n: u32, word: u32, moment: Moment) -> Result<(), Memory>
        ensures ok { OnOk result (self.new
            ≡ with_event self.old (InvestorEvent.QuoteGone n word moment)) }
        ensures err { OnErr result (self.new ≡ self.old) }
    {
        let outcome = withdrawal_outcome(&self.index, n, word);
        let sent = self.written(moment, &outcome)?;
        let note = outcome.note;
        let event = InvestorEvent::QuoteGone {
            request: n,
            word,
            moment,
        };
        self.keep(event, note, sent, None)
    }

    /// Tells the investor that a dealer declined the request with this number, where the request is
    /// open. After an error the desk is as before.
    pub fn dealer_declined(&mut self, n: u32, dealer: Name, moment: Moment) -> Result<(), Memory>
        ensures ok { OnOk result (self.new
            ≡ with_event self.old (InvestorEvent.DealerDeclined n dealer moment)) }
        ensures err { OnErr result (self.new ≡ self.old) }
    {
        let outcome = decline_outcome(&self.index, n, &dealer);
        let sent = self.written(moment, &outcome)?;
        let note = outcome.note;
        let event = InvestorEvent::DealerDeclined {
            request: n,
            dealer,
            moment,
        };
        self.keep(event, note, sent, None)
    }

    /// Answers a hit or a pass of the request with this number as its room decided. A hit that is
    /// not refused closes the request by the award of its quote, and a pass that is not refused
    /// passes it. After an error the desk is as before.
    pub fn answered(
        &mut self,
        n: u32,
        response: &ResponseRef,
        reply: Reply,
        moment: Moment,
    ) -> Result<(), Memory>
        ensures ok { OnOk result (self.new
            ≡ with_event self.old (InvestorEvent.Answered n response.now reply moment)) }
        ensures err { OnErr result (self.new ≡ self.old) }
    {
        let outcome = answer_outcome(&self.index, n, response, reply);
        let sent = self.written(moment, &outcome)?;
        let kept = KeptResponse::of(self.alloc, response)?;
        let note = outcome.note;
        let beside = answer_note(&self.index, n, response, reply);
        let event = InvestorEvent::Answered {
            request: n,
            response: kept,
            reply,
            moment,
        };
        self.keep(event, note, sent, beside)
    }

    /// Tells the investor that the request with this number expired, and closes it. After an error
    /// the desk is as before.
    pub fn closed(&mut self, n: u32, moment: Moment) -> Result<(), Memory>
        ensures ok { OnOk result (self.new ≡ with_event self.old (InvestorEvent.Closed n moment)) }
        ensures err { OnErr result (self.new ≡ self.old) }
    {
        let outcome = expiry_outcome(&self.index, n);
        let sent = self.written(moment, &outcome)?;
        let note = outcome.note;
        let event = InvestorEvent::Closed { request: n, moment };
        self.keep(event, note, sent, None)
    }

    /// The messages that an event leads to, as the next ones that the investor is sent.
    fn written(&self, moment: Moment, outcome: &Outcome) -> Result<Sent, Memory>
        ensures { IfOk result (λ sent. option_to_list sent.first ++ option_to_list sent.second
            ≡ next_written self.now moment (messages_of outcome.now)) }
    {
        let number = self.sent.len() as u64 + 1;
        let sent = write_both(
            self.alloc,
            &self.market,
            number,
            moment,
            &outcome.gone,
            &outcome.message,
        )?;
        Ok(sent)
    }

    /// Keeps an event with what the index notes of it, the messages that it sends, and what is noted
    /// beside these. After an error the desk is as before.
    fn keep(
        &mut self,
        event: InvestorEvent,
        note: Note,
        sent: Sent,
        beside: Option<InvestorNote>,
    ) -> Result<(), Memory>
        requires lawful { IsLawful (book_at self.old) note }
        requires facts { noted (book_at self.old) note
            ≡ book_with (book_at self.old) (event_facts self.old.market (book_at self.old) event) }
        requires sent { option_to_list sent.first ++ option_to_list sent.second
            ≡ next_written self.old (moment_of event)
            (event_messages self.old.market (book_at self.old) event) }
        requires beside { beside ≡ event_note self.old.market (book_at self.old) event }
        ensures ok { OnOk result (self.new ≡ with_event self.old event) }
        ensures err { OnErr result (self.new ≡ self.old) }
    {
        self.events.reserve(1)?;
        self.sent.reserve(2)?;
        self.notes.reserve(2)?;
        take_note(&mut self.index, note)?;
        self.events.push(event)?;
        push_note(&mut self.notes, &sent.first, &beside)?;
        push_note(&mut self.notes, &sent.second, &beside)?;
        push_some(&mut self.sent, sent.first)?;
        push_some(&mut self.sent, sent.second)?;
        Ok(())
    }

    /// Whether the request with this number was accepted, and the quote with this number, where one
    /// is given, was shown on it.
    pub fn knows(&self, n: u32, k: Option<u64>) -> bool
        ensures { result ≡ knows (book_at self.now) n k }
    {
        if self.index.request_numbered(n).is_none() {
            return false;
        }
        let Some(quote) = k else {
            return true;
        };
        match self.index.offer_numbered(quote) {
            Some(shown) => shown.request == n,
            None => false,
        }
    }

    /// How many quotes the investor was shown.
    pub fn quotes_shown(&self) -> u64
        ensures { result ≡ offers_shown (book_at self.now) }
    {
        self.index.offers_shown()
    }

    /// The number of the earliest shown of the quotes with this word that stand on the request with
    /// this number, where the request is open and there is such a quote.
    pub fn quote_with_word(&self, n: u32, word: u32) -> Option<u64>
        ensures { result ≡ option_map (λ shown. shown.number) (option_and_then
            (λ own. offer_with_word own word) (open_request (book_at self.now) n)) }
    {
        let row = self.index.open_request(n)?;
        let number = row.number_with_word(word)?;
        Some(number)
    }

    /// The messages that the investor was sent, the first one first.
    pub fn sent(&self) -> &[SentMessage]
        ensures { result.now ≡ investor_output self.now.market self.now.events }
    {
        self.sent.as_slice()
    }

    /// What is noted beside each of these messages, in their order.
    pub fn notes(&self) -> &[Option<InvestorNote>]
        ensures { result.now ≡ investor_notes self.now.market self.now.events }
    {
        self.notes.as_slice()
    }

    /// The events, the messages and the lines of the blotter, taken out of the desk. It takes no
    /// memory.
    pub fn into_parts(self) -> (Vec<InvestorEvent>, Vec<SentMessage>, Vec<RequestLine>)
        ensures events { result.0.items ≡ self.events }
        ensures sent { result.1.items ≡ investor_output self.market self.events }
        ensures lines { result.2.items ≡ lines_of (book_at self) }
    {
        let Self {
            events,
            sent,
            index,
            ..
        } = self;
        (events, sent, index.into_lines())
    }

    /// The messages that the investor was sent, and what is noted beside each of them, taken out of
    /// the desk. It takes no memory.
    pub fn into_output(self) -> (Vec<SentMessage>, Vec<Option<InvestorNote>>)
        ensures sent { result.0.items ≡ investor_output self.market self.events }
        ensures notes { result.1.items ≡ investor_notes self.market self.events }
    {
        let Self { sent, notes, .. } = self;
        (sent, notes)
    }

    /// The events that came to the desk, the first one first.
    pub fn events(&self) -> &[InvestorEvent]
        ensures { result.now ≡ self.now.events }
    {
        self.events.as_slice()
    }

    /// The lines of the investor's blotter: one for each accepted request, in order.
    pub fn lines(&self) -> &[RequestLine]
        ensures { result.now ≡ lines_of (book_at self.now) }
    {
        self.index.lines()
    }

    /// The day.
    pub fn date(&self) -> &Date
        ensures { result.now ≡ self.now.market.date }
    {
        &self.market.date
    }

    /// The investor's number as a firm.
    pub fn firm(&self) -> u16
        ensures { result ≡ self.now.market.firm }
    {
        self.market.firm
    }

    /// What the configuration says of the investor.
    pub fn row(&self) -> &InvestorRow
        ensures { result.now ≡ self.now.market.row }
    {
        &self.market.row
    }
}
