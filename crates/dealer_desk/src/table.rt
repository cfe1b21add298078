//! The requests and quotes of a desk, with what is asked of them most.
ghost use Rattle.std.specs.Prelude.{◌≡◌, ◌+◌, ◌≤◌, ◌<◌, ◌∷◌, [], ◌++◌, ℕ, false, length, map};
ghost use Rattle.std.specs.Prelude.{slice_get, vec_len, vec_capacity, Some, None, IsOk};
ghost use Rattle.std.specs.List.{position_or_len};
ghost use Rattle.venue_rows.specs.declared.dealer_rows.TheConstants.DealerRow.{MOST_QUOTES};
ghost use Rattle.venue_rows.specs.declared.dealer_rows.TheConstants.DealerRow.{MOST_EXPOSURE};
ghost use Rattle.dealer_desk.specs.declared.standing.StandingQuote.{StandingQuote};
ghost use Rattle.dealer_desk.specs.DealerFacts as facts;
ghost use Rattle.dealer_desk.specs.BookChanges.{IsLiveNumber, ended_at, late_at, closed_on};
ghost use Rattle.dealer_desk.specs.BookChanges.{declined_at, told_at};
ghost use Rattle.dealer_desk.specs.DealerTable.{IsSoundTable, live_number_among, requests_in};
ghost use Rattle.dealer_desk.specs.QuoteLines as spec;

use crate::{AcceptedQuote, QuoteEnd, StandingQuote, StandingRequest, Withdrawal};
use fix_fields::Memory;
use market_terms::{Ask, Close, QuoteLine, QuoteState};
use std::alloc::Global;

/// A request as it stands, with what its quotes are asked for.
#[derive(Drop)]
pub(crate) struct RequestRow {
    /// The request.
    pub(crate) request: StandingRequest,
    /// The own number of the live quote on it, where there is one.
    pub(crate) live: Option<u32>,
    /// Whether a quote on it is known to be lifted.
    pub(crate) has_lifted: bool,
}

/// The requests that the dealer was shown and its accepted quotes, as they stand.
#[derive(Drop)]
pub(crate) struct Table {
    /// The requests, the first one first.
    pub(crate) rows: Vec<RequestRow>,
    /// The quotes, the first one first.
    pub(crate) quotes: Vec<StandingQuote>,
    /// The line of each quote.
    pub(crate) lines: Vec<QuoteLine>,
    /// The sum of the quantities of the live quotes.
    pub(crate) exposure: u64,
    /// The place of the first quote that can be dropped, or the number of quotes where none can.
    pub(crate) first_droppable: usize,
}

impl Table {
    /// No requests and no quotes.
    pub(crate) fn new(alloc: Global) -> Self
        ensures rows { result.rows.items ≡ [] }
        ensures quotes { result.quotes.items ≡ [] }
        ensures table { IsSoundTable result }
    {
        Table {
            rows: Vec::new(alloc),
            quotes: Vec::new(alloc),
            lines: Vec::new(alloc),
            exposure: 0,
            first_droppable: 0,
        }
    }

    /// Ends the live quote of this own number.
    pub(crate) fn end_live(&mut self, number: u32, end: QuoteEnd)
        requires table { IsSoundTable self.old }
        requires live { IsLiveNumber self.old.quotes.items number }
        ensures table { IsSoundTable self.new }
        ensures quotes { self.new.quotes.items ≡ map (ended_at number end) self.old.quotes.items }
        ensures requests { requests_in self.new.rows.items ≡ requests_in self.old.rows.items }
        ensures quote_room { vec_capacity self.new.quotes ≡ vec_capacity self.old.quotes }
        ensures line_room { vec_capacity self.new.lines ≡ vec_capacity self.old.lines }
    {
        let place = number as usize - 1;
        let own = &mut self.quotes[place];
        own.end = Some(end);
        let request = own.quote.request as usize - 1;
        let quantity = own.quote.quantity.get();
        self.lines[place].state = state_of(&self.quotes[place]);
        self.rows[request].live = None;
        self.exposure -= quantity;
        self.first_droppable = next_droppable(&self.quotes, self.first_droppable);
    }

    /// Notes that the quote of this own number is known to be lifted.
    pub(crate) fn find_lifted(&mut self, number: u32)
        requires table { IsSoundTable self.old }
        requires live { IsLiveNumber self.old.quotes.items number }
        ensures table { IsSoundTable self.new }
        ensures quotes { self.new.quotes.items ≡ map (late_at number) self.old.quotes.items }
        ensures requests { requests_in self.new.rows.items ≡ requests_in self.old.rows.items }
    {
        let place = number as usize - 1;
        let own = &mut self.quotes[place];
        own.is_known_lifted = true;
        let request = own.quote.request as usize - 1;
        self.lines[place].state = state_of(&self.quotes[place]);
        self.rows[request].has_lifted = true;
        self.first_droppable = next_droppable(&self.quotes, self.first_droppable);
    }

    /// Ends the live quote on the request of this number by its closing, where there is one.
    fn close_live(&mut self, number: u64, close: Close)
        requires table { IsSoundTable self.old }
        requires from_first { 1 ≤ number }
        requires to_last { number ≤ length self.old.rows.items }
        ensures table { IsSoundTable self.new }
        ensures quotes { self.new.quotes.items
            ≡ map (closed_on number close) self.old.quotes.items }
        ensures requests { requests_in self.new.rows.items ≡ requests_in self.old.rows.items }
    {
        let Some(quote) = self.rows[number as usize - 1].live else {
            return;
        };
        self.end_live(quote, QuoteEnd::Closed(close));
    }

    /// Closes the request of this number.
    pub(crate) fn close(&mut self, number: u64, close: Close)
        requires table { IsSoundTable self.old }
        requires from_first { 1 ≤ number }
        requires to_last { number ≤ length self.old.rows.items }
        ensures table { IsSoundTable self.new }
        ensures quotes { self.new.quotes.items
            ≡ map (closed_on number close) self.old.quotes.items }
        ensures requests { requests_in self.new.rows.items
            ≡ map (told_at number) (requests_in self.old.rows.items) }
    {
        self.close_live(number, close);
        self.rows[number as usize - 1].request.is_told = true;
    }

    /// Notes that the dealer declined the request of this number.
    pub(crate) fn decline(&mut self, number: u64)
        requires table { IsSoundTable self.old }
        requires from_first { 1 ≤ number }
        requires to_last { number ≤ length self.old.rows.items }
        ensures table { IsSoundTable self.new }
        ensures quotes { self.new.quotes.items ≡ self.old.quotes.items }
        ensures requests { requests_in self.new.rows.items
            ≡ map (declined_at number) (requests_in self.old.rows.items) }
    {
        self.rows[number as usize - 1].request.is_declined = true;
    }

    /// Puts a request behind the others; there is room for it.
    pub(crate) fn push_request(&mut self, ask: Ask) -> Result<(), Memory>
        requires table { IsSoundTable self.old }
        requires fits { vec_len self.old.rows < vec_capacity self.old.rows }
        ensures ok { IsOk result }
        ensures table { IsSoundTable self.new }
        ensures quotes { self.new.quotes.items ≡ self.old.quotes.items }
        ensures requests { requests_in self.new.rows.items
            ≡ requests_in self.old.rows.items
            ++ facts.standing_request (length self.old.rows.items + 1) ask [] ∷ [] }
    {
        let request = StandingRequest {
            number: self.rows.len() as u64 + 1,
            ask,
            is_declined: false,
            is_told: false,
        };
        self.rows.push(RequestRow {
            request,
            live: None,
            has_lifted: false,
        })?;
        Ok(())
    }

    /// Puts a quote behind the others, on a request without a live one; there is room for it.
    pub(crate) fn push_quote(&mut self, quote: AcceptedQuote) -> Result<(), Memory>
        requires table { IsSoundTable self.old }
        requires quote_fits { vec_len self.old.quotes < vec_capacity self.old.quotes }
        requires line_fits { vec_len self.old.lines < vec_capacity self.old.lines }
        requires number { quote.number ≡ length self.old.quotes.items + 1 }
        requires few { length self.old.quotes.items < MOST_QUOTES }
        requires from_first { 1 ≤ quote.request }
        requires to_last { quote.request ≤ length self.old.rows.items }
        requires alone { live_number_among self.old.quotes.items quote.request ≡ None }
        requires exposure { self.old.exposure + quote.quantity ≤ MOST_EXPOSURE }
        ensures ok { IsOk result }
        ensures table { IsSoundTable self.new }
        ensures quotes { self.new.quotes.items
            ≡ self.old.quotes.items ++ facts.standing_quote quote [] ∷ [] }
        ensures requests { requests_in self.new.rows.items ≡ requests_in self.old.rows.items }
    {
        let place = quote.request as usize - 1;
        self.rows[place].live = Some(quote.number);
        self.exposure += quote.quantity.get();
        let line = line_of(&quote);
        self.lines.push(line)?;
        self.quotes.push(StandingQuote {
            quote,
            is_known_lifted: false,
            end: None,
        })?;
        Ok(())
    }
}

/// The line of a quote that was just accepted.
fn line_of(quote: &AcceptedQuote) -> QuoteLine
    ensures { result ≡ spec.line_of (facts.standing_quote quote.now []) }
{
    QuoteLine {
        q: quote.number,
        moment: quote.moment,
        trader: quote.trader.copy(),
        request: quote.request,
        bond: quote.bond,
        side: quote.side,
        quantity: quote.quantity,
        price: quote.price,
        state: QuoteState::Live,
    }
}

/// The place of the first quote that can be dropped, where none before `from` can.
fn next_droppable(quotes: &[StandingQuote], from: usize) -> usize
    requires within { from ≤ length quotes.now }
    requires none { (k : ℕ) (own : StandingQuote) → k < from → slice_get quotes.now k ≡ Some own
        → facts.is_droppable own ≡ false }
    ensures { result ≡ position_or_len facts.is_droppable quotes.now }
{
    for i in from..quotes.len() {
        if is_droppable(&quotes[i]) {
            return i;
        }
    }
    quotes.len()
}

/// Whether a quote is live and not known to be lifted.
fn is_droppable(own: &StandingQuote) -> bool
    ensures { result ≡ facts.is_droppable own.now }
{
    if own.is_known_lifted {
        return false;
    }
    own.end.is_none()
}

/// What became of a quote.
fn state_of(own: &StandingQuote) -> QuoteState
    ensures { result ≡ spec.state_of own.now }
{
    match own.end {
        Some(QuoteEnd::Withdrawn(Withdrawal::Cancel)) => QuoteState::Withdrawn,
        Some(QuoteEnd::Withdrawn(Withdrawal::Replacement)) => QuoteState::Replaced,
        Some(QuoteEnd::Closed(close)) => state_when_closed(close, own.is_known_lifted),
        None => state_when_live(own.is_known_lifted),
    }
}

/// What became of a quote that nothing ended.
fn state_when_live(is_known_lifted: bool) -> QuoteState
    ensures { result ≡ spec.state_by None is_known_lifted }
{
    if is_known_lifted {
        return QuoteState::Lifted;
    }
    QuoteState::Live
}

/// What became of a quote whose request was closed.
fn state_when_closed(close: Close, is_known_lifted: bool) -> QuoteState
    ensures { result ≡ spec.state_by (Some (QuoteEnd.Closed close)) is_known_lifted }
{
    if is_known_lifted {
        return QuoteState::Lifted;
    }
    match close {
        Close::Hit => QuoteState::Lifted,
        _ => QuoteState::Ended,
    }
}
