//! What a desk keeps of its day: the book, found again without a walk. It holds no events.
ghost use Rattle.std.specs.Prelude.{◌≡◌, ◌+◌, ◌<◌, ◌^◌, ◌≤◌, ◌∷◌, [], ◌++◌, ℕ, List, true};
ghost use Rattle.std.specs.Prelude.{option_map, vec_len, vec_capacity, IfSome, OnOk, OnErr, Some};
ghost use Rattle.std.specs.Prelude.{None, IsOk};
ghost use Rattle.venue_rows.specs.Texts.{same_text};
ghost use Rattle.quote_messages.specs.Written.{quote_name};
ghost use Rattle.investor_desk.specs.InvestorFacts as facts;
ghost use Rattle.investor_desk.specs.RequestLines as lines;
ghost use Rattle.investor_desk.specs.BookChanges.{IsAccepted, FitsBook, FitsOffer, book_after};
ghost use Rattle.investor_desk.specs.BookChanges.{book_with, gone_of, quotes_without, without_some};
ghost use Rattle.investor_desk.specs.BookChanges.{with_offer};
ghost use Rattle.investor_desk.specs.InvestorTable.{request_in};

use crate::{AcceptedRequest, RequestClose, ShownOffer};
use fix_fields::Memory;
use itoa::Buffer;
use market_terms::{Id, IdBuf, Offer, RequestLine, RequestState};
use std::alloc::Global;
use std::collections::BTreeMap;
use std::marker::Model;
use std::str;
use venue_rows::Name;

/// An accepted request as it stands.
#[derive(Drop)]
pub(crate) struct RequestRow {
    /// What was accepted.
    pub(crate) request: AcceptedRequest,
    /// How it was closed first, where it was.
    pub(crate) close: Option<RequestClose>,
    /// The quotes that stand on it, in the order in which they were shown.
    pub(crate) standing: Vec<ShownOffer>,
}

impl RequestRow {
    /// The number of the quote of this dealer that stands on the request.
    pub(crate) fn number_of_dealer(&self, dealer: &Name) -> Option<u64>
        ensures { result ≡ option_map (λ shown. shown.number)
            (facts.offer_of_dealer (request_in self.now) dealer.now) }
    {
        let shown = self
            .standing
            .iter()
            .find(|shown| shown.offer.dealer.as_bytes() == dealer.as_bytes())?;
        Some(shown.number)
    }

    /// The number of the earliest shown of the quotes with this word that stand on the request.
    pub(crate) fn number_with_word(&self, word: u32) -> Option<u64>
        ensures { result ≡ option_map (λ shown. shown.number)
            (facts.offer_with_word (request_in self.now) word) }
    {
        let shown = self.standing.iter().find(|shown| shown.offer.word == word)?;
        Some(shown.number)
    }

    /// Puts a quote behind the others, and takes out the one with this number, where there is one.
    /// After an error the same quotes stand.
    fn show(&mut self, replaced: Option<u64>, shown: ShownOffer) -> Result<(), Memory>
        ensures ok { OnOk result (request_in self.new
            ≡ with_offer shown (without_some replaced (request_in self.old))) }
        ensures err { OnErr result (request_in self.new ≡ request_in self.old) }
    {
        self.standing.reserve(1)?;
        take_out_some(&mut self.standing, replaced);
        self.standing.push(shown)?;
        Ok(())
    }
}

/// Takes out the quote with this number.
fn take_out(standing: &mut Vec<ShownOffer>, quote: u64)
    ensures items { standing.new.items ≡ quotes_without (Some quote) standing.old.items }
    ensures bound { vec_len standing.new ≤ vec_len standing.old }
    ensures room { vec_capacity standing.new ≡ vec_capacity standing.old }
{
    standing.retain(|shown| quote != shown.number);
}

/// The same where there is such a quote.
fn take_out_some(standing: &mut Vec<ShownOffer>, quote: Option<u64>)
    ensures items { standing.new.items ≡ quotes_without quote standing.old.items }
    ensures bound { vec_len standing.new ≤ vec_len standing.old }
    ensures room { vec_capacity standing.new ≡ vec_capacity standing.old }
{
    let Some(quote) = quote else {
        return;
    };
    take_out(standing, quote);
}

/// The book of a desk, with an ordered map from QuoteReqIDs to requests, a row for each request
/// with the quotes that stand on it, a row for each quote that was shown, and the number of open
/// requests and the lines of the blotter as they run. A contract sees the book.
#[derive(Drop)]
pub(crate) struct InvestorIndex {
    alloc: Global,
    used: u64,
    rows: Vec<RequestRow>,
    offers: Vec<ShownOffer>,
    lines: Vec<RequestLine>,
    open_count: u32,
    by_id: BTreeMap<IdBuf, u32>,
}

impl Model for InvestorIndex {
    ghost use Rattle.investor_desk.specs.InvestorFacts.{InvestorBook};
    ghost use Rattle.investor_desk.specs.InvestorTable.{IsIndex, requests_in};

    ghost Value = { InvestorBook };

    ghost view = { λ index. record {
      used = index.used;
      requests = requests_in index.rows.items;
      offers = index.offers.items;
    } };

    ghost invariant = { λ index. IsIndex index.used
        (requests_in index.rows.items) index.offers.items index.lines.items index.open_count
        index.by_id };
}

impl InvestorIndex {
    /// The index at the start of the day. It takes no memory.
    pub(crate) fn new(alloc: Global) -> Self
        ensures { result ≡ facts.book_of [] }
    {
        InvestorIndex {
            alloc,
            used: 0,
            rows: Vec::new(alloc),
            offers: Vec::new(alloc),
            lines: Vec::new(alloc),
            open_count: 0,
            by_id: BTreeMap::new(alloc),
        }
    }

    /// The MsgSeqNum (34) that is expected next.
    pub(crate) fn expected_number(&self) -> u64
        ensures { result ≡ facts.expected_number self.now }
    {
        self.used + 1
    }

    /// How many requests were accepted.
    pub(crate) fn requests_accepted(&self) -> u32
        ensures { result ≡ facts.requests_accepted self.now }
    {
        self.rows.len() as u32
    }

    /// How many requests are open.
    pub(crate) fn requests_open(&self) -> u32
        ensures { result ≡ facts.requests_open self.now }
    {
        self.open_count
    }

    /// How many quotes the investor was shown.
    pub(crate) fn offers_shown(&self) -> u64
        ensures value { result ≡ facts.offers_shown self.now }
        ensures fits { result < 2 ^ 63 }
    {
        self.offers.len() as u64
    }

    /// The request with this number.
    pub(crate) fn request_numbered(&self, number: u32) -> Option<&RequestRow>
        ensures request { option_map (λ row. request_in row.now) result
            ≡ facts.request_numbered self.now number }
        ensures accepted { IfSome result
            (λ _. IsAccepted (facts.requests_accepted self.now) number) }
    {
        if number < 1 || number as usize > self.rows.len() {
            return None;
        }
        Some(&self.rows[number as usize - 1])
    }

    /// The same while it is open.
    pub(crate) fn open_request(&self, number: u32) -> Option<&RequestRow>
        ensures request { option_map (λ row. request_in row.now) result
            ≡ facts.open_request self.now number }
        ensures accepted { IfSome result
            (λ _. IsAccepted (facts.requests_accepted self.now) number) }
    {
        let row = self.request_numbered(number)?;
        if row.close.is_some() {
            return None;
        }
        Some(row)
    }

    /// The request with this QuoteReqID (131).
    pub(crate) fn request_with_id(&self, id: &Id) -> Option<&RequestRow>
        ensures { option_map (λ row. request_in row.now) result
            ≡ facts.request_with_id self.now id.now }
    {
        let number = *self.by_id.get(&IdBuf::of(id))?;
        let row = self.request_numbered(number)?;
        Some(row)
    }

    /// The quote with this number.
    pub(crate) fn offer_numbered(&self, number: u64) -> Option<&ShownOffer>
        ensures { option_map (λ shown. shown.now) result ≡ facts.offer_numbered self.now number }
    {
        if number < 1 || number > self.offers.len() as u64 {
            return None;
        }
        Some(&self.offers[number as usize - 1])
    }

    /// The quote that a QuoteID (117) names.
    pub(crate) fn offer_named(&self, name: &[u8]) -> Option<&ShownOffer>
        ensures { option_map (λ shown. shown.now) result ≡ facts.offer_named self.now name.now }
    {
        // the quotes are numbered from 1
        let _ = &self.offers;
        let number = number_named(name)?;
        let shown = self.offer_numbered(number)?;
        Some(shown)
    }

    /// The lines of the blotter.
    pub(crate) fn lines(&self) -> &[RequestLine]
        ensures { result.now ≡ lines.lines_of self.now }
    {
        self.lines.as_slice()
    }

    /// The same lines, taken out.
    pub(crate) fn into_lines(self) -> Vec<RequestLine>
        ensures { result.items ≡ lines.lines_of self }
    {
        let Self { lines, .. } = self;
        lines
    }

    /// Takes note of a message that used up its number.
    pub(crate) fn came(&mut self)
        requires { self.old.used + 1 < 2 ^ 63 }
        ensures { self.new ≡ record self.old { used = self.old.used + 1 } }
    {
        self.used += 1;
    }

    /// Takes note of a message that used up its number, and of the request that it asks. After an
    /// error the index is as before.
    pub(crate) fn ask(&mut self, request: AcceptedRequest) -> Result<(), Memory>
        requires fits { FitsBook self.old request }
        requires used { self.old.used + 1 < 2 ^ 63 }
        ensures ok { OnOk result (self.new
            ≡ book_after (record self.old { used = self.old.used + 1 }) (facts.Asked request)) }
        ensures err { OnErr result (self.new ≡ self.old) }
    {
        self.rows.reserve(1)?;
        self.lines.reserve(1)?;
        self.by_id.insert(request.id.copy(), request.number)?;
        self.used += 1;
        self.open_count += 1;
        let line = line_of(&request);
        self.lines.push(line)?;
        self.rows.push(RequestRow {
            request,
            close: None,
            standing: Vec::new(self.alloc),
        })?;
        Ok(())
    }

    /// Takes note of a quote that the investor is shown, in the place of the one with this number
    /// where there is one. After an error the index is as before.
    pub(crate) fn show(&mut self, replaced: Option<u64>, shown: ShownOffer) -> Result<(), Memory>
        requires { FitsOffer self.old shown }
        ensures ok { OnOk result (self.new
            ≡ book_with self.old (gone_of shown.request replaced ++ facts.Offered shown ∷ [])) }
        ensures err { OnErr result (self.new ≡ self.old) }
    {
        self.offers.reserve(1)?;
        let place = shown.request as usize - 1;
        self.rows[place].show(replaced, shown_again(&shown))?;
        self.offers.push(shown)?;
        Ok(())
    }

    /// Takes note that on a request a quote is gone.
    pub(crate) fn take_out(&mut self, request: u32, quote: u64)
        requires { IsAccepted (facts.requests_accepted self.old) request }
        ensures { self.new ≡ book_after self.old (facts.Gone request quote) }
    {
        let place = request as usize - 1;
        take_out(&mut self.rows[place].standing, quote);
    }

    /// Takes note that a request is closed. Only how it was closed first counts.
    pub(crate) fn close(&mut self, request: u32, close: RequestClose)
        requires { IsAccepted (facts.requests_accepted self.old) request }
        ensures { self.new ≡ book_after self.old (facts.Closed request close) }
    {
        let place = request as usize - 1;
        if self.rows[place].close.is_some() {
            return;
        }
        self.lines[place].state = state_at_close(&close);
        self.rows[place].close = Some(close);
        self.open_count -= 1;
    }
}

/// The line of a request that was just accepted.
fn line_of(request: &AcceptedRequest) -> RequestLine
    ensures { result ≡ lines.line_of (facts.standing_request request.now []) }
{
    RequestLine {
        n: request.number,
        moment: request.moment,
        trader: request.trader.copy(),
        bond: request.ask.bond,
        side: request.ask.side,
        quantity: request.ask.quantity,
        state: RequestState::Open,
    }
}

/// What became of a request that was closed so.
fn state_at_close(close: &RequestClose) -> RequestState
    ensures { result ≡ lines.state_at_close close.now }
{
    match close {
        RequestClose::Awarded { dealer, price, .. } => RequestState::Won {
            dealer: dealer.copy(),
            price: *price,
        },
        RequestClose::Passed => RequestState::Passed,
        RequestClose::Expired => RequestState::Expired,
    }
}

/// A quote that was shown, once more.
fn shown_again(shown: &ShownOffer) -> ShownOffer
    ensures { result ≡ shown.now }
{
    ShownOffer {
        number: shown.number,
        request: shown.request,
        offer: copy_of(&shown.offer),
    }
}

/// A quote once more.
pub(crate) fn copy_of(offer: &Offer) -> Offer
    ensures { result ≡ offer.now }
{
    Offer {
        dealer: offer.dealer.copy(),
        word: offer.word,
        price: offer.price,
        valid_until: offer.valid_until,
    }
}

/// The number of which a QuoteID (117) is the name: `Q` and its digits, without leading zeros.
fn number_named(name: &[u8]) -> Option<u64>
    ensures known { IfSome result (λ number. same_text (quote_name number) name.now ≡ true) }
    ensures unknown { (number : ℕ) → number < 2 ^ 64 → quote_name number ≡ name.now
        → result ≡ Some number }
{
    let number = number_behind(name)?;
    if !is_quote_name(name, number) {
        return None;
    }
    Some(number)
}

/// The number that stands behind the first character of a QuoteID (117), however it is spelled.
fn number_behind(name: &[u8]) -> Option<u64>
    ensures { (number : ℕ) → number < 2 ^ 64 → quote_name number ≡ name.now → result ≡ Some number }
{
    let (_, digits) = name.split_first()?;
    let text = str::from_utf8(digits).ok()?;
    text.parse().ok()
}

/// Whether a QuoteID (117) is `Q` and this number.
fn is_quote_name(name: &[u8], number: u64) -> bool
    ensures { result ≡ same_text (quote_name number) name.now }
{
    let mut buffer = Buffer::new();
    let digits = buffer.format(number).as_bytes();
    let Some((first, rest)) = name.split_first() else {
        return false;
    };
    if *first != b'Q' {
        return false;
    }
    digits == rest
}
