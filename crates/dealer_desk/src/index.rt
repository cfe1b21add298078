//! What a desk keeps of its day: the book, found again without a walk. It holds no events.
ghost use Rattle.std.specs.Prelude.{◌≡◌, ◌+◌, ◌≤◌, ◌<◌, ◌^◌, [], ℕ, List, true, option_map, Some};
ghost use Rattle.std.specs.Prelude.{None, IfSome, OnOk, OnErr, if◌then◌else◌};
ghost use Rattle.venue_rows.specs.Texts.{same_text};
ghost use Rattle.venue_rows.specs.declared.dealer_rows.TheConstants.DealerRow.{MOST_EXPOSURE};
ghost use Rattle.quote_messages.specs.Written.{request_name};
ghost use Rattle.market_terms.specs.declared.rooms.RoomRef.{RoomRef};
ghost use Rattle.dealer_desk.specs.DealerFacts as facts;
ghost use Rattle.dealer_desk.specs.DealerOutput as output;
ghost use Rattle.dealer_desk.specs.QuoteLines.{lines_of};
ghost use Rattle.dealer_desk.specs.BookChanges.{IsLiveNumber, FitsBook};
ghost use Rattle.dealer_desk.specs.DealerTable.{with_fact, with_request, room_cmp};
ghost use Rattle.std.specs.BTreeMap.{get};
ghost use Rattle.std.specs.Option.{option_or};
ghost use Rattle.dealer_desk.specs.declared.standing.Withdrawal.TheVariants as by;

use crate::id_keys::IdKey;
use crate::table::{RequestRow, Table};
use crate::{AcceptedQuote, QuoteEnd, StandingQuote, Withdrawal};
use fix_fields::Memory;
use itoa::Buffer;
use market_terms::{Ask, Close, Id, IdBuf, QuoteLine, RoomRef};
use std::alloc::Global;
use std::collections::BTreeMap;
use std::marker::Model;
use std::str;

/// The book of a desk and the rooms of its requests, with an ordered map from QuoteIDs to quotes
/// and one from rooms to requests, a row for each request with the live quote on it, and the
/// exposure, the lines of the blotter and the first droppable quote as they run. A contract sees
/// the book and the rooms.
#[derive(Drop)]
pub(crate) struct DealerIndex {
    used: u64,
    notices: u64,
    table: Table,
    rooms: Vec<RoomRef>,
    by_id: BTreeMap<IdKey, u32>,
    by_room: BTreeMap<RoomRef, u64>,
}

impl Model for DealerIndex {
    ghost use Rattle.std.specs.Prelude.{map};
    ghost use Rattle.dealer_desk.specs.DealerTable.{IndexView, IsIndex};

    ghost Value = { IndexView };

    ghost view = { λ index. record {
      book = record {
        used = index.used;
        notices = index.notices;
        requests = map (λ row. row.request) index.table.rows.items;
        quotes = index.table.quotes.items;
      };
      rooms = index.rooms.items;
    } };

    ghost invariant = { λ index. IsIndex index.used index.notices index.table.rows.items
        index.table.quotes.items index.table.lines.items index.table.exposure
        index.table.first_droppable index.rooms.items index.by_id index.by_room };
}

impl DealerIndex {
    /// The index at the start of the day. It takes no memory.
    pub(crate) fn new(alloc: Global) -> Self
        ensures { result ≡ record { book = facts.book_of []; rooms = [] } }
    {
        DealerIndex {
            used: 0,
            notices: 0,
            table: Table::new(alloc),
            rooms: Vec::new(alloc),
            by_id: BTreeMap::new(alloc),
            by_room: BTreeMap::new(alloc),
        }
    }

    /// The MsgSeqNum (34) that is expected next.
    pub(crate) fn expected_number(&self) -> u64
        ensures { result ≡ facts.expected_number self.now.book }
    {
        self.used + 1
    }

    /// How many closing notices were sent.
    pub(crate) fn notices(&self) -> u64
        ensures value { result ≡ self.now.book.notices }
        ensures fits { result < 2 ^ 63 }
    {
        self.notices
    }

    /// How many requests were shown.
    pub(crate) fn requests_shown(&self) -> u64
        ensures value { result ≡ facts.requests_shown self.now.book }
        ensures fits { result < 2 ^ 63 }
    {
        self.table.rows.len() as u64
    }

    /// How many quotes were accepted.
    pub(crate) fn quotes_accepted(&self) -> u32
        ensures { result ≡ facts.quotes_accepted self.now.book }
    {
        self.table.quotes.len() as u32
    }

    /// The request with this number.
    pub(crate) fn request_numbered(&self, number: u64) -> Option<&RequestRow>
        ensures request { option_map (λ row. row.now.request) result
            ≡ facts.request_numbered self.now.book number }
        ensures live { IfSome result (λ row.
            row.now.live ≡ facts.live_number_on self.now.book row.now.request.number) }
        ensures lifted { IfSome result (λ row.
            row.now.has_lifted ≡ facts.has_lifted_quote self.now.book row.now.request.number) }
    {
        if number < 1 || number > self.table.rows.len() as u64 {
            return None;
        }
        Some(&self.table.rows[number as usize - 1])
    }

    /// The request that a QuoteReqID (131) names.
    pub(crate) fn request_named(&self, name: &[u8]) -> Option<&RequestRow>
        ensures request { option_map (λ row. row.now.request) result
            ≡ facts.request_named self.now.book name.now }
        ensures live { IfSome result (λ row.
            row.now.live ≡ facts.live_number_on self.now.book row.now.request.number) }
        ensures lifted { IfSome result (λ row.
            row.now.has_lifted ≡ facts.has_lifted_quote self.now.book row.now.request.number) }
    {
        let shown = self.table.rows.len() as u64;
        let number = number_named(name)?;
        if number < 1 || number > shown {
            return None;
        }
        Some(&self.table.rows[number as usize - 1])
    }

    /// The quote with this own number.
    fn quote_numbered(&self, number: u32) -> Option<&StandingQuote>
        ensures { option_map (λ own. own.now) result ≡ facts.quote_numbered self.now.book number }
    {
        if number < 1 || number as usize > self.table.quotes.len() {
            return None;
        }
        Some(&self.table.quotes[number as usize - 1])
    }

    /// The accepted quote with this QuoteID (117).
    pub(crate) fn quote_with_id(&self, id: &Id) -> Option<&StandingQuote>
        ensures { option_map (λ own. own.now) result ≡ facts.quote_with_id self.now.book id.now }
    {
        let number = *self.by_id.get(&IdKey::of_id(IdBuf::of(id)))?;
        let own = self.quote_numbered(number)?;
        Some(own)
    }

    /// The dealer's live quote on the request of this number.
    pub(crate) fn live_quote_on(&self, request: u64) -> Option<&StandingQuote>
        ensures { option_map (λ own. own.now) result ≡ facts.live_quote_on self.now.book request }
    {
        let quotes = self.table.quotes.as_slice();
        let row = self.request_numbered(request)?;
        let number = row.live?;
        Some(&quotes[number as usize - 1])
    }

    /// The quote that a drop of the quotes up to this own number takes.
    pub(crate) fn quote_to_drop(&self, last: u32) -> Option<&StandingQuote>
        ensures { option_map (λ own. own.now) result ≡ facts.quote_to_drop self.now.book last }
    {
        let own = self.table.quotes.get(self.table.first_droppable)?;
        if own.quote.number > last {
            return None;
        }
        Some(own)
    }

    /// The sum of the quantities of the live quotes.
    pub(crate) fn exposure(&self) -> u64
        ensures value { result ≡ facts.exposure_of self.now.book }
        ensures fits { result ≤ MOST_EXPOSURE }
    {
        self.table.exposure
    }

    /// The same beside a quote that is to be replaced, where there is one.
    pub(crate) fn exposure_beside(&self, replaced: Option<u32>) -> u64
        ensures value { result ≡ facts.exposure_beside self.now.book replaced }
        ensures fits { result ≤ MOST_EXPOSURE }
    {
        let Some(number) = replaced else {
            return self.table.exposure;
        };
        let Some(own) = self.quote_numbered(number) else {
            return self.table.exposure;
        };
        if own.end.is_some() {
            return self.table.exposure;
        }
        self.table.exposure - own.quote.quantity.get()
    }

    /// The number of the request that was shown in a room.
    pub(crate) fn number_in(&self, room: RoomRef) -> Option<u64>
        ensures { result ≡ output.number_in self.now.rooms room }
    {
        self.by_room.get(&room).copied()
    }

    /// The room of the request with this number.
    pub(crate) fn room_of(&self, number: u64) -> Option<RoomRef>
        ensures { result ≡ output.room_of self.now.rooms number }
    {
        self.rooms.get(number.saturating_sub(1) as usize).copied()
    }

    /// The lines of the blotter.
    pub(crate) fn lines(&self) -> &[QuoteLine]
        ensures { result.now ≡ lines_of self.now.book }
    {
        self.table.lines.as_slice()
    }

    /// The same lines, taken out.
    pub(crate) fn into_lines(self) -> Vec<QuoteLine>
        ensures { result.items ≡ lines_of self.book }
    {
        let Self { table, .. } = self;
        let Table { lines, .. } = table;
        lines
    }

    /// Takes note of a message that used up its number.
    pub(crate) fn came(&mut self)
        requires { self.old.book.used + 1 < 2 ^ 63 }
        ensures { (moment : ℕ) (bytes : List ℕ)
            → self.new ≡ with_fact self.old (facts.Came moment bytes true) }
    {
        self.used += 1;
    }

    /// Takes note of a request that is shown in a room. After an error the index is as before.
    pub(crate) fn show(&mut self, room: RoomRef, ask: Ask) -> Result<(), Memory>
        ensures ok { OnOk result ((moment : ℕ)
            → self.new ≡ with_request self.old room (facts.Shown ask moment)) }
        ensures err { OnErr result (self.new ≡ self.old) }
    {
        self.table.rows.reserve(1)?;
        self.rooms.reserve(1)?;
        let number = self.table.rows.len() as u64 + 1;
        put_first(&mut self.by_room, room, number)?;
        self.table.push_request(ask)?;
        self.rooms.push(room)?;
        Ok(())
    }

    /// Takes note of an accepted quote on a request without a live one. After an error the index is
    /// as before.
    pub(crate) fn accept(&mut self, quote: AcceptedQuote) -> Result<(), Memory>
        requires { FitsBook self.old.book quote None }
        ensures ok { OnOk result (self.new ≡ with_fact self.old (facts.Quoted quote)) }
        ensures err { OnErr result (self.new ≡ self.old) }
    {
        self.table.quotes.reserve(1)?;
        self.table.lines.reserve(1)?;
        self.by_id
            .insert(IdKey::of_id(quote.id.copy()), quote.number)?;
        self.table.push_quote(quote)?;
        Ok(())
    }

    /// Takes note of an accepted quote in the place of the live one on its request. After an error
    /// the index is as before.
    pub(crate) fn replace(&mut self, replaced: u32, quote: AcceptedQuote) -> Result<(), Memory>
        requires { FitsBook self.old.book quote (Some replaced) }
        ensures ok { OnOk result (self.new ≡ with_fact
            (with_fact self.old (facts.Withdrawn replaced by.Replacement)) (facts.Quoted quote)) }
        ensures err { OnErr result (self.new ≡ self.old) }
    {
        self.table.quotes.reserve(1)?;
        self.table.lines.reserve(1)?;
        self.by_id
            .insert(IdKey::of_id(quote.id.copy()), quote.number)?;
        self.table
            .end_live(replaced, QuoteEnd::Withdrawn(Withdrawal::Replacement));
        self.table.push_quote(quote)?;
        Ok(())
    }

    /// Takes note that a live quote is cancelled.
    pub(crate) fn cancel(&mut self, quote: u32)
        requires { IsLiveNumber self.old.book.quotes quote }
        ensures { self.new ≡ with_fact self.old (facts.Withdrawn quote by.Cancel) }
    {
        self.table
            .end_live(quote, QuoteEnd::Withdrawn(Withdrawal::Cancel));
    }

    /// Takes note that a live quote was found lifted.
    pub(crate) fn find_lifted(&mut self, quote: u32)
        requires { IsLiveNumber self.old.book.quotes quote }
        ensures { self.new ≡ with_fact self.old (facts.Late quote) }
    {
        self.table.find_lifted(quote);
    }

    /// Takes note that a request is declined.
    pub(crate) fn decline(&mut self, request: u64)
        requires from_first { 1 ≤ request }
        requires to_last { request ≤ facts.requests_shown self.old.book }
        ensures { self.new ≡ with_fact self.old (facts.Declined request) }
    {
        self.table.decline(request);
    }

    /// Takes note that the dealer is told how a request ended.
    pub(crate) fn tell(&mut self, request: u64, close: Close)
        requires from_first { 1 ≤ request }
        requires to_last { request ≤ facts.requests_shown self.old.book }
        requires fits { self.old.book.notices + 1 < 2 ^ 63 }
        ensures { (moment : ℕ) → self.new ≡ with_fact self.old (facts.Told request close moment) }
    {
        self.notices += 1;
        self.table.close(request, close);
    }
}

/// Gives a room this number, unless it has one already. After an error the map is as before.
fn put_first(by_room: &mut BTreeMap<RoomRef, u64>, room: RoomRef, number: u64) -> Result<(), Memory>
    ensures ok { OnOk result ((q : RoomRef) → get room_cmp by_room.new q
        ≡ option_or (get room_cmp by_room.old q)
        (if output.is_same_room room q then Some number else None)) }
    ensures err { OnErr result ((q : RoomRef)
        → get room_cmp by_room.new q ≡ get room_cmp by_room.old q) }
{
    if by_room.get(&room).is_some() {
        return Ok(());
    }
    by_room.insert(room, number)?;
    Ok(())
}

/// The number of which a QuoteReqID (131) is the name: `R` and its digits, without leading zeros.
fn number_named(name: &[u8]) -> Option<u64>
    ensures known { IfSome result (λ number. same_text (request_name number) name.now ≡ true) }
    ensures unknown { (number : ℕ) → number < 2 ^ 64 → request_name number ≡ name.now
        → result ≡ Some number }
{
    let number = number_behind(name)?;
    if !is_request_name(name, number) {
        return None;
    }
    Some(number)
}

/// The number that stands behind the first character of a QuoteReqID (131), however it is spelled.
fn number_behind(name: &[u8]) -> Option<u64>
    ensures { (number : ℕ) → number < 2 ^ 64 → request_name number ≡ name.now
        → result ≡ Some number }
{
    let (_, digits) = name.split_first()?;
    let text = str::from_utf8(digits).ok()?;
    text.parse().ok()
}

/// Whether a QuoteReqID (131) is `R` and this number.
fn is_request_name(name: &[u8], number: u64) -> bool
    ensures { result ≡ same_text (request_name number) name.now }
{
    let mut buffer = Buffer::new();
    let digits = buffer.format(number).as_bytes();
    let Some((first, rest)) = name.split_first() else {
        return false;
    };
    if *first != b'R' {
        return false;
    }
    digits == rest
}
