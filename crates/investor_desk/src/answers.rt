//! What each event at a desk leads to, and how it is noted.
ghost use Rattle.std.specs.Prelude.{◌≡◌, ◌<◌, ◌+◌, ◌^◌, OnOk, OnErr};
ghost use Rattle.std.specs.Option.{option_map};
ghost use Rattle.investor_desk.specs.InvestorFacts as facts;
ghost use Rattle.investor_desk.specs.InvestorOutput as spec;
ghost use Rattle.investor_desk.specs.BookChanges.{book_with};
ghost use Rattle.investor_desk.specs.RuleCuts.{IsLawful, noted, messages_of};
ghost use Rattle.investor_desk.specs.InvestorTable.{request_in};

use crate::index::{InvestorIndex, RequestRow, copy_of};
use crate::market::Market;
use crate::outcomes::{Note, Outcome, sends};
use crate::{InvestorNote, InvestorVerdict, RequestClose, ShownOffer};
use fix_fields::{Memory, Moment};
use market_terms::{Duty, HitRefusal, Id, Offer, Reply, ResponseRef, RoomRef};
use quote_messages::{OfferedQuote, OutMessage, PassStatus};
use venue_rows::Name;

/// What a verdict leaves to be done.
pub(crate) fn duty_of(market: &Market, moment: Moment, verdict: &InvestorVerdict) -> Option<Duty>
    ensures { result ≡ spec.verdict_duty market.now moment verdict.now }
{
    match verdict {
        InvestorVerdict::RequestAccepted { request, .. } => Some(Duty::Open {
            room: room_of(market, request.number),
            ask: request.ask.copy(),
            dealers: request.dealers.copy(),
            moment,
        }),
        InvestorVerdict::Hits {
            request,
            response,
            word,
        } => Some(Duty::Hit {
            room: room_of(market, *request),
            response: response_again(response),
            word: *word,
            moment,
        }),
        InvestorVerdict::Passes { request, response } => Some(Duty::Pass {
            room: room_of(market, *request),
            response: response_again(response),
            moment,
        }),
        _ => None,
    }
}

/// The room of a request of the investor.
fn room_of(market: &Market, request: u32) -> RoomRef
    ensures { result ≡ spec.room_of market.now request }
{
    RoomRef {
        investor: market.firm,
        n: request,
    }
}

/// A response once more.
pub(crate) fn response_again(response: &ResponseRef) -> ResponseRef
    ensures { result ≡ response.now }
{
    ResponseRef {
        id: response.id.copy(),
        k: response.k,
    }
}

/// What is noted beside the message that answers a verdict.
pub(crate) fn verdict_note(verdict: &InvestorVerdict) -> Option<InvestorNote>
    ensures { result ≡ spec.verdict_note verdict.now }
{
    match verdict {
        InvestorVerdict::RequestRefused { refusal, .. } => Some(InvestorNote::Refused(*refusal)),
        _ => None,
    }
}

/// What a quote that came for a request leads to.
pub(crate) fn offer_outcome<'a>(index: &'a InvestorIndex, number: u32, offer: &Offer) -> Outcome<'a>
    ensures lawful { IsLawful index.now result.note }
    ensures facts { noted index.now result.note
        ≡ book_with index.now (spec.offer_facts index.now number offer.now
        (facts.open_request index.now number)) }
    ensures messages { messages_of result
        ≡ spec.offer_messages index.now number offer.now (facts.open_request index.now number) }
{
    let Some(row) = index.open_request(number) else {
        return sends(Note::Nothing, None);
    };
    let shown = next_offer(index, number, offer);
    let replaced = row.number_of_dealer(&offer.dealer);
    Outcome {
        gone: gone_message(row, replaced),
        message: Some(offer_message(row, &shown)),
        note: Note::Shown(replaced, shown),
    }
}

/// The quote that is shown next.
fn next_offer(index: &InvestorIndex, number: u32, offer: &Offer) -> ShownOffer
    ensures { result ≡ spec.next_offer index.now number offer.now }
{
    ShownOffer {
        number: index.offers_shown() + 1,
        request: number,
        offer: copy_of(offer),
    }
}

/// The report that a quote is gone, where there is one.
fn gone_message(row: &RequestRow, quote: Option<u64>) -> Option<OutMessage<'_>>
    ensures { result ≡ option_map (λ quote. OutMessage.QuoteGone row.now.request.id quote) quote }
{
    let quote = quote?;
    Some(OutMessage::QuoteGone {
        request: row.request.id.as_id(),
        quote,
    })
}

/// A quote as the investor is shown it.
fn offer_message<'a>(row: &'a RequestRow, shown: &ShownOffer) -> OutMessage<'a>
    ensures { result ≡ spec.offer_message (request_in row.now) shown.now }
{
    let offer = &shown.offer;
    OutMessage::OfferedQuote(OfferedQuote {
        request: row.request.id.as_id(),
        number: shown.number,
        bond: row.request.ask.bond,
        side: row.request.ask.side,
        price: offer.price,
        quantity: row.request.ask.quantity,
        valid_until: offer.valid_until,
        dealer: offer.dealer.copy(),
    })
}

/// What a quote that is gone from a request leads to.
pub(crate) fn withdrawal_outcome(index: &InvestorIndex, number: u32, word: u32) -> Outcome<'_>
    ensures lawful { IsLawful index.now result.note }
    ensures facts { noted index.now result.note
        ≡ book_with index.now (spec.withdrawal_facts number word
        (facts.open_request index.now number)) }
    ensures messages { messages_of result
        ≡ spec.withdrawal_messages word (facts.open_request index.now number) }
{
    let Some(row) = index.open_request(number) else {
        return sends(Note::Nothing, None);
    };
    let Some(quote) = row.number_with_word(word) else {
        return sends(Note::Nothing, None);
    };
    sends(Note::Gone(number, quote), gone_message(row, Some(quote)))
}

/// What a dealer that declined a request leads to.
pub(crate) fn decline_outcome<'a>(
    index: &'a InvestorIndex,
    number: u32,
    dealer: &Name,
) -> Outcome<'a>
    ensures lawful { IsLawful index.now result.note }
    ensures facts { noted index.now result.note ≡ index.now }
    ensures messages { messages_of result
        ≡ spec.decline_messages dealer.now (facts.open_request index.now number) }
{
    let Some(row) = index.open_request(number) else {
        return sends(Note::Nothing, None);
    };
    sends(
        Note::Nothing,
        Some(OutMessage::DealerDeclined {
            request: row.request.id.as_id(),
            dealer: dealer.copy(),
        }),
    )
}

/// What the reply to a response leads to.
pub(crate) fn answer_outcome<'a>(
    index: &'a InvestorIndex,
    number: u32,
    response: &'a ResponseRef,
    reply: Reply,
) -> Outcome<'a>
    ensures lawful { IsLawful index.now result.note }
    ensures facts { noted index.now result.note
        ≡ book_with index.now (spec.answer_facts index.now number response.now reply
        (facts.request_numbered index.now number)) }
    ensures messages { messages_of result
        ≡ spec.answer_messages response.now reply (facts.request_numbered index.now number) }
{
    let Some(row) = index.request_numbered(number) else {
        return sends(Note::Nothing, None);
    };
    let refusal = refusal_of(reply);
    let message = response_message(row, response, refusal);
    let Some(close) = close_by_answer(index, response, refusal) else {
        return sends(Note::Nothing, Some(message));
    };
    sends(Note::Closed(number, close), Some(message))
}

/// Why a response is refused, where it is.
fn refusal_of(reply: Reply) -> Option<HitRefusal>
    ensures { result ≡ spec.refusal_of reply }
{
    match reply {
        Reply::Awarded => None,
        Reply::Passed => None,
        Reply::Refused(refusal) => Some(refusal),
    }
}

/// The message of the reply to a hit or a pass.
fn response_message<'a>(
    row: &'a RequestRow,
    response: &'a ResponseRef,
    refusal: Option<HitRefusal>,
) -> OutMessage<'a>
    ensures { result ≡ spec.response_message
        (request_in row.now) response.now.id response.now.k refusal }
{
    let Some(quote) = response.k else {
        return OutMessage::PassReport {
            id: response.id.as_id(),
            request: row.request.id.as_id(),
            status: pass_status(refusal),
        };
    };
    OutMessage::HitReport {
        id: response.id.as_id(),
        request: row.request.id.as_id(),
        quote,
        refusal,
    }
}

/// The status of a pass.
fn pass_status(refusal: Option<HitRefusal>) -> PassStatus
    ensures { result ≡ spec.pass_status refusal }
{
    match refusal {
        Some(_) => PassStatus::NotOpen,
        None => PassStatus::Passed,
    }
}

/// How the reply to a response closes its request, where it does.
fn close_by_answer(
    index: &InvestorIndex,
    response: &ResponseRef,
    refusal: Option<HitRefusal>,
) -> Option<RequestClose>
    ensures { result ≡ spec.close_by_answer index.now response.now refusal }
{
    if refusal.is_some() {
        return None;
    }
    let Some(quote) = response.k else {
        return Some(RequestClose::Passed);
    };
    let shown = index.offer_numbered(quote)?;
    Some(RequestClose::Awarded {
        quote: shown.number,
        dealer: shown.offer.dealer.copy(),
        price: shown.offer.price,
    })
}

/// What is noted beside the reply to a response.
pub(crate) fn answer_note(
    index: &InvestorIndex,
    number: u32,
    response: &ResponseRef,
    reply: Reply,
) -> Option<InvestorNote>
    ensures { result ≡ spec.answer_note index.now response.now reply
        (facts.request_numbered index.now number) }
{
    if index.request_numbered(number).is_none() {
        return None;
    }
    match close_by_answer(index, response, refusal_of(reply)) {
        Some(RequestClose::Awarded { dealer, .. }) => Some(InvestorNote::Trade { dealer }),
        Some(RequestClose::Passed) => None,
        Some(RequestClose::Expired) => None,
        None => None,
    }
}

/// What the expiry of a request leads to.
pub(crate) fn expiry_outcome(index: &InvestorIndex, number: u32) -> Outcome<'_>
    ensures lawful { IsLawful index.now result.note }
    ensures facts { noted index.now result.note
        ≡ book_with index.now (spec.expiry_facts number (facts.request_numbered index.now number)) }
    ensures messages { messages_of result
        ≡ spec.expiry_messages (facts.request_numbered index.now number) }
{
    let Some(row) = index.request_numbered(number) else {
        return sends(Note::Nothing, None);
    };
    sends(
        Note::Closed(number, RequestClose::Expired),
        Some(OutMessage::RequestExpired {
            request: row.request.id.as_id(),
        }),
    )
}

/// Notes what an event leads to. After an error the index is as before.
pub(crate) fn take_note(index: &mut InvestorIndex, note: Note) -> Result<(), Memory>
    requires lawful { IsLawful index.old note }
    requires fits { index.old.used + 1 < 2 ^ 63 }
    ensures ok { OnOk result (index.new ≡ noted index.old note) }
    ensures err { OnErr result (index.new ≡ index.old) }
{
    match note {
        Note::Nothing => Ok(()),
        Note::Number => {
            index.came();
            Ok(())
        }
        Note::Asked(request) => {
            index.ask(request)?;
            Ok(())
        }
        Note::Shown(replaced, shown) => {
            index.show(replaced, shown)?;
            Ok(())
        }
        Note::Gone(request, quote) => {
            index.take_out(request, quote);
            Ok(())
        }
        Note::Closed(request, close) => {
            index.close(request, close);
            Ok(())
        }
    }
}
