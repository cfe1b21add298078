//! What was due to an investor by the events at its desk.
ghost use Rattle.std.specs.Prelude.{◌≡◌, IfOk, OnOk};
ghost use Rattle.investor_desk.specs.InvestorDesk.{book_at, market_for, with_event};
ghost use Rattle.investor_views.specs.InvestorDues as spec;

use crate::InvestorDue;
use fix_fields::{Memory, Moment};
use investor_desk::{InvestorDesk, InvestorEvent, KeptResponse};
use market_terms::{Offer, Reply, ResponseRef};
use quote_messages::Message;
use std::alloc::Global;
use venue_rows::VenueConfig;

/// What was due to the investor with this number by the events at its desk, in their order. The
/// events happen once more, at a desk that knows under which number each quote was shown. A number
/// that no investor has is refused, as memory is.
pub(crate) fn dues_by_events(
    alloc: Global,
    config: &VenueConfig,
    investor: u16,
    events: &[InvestorEvent],
) -> Result<Vec<InvestorDue>, Memory>
    ensures { IfOk result (λ dues. dues.items
        ≡ spec.dues_where (market_for config.now investor) events.now) }
{
    let Some(_) = config.investor(investor) else {
        return Err(Memory);
    };
    let mut desk = InvestorDesk::new(alloc, config, investor)?;
    let dues = dues_at(alloc, &mut desk, events)?;
    Ok(dues)
}

/// What is due by events that happen at a desk.
fn dues_at(
    alloc: Global,
    desk: &mut InvestorDesk,
    events: &[InvestorEvent],
) -> Result<Vec<InvestorDue>, Memory>
    ensures { IfOk result (λ dues. dues.items ≡ spec.event_dues_from desk.old events.now) }
{
    let mut dues = Vec::new(alloc);
    for event in events {
        let due = due_by(alloc, desk, event)?;
        dues.push(due)?;
        happen(desk, event)?;
    }
    Ok(dues)
}

/// What is due by an event at a desk, before it happens there.
#[tactic(auto, unfolding(investor_views::specs::InvestorDues::due_by))]
fn due_by(alloc: Global, desk: &InvestorDesk, event: &InvestorEvent) -> Result<InvestorDue, Memory>
    ensures { IfOk result (λ due. due ≡ spec.due_by (book_at desk.now) event.now) }
{
    match event {
        InvestorEvent::Received { moment, message } => {
            let message = Message::copy_of(alloc, message.as_bytes())?;
            Ok(InvestorDue::Own(*moment, message))
        }
        InvestorEvent::QuoteCame {
            request,
            offer,
            moment,
        } => Ok(offered(*request, offer, *moment)),
        InvestorEvent::QuoteGone {
            request,
            word,
            moment,
        } => Ok(taken_back(desk, *request, *word, *moment)),
        InvestorEvent::DealerDeclined {
            request,
            dealer,
            moment,
        } => Ok(InvestorDue::Declined(*request, dealer.copy(), *moment)),
        InvestorEvent::Answered {
            request,
            response,
            reply,
            moment,
        } => Ok(answered(*request, response, *reply, *moment)),
        InvestorEvent::Closed { request, moment } => Ok(InvestorDue::Expired(*request, *moment)),
    }
}

/// A quote comes.
fn offered(request: u32, offer: &Offer, moment: Moment) -> InvestorDue
    ensures { result ≡ spec.due_by_offer request offer.now moment }
{
    InvestorDue::Offered(
        request,
        offer.dealer.copy(),
        offer.price,
        offer.valid_until,
        moment,
    )
}

/// A quote is taken back, under the number with which it was shown: 0 where it stands on no open
/// request.
fn taken_back(desk: &InvestorDesk, request: u32, word: u32, moment: Moment) -> InvestorDue
    ensures { result ≡ InvestorDue.Gone request
        (spec.number_of (spec.quote_meant (book_at desk.now) request word)) moment }
{
    let Some(number) = desk.quote_with_word(request, word) else {
        return InvestorDue::Gone(request, 0, moment);
    };
    InvestorDue::Gone(request, number, moment)
}

/// A hit or a pass is answered.
fn answered(request: u32, kept: &KeptResponse, reply: Reply, moment: Moment) -> InvestorDue
    ensures { result ≡ InvestorDue.Answered request kept.now reply moment }
{
    let response = kept.response();
    let response = ResponseRef {
        id: response.id.copy(),
        k: response.k,
    };
    InvestorDue::Answered(request, response, reply, moment)
}

/// An event happens at a desk.
fn happen(desk: &mut InvestorDesk, event: &InvestorEvent) -> Result<(), Memory>
    ensures { OnOk result (desk.new ≡ with_event desk.old event.now) }
{
    match event {
        InvestorEvent::Received { moment, message } => {
            desk.take(*moment, message.as_bytes())?;
            Ok(())
        }
        InvestorEvent::QuoteCame {
            request,
            offer,
            moment,
        } => desk.quote_came(*request, offer, *moment),
        InvestorEvent::QuoteGone {
            request,
            word,
            moment,
        } => desk.quote_gone(*request, *word, *moment),
        InvestorEvent::DealerDeclined {
            request,
            dealer,
            moment,
        } => desk.dealer_declined(*request, dealer.copy(), *moment),
        InvestorEvent::Answered {
            request,
            response,
            reply,
            moment,
        } => desk.answered(*request, response.response(), *reply, *moment),
        InvestorEvent::Closed { request, moment } => desk.closed(*request, *moment),
    }
}
