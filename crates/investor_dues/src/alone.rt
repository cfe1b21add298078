//! Every message that an investor is sent for what is due to it.
ghost use Rattle.std.specs.Prelude.{◌≡◌, ◌+◌, IfOk, OnOk};
ghost use Rattle.investor_desk.specs.InvestorFacts.{offers_shown};
ghost use Rattle.investor_desk.specs.InvestorDesk.{book_at, no_events};
ghost use Rattle.investor_views.specs.NoteView.{note_view};
ghost use Rattle.investor_views.specs.InvestorView as spec;

use crate::{InvestorDue, InvestorSeen};
use bond_prices::Ticks;
use fix_fields::{Memory, Moment};
use investor_desk::{InvestorDesk, InvestorNote};
use market_terms::{Offer, Reply, ResponseRef};
use quote_messages::SentMessage;
use std::alloc::Global;
use venue_rows::Name;
use venue_steps::{ForInvestor, bring_to_investor};

/// Every message that an investor is sent on a day, for what it sees of the venue and what is due
/// to it, and nothing else. An item about a request that was not accepted, or an answer that fits
/// no response, has no effect. It fails for memory alone; a list that shows 2^32 quotes, or names a
/// quote past them, counts as that.
pub fn alone_investor(
    alloc: Global,
    seen: &InvestorSeen,
    dues: &[InvestorDue],
) -> Result<Vec<SentMessage>, Memory>
    ensures { IfOk result (λ messages. messages.items ≡ spec.investor_view seen.now dues.now) }
{
    let (messages, _) = alone_investor_output(alloc, seen, dues)?;
    Ok(messages)
}

/// The messages that [`alone_investor`] gives, and beside each what the investor's desk notes of it:
/// why a request is refused, or whom the investor traded with. It fails for memory alone.
pub fn alone_investor_output(
    alloc: Global,
    seen: &InvestorSeen,
    dues: &[InvestorDue],
) -> Result<(Vec<SentMessage>, Vec<Option<InvestorNote>>), Memory>
    ensures messages { IfOk result (λ output.
        output.0.items ≡ spec.investor_view seen.now dues.now) }
    ensures notes { IfOk result (λ output.
        output.1.items ≡ note_view seen.now dues.now) }
{
    let mut desk = desk_of(alloc, seen)?;
    for due in dues {
        happen(&mut desk, due)?;
    }
    Ok(desk.into_output())
}

/// The desk at the start of the day.
fn desk_of(alloc: Global, seen: &InvestorSeen) -> Result<InvestorDesk, Memory>
    ensures { IfOk result (λ desk. desk ≡ no_events (spec.market_seen seen.now)) }
{
    let bonds = seen.bonds().to_vec(alloc)?;
    let dealers = names_again(alloc, seen.dealers())?;
    let desk = InvestorDesk::of_seen(alloc, *seen.date(), seen.row().copy(), bonds, dealers);
    Ok(desk)
}

/// Names once more.
fn names_again(alloc: Global, names: &[Name]) -> Result<Vec<Name>, Memory>
    ensures { IfOk result (λ again. again.items ≡ names.now) }
{
    let mut again = Vec::with_capacity(alloc, names.len())?;
    for name in names {
        again.push(name.copy())?;
    }
    Ok(again)
}

/// Lets an item happen at the desk.
#[tactic(auto, unfolding(investor_views::specs::InvestorView::after_due, investor_views::specs::InvestorView::event_by, venue_steps::specs::Brought::investor_with))]
fn happen(desk: &mut InvestorDesk, due: &InvestorDue) -> Result<(), Memory>
    ensures { OnOk result (desk.new ≡ spec.after_due desk.old due.now) }
{
    match due {
        InvestorDue::Own(moment, message) => {
            desk.take(*moment, message.as_bytes())?;
            Ok(())
        }
        InvestorDue::Offered(request, dealer, price, valid_until, moment) => {
            show(desk, *moment, *request, dealer, *price, *valid_until)?;
            Ok(())
        }
        InvestorDue::Gone(request, quote, moment) => {
            take_back(desk, *moment, *request, *quote)?;
            Ok(())
        }
        InvestorDue::Declined(request, dealer, moment) => {
            decline(desk, *moment, *request, dealer)?;
            Ok(())
        }
        InvestorDue::Answered(request, response, reply, moment) => {
            answer(desk, *moment, *request, response, *reply)?;
            Ok(())
        }
        InvestorDue::Expired(request, moment) => {
            expire(desk, *moment, *request)?;
            Ok(())
        }
    }
}

/// A quote comes, whose word is the number under which it is shown.
#[tactic(auto, unfolding(investor_views::specs::InvestorView::after_due, investor_views::specs::InvestorView::event_by, venue_steps::specs::Brought::investor_with))]
fn show(
    desk: &mut InvestorDesk,
    moment: Moment,
    request: u32,
    dealer: &Name,
    price: Ticks,
    valid_until: Option<Moment>,
) -> Result<(), Memory>
    ensures { OnOk result (desk.new ≡ spec.after_due desk.old
        (InvestorDue.Offered request dealer.now price valid_until moment)) }
{
    let word = next_word(desk)?;
    let offer = Offer {
        dealer: dealer.copy(),
        word,
        price,
        valid_until,
    };
    bring_to_investor(desk, ForInvestor::Relay(request, offer, moment))?;
    Ok(())
}

/// The number under which the next quote is shown.
fn next_word(desk: &InvestorDesk) -> Result<u32, Memory>
    ensures { IfOk result (λ word. word ≡ offers_shown (book_at desk.now) + 1) }
{
    let shown = desk.quotes_shown();
    if shown >= 4_294_967_295 {
        return Err(Memory);
    }
    Ok(shown as u32 + 1)
}

/// A quote is taken back.
#[tactic(auto, unfolding(investor_views::specs::InvestorView::after_due, investor_views::specs::InvestorView::event_by, venue_steps::specs::Brought::investor_with))]
fn take_back(
    desk: &mut InvestorDesk,
    moment: Moment,
    request: u32,
    quote: u64,
) -> Result<(), Memory>
    ensures { OnOk result (desk.new ≡ spec.after_due desk.old
        (InvestorDue.Gone request quote moment)) }
{
    if quote > 4_294_967_295 {
        return Err(Memory);
    }
    bring_to_investor(desk, ForInvestor::Gone(request, quote as u32, moment))?;
    Ok(())
}

/// A dealer declines.
#[tactic(auto, unfolding(investor_views::specs::InvestorView::after_due, investor_views::specs::InvestorView::event_by, venue_steps::specs::Brought::investor_with))]
fn decline(
    desk: &mut InvestorDesk,
    moment: Moment,
    request: u32,
    dealer: &Name,
) -> Result<(), Memory>
    ensures { OnOk result (desk.new ≡ spec.after_due desk.old
        (InvestorDue.Declined request dealer.now moment)) }
{
    let what = ForInvestor::Declined(request, dealer.copy(), moment);
    bring_to_investor(desk, what)?;
    Ok(())
}

/// A hit or a pass is answered.
#[tactic(auto, unfolding(investor_views::specs::InvestorView::after_due, investor_views::specs::InvestorView::event_by, venue_steps::specs::Brought::investor_with))]
fn answer(
    desk: &mut InvestorDesk,
    moment: Moment,
    request: u32,
    response: &ResponseRef,
    reply: Reply,
) -> Result<(), Memory>
    ensures { OnOk result (desk.new ≡ spec.after_due desk.old
        (InvestorDue.Answered request response.now reply moment)) }
{
    let response = ResponseRef {
        id: response.id.copy(),
        k: response.k,
    };
    let what = ForInvestor::Answer(request, response, reply, moment);
    bring_to_investor(desk, what)?;
    Ok(())
}

/// A request expires.
#[tactic(auto, unfolding(investor_views::specs::InvestorView::after_due, investor_views::specs::InvestorView::event_by, venue_steps::specs::Brought::investor_with))]
fn expire(desk: &mut InvestorDesk, moment: Moment, request: u32) -> Result<(), Memory>
    ensures { OnOk result (desk.new ≡ spec.after_due desk.old
        (InvestorDue.Expired request moment)) }
{
    bring_to_investor(desk, ForInvestor::Close(request, moment))?;
    Ok(())
}
