//! The steps at an investor's desk.
ghost use Rattle.std.specs.Prelude.{◌≡◌, ◌&&◌, ◌≤◌, [], length, IfOk, OnOk, OnErr};
ghost use Rattle.investor_desk.specs.InvestorFacts.{knows};
ghost use Rattle.investor_desk.specs.InvestorDesk.{book_at};
ghost use Rattle.venue_steps.specs.InvestorSteps as spec;

use crate::Duties;
use crate::dealers::with_duty;
use fix_fields::{Memory, Moment};
use investor_desk::InvestorDesk;
use market_terms::{HitRefusal, Offer, Reply, ResponseRef};
use venue_rows::Name;

/// A message comes to the desk of its investor. What follows is the opening of an accepted
/// request's room, a hit, a pass, or nothing. It fails for memory alone, and then the desk is as
/// before.
pub fn own_investor(desk: &mut InvestorDesk, moment: Moment, bytes: &[u8]) -> Result<Duties, Memory>
    ensures ok { OnOk result (desk.new ≡ spec.desk_after_own desk.old moment bytes.now) }
    ensures duties { IfOk result (λ duties. duties.items
        ≡ spec.duties_of_own desk.old moment bytes.now) }
    ensures few { IfOk result (λ duties. length duties.items ≤ 9) }
    ensures err { OnErr result (desk.new ≡ desk.old) }
{
    let duties = Duties::with_capacity(desk.alloc(), 1)?;
    let duty = desk.take(moment, bytes)?;
    Ok(with_duty(duties, duty))
}

/// The investor is shown a quote on its request with this number, by the next of its own quote
/// numbers; a quote of the same dealer that stands there is reported gone first. Where the request
/// was not accepted nothing changes. Nothing follows. It fails for memory alone, and then the desk
/// is as before.
pub fn do_relay(
    desk: &mut InvestorDesk,
    request: u32,
    offer: &Offer,
    moment: Moment,
) -> Result<Duties, Memory>
    ensures ok { OnOk result
        (desk.new ≡ spec.desk_after_relay desk.old request offer.now moment) }
    ensures duties { IfOk result (λ duties. duties.items ≡ []) }
    ensures err { OnErr result (desk.new ≡ desk.old) }
{
    if !desk.knows(request, None) {
        return Ok(Duties::new(desk.alloc()));
    }
    desk.quote_came(request, offer, moment)?;
    Ok(Duties::new(desk.alloc()))
}

/// The investor is told that the quote with this word on its request with this number is gone.
/// Where the request was not accepted nothing changes. Nothing follows. It fails for memory alone,
/// and then the desk is as before.
pub fn do_gone(
    desk: &mut InvestorDesk,
    request: u32,
    word: u32,
    moment: Moment,
) -> Result<Duties, Memory>
    ensures ok { OnOk result (desk.new ≡ spec.desk_after_gone desk.old request word moment) }
    ensures duties { IfOk result (λ duties. duties.items ≡ []) }
    ensures err { OnErr result (desk.new ≡ desk.old) }
{
    if !desk.knows(request, None) {
        return Ok(Duties::new(desk.alloc()));
    }
    desk.quote_gone(request, word, moment)?;
    Ok(Duties::new(desk.alloc()))
}

/// The investor is told that a dealer declined its request with this number. Where the request was
/// not accepted nothing changes. Nothing follows. It fails for memory alone, and then the desk is
/// as before.
pub fn do_declined(
    desk: &mut InvestorDesk,
    request: u32,
    dealer: Name,
    moment: Moment,
) -> Result<Duties, Memory>
    ensures ok { OnOk result
        (desk.new ≡ spec.desk_after_declined desk.old request dealer moment) }
    ensures duties { IfOk result (λ duties. duties.items ≡ []) }
    ensures err { OnErr result (desk.new ≡ desk.old) }
{
    if !desk.knows(request, None) {
        return Ok(Duties::new(desk.alloc()));
    }
    desk.dealer_declined(request, dealer, moment)?;
    Ok(Duties::new(desk.alloc()))
}

/// The investor is sent the room's reply to a hit or a pass of its request with this number. Where
/// the request was not accepted, the quote that was hit was not shown on it, or no room replies so
/// to such a response (a pass is not awarded, a hit is not passed), nothing changes. Nothing
/// follows. It fails for memory alone, and then the desk is as before.
pub fn do_answer(
    desk: &mut InvestorDesk,
    request: u32,
    response: &ResponseRef,
    reply: Reply,
    moment: Moment,
) -> Result<Duties, Memory>
    ensures ok { OnOk result
        (desk.new ≡ spec.desk_after_answer desk.old request response.now reply moment) }
    ensures duties { IfOk result (λ duties. duties.items ≡ []) }
    ensures err { OnErr result (desk.new ≡ desk.old) }
{
    if !may_reply(desk, request, response.k, reply) {
        return Ok(Duties::new(desk.alloc()));
    }
    desk.answered(request, response, reply, moment)?;
    Ok(Duties::new(desk.alloc()))
}

/// Whether a desk knows a request and the quote, where one was hit, and such a response can have
/// this reply.
fn may_reply(desk: &InvestorDesk, request: u32, quote: Option<u64>, reply: Reply) -> bool
    ensures { result ≡ knows (book_at desk.now) request quote && spec.replies_to quote reply }
{
    if !desk.knows(request, quote) {
        return false;
    }
    replies_to(quote, reply)
}

/// Whether a response, to this quote or to the request, can have the reply.
fn replies_to(quote: Option<u64>, reply: Reply) -> bool
    ensures { result ≡ spec.replies_to quote reply }
{
    match quote {
        Some(_) => replies_to_hit(reply),
        None => replies_to_pass(reply),
    }
}

/// Whether a hit can have the reply.
fn replies_to_hit(reply: Reply) -> bool
    ensures { result ≡ spec.replies_to_hit reply }
{
    !matches!(reply, Reply::Passed)
}

/// Whether a pass can have the reply.
fn replies_to_pass(reply: Reply) -> bool
    ensures { result ≡ spec.replies_to_pass reply }
{
    matches!(reply, Reply::Passed | Reply::Refused(HitRefusal::NotOpen))
}

/// The investor is told that its request with this number expired, which closes it. Where the
/// request was not accepted nothing changes. Nothing follows. It fails for memory alone, and then
/// the desk is as before.
pub fn do_close(desk: &mut InvestorDesk, request: u32, moment: Moment) -> Result<Duties, Memory>
    ensures ok { OnOk result (desk.new ≡ spec.desk_after_close desk.old request moment) }
    ensures duties { IfOk result (λ duties. duties.items ≡ []) }
    ensures err { OnErr result (desk.new ≡ desk.old) }
{
    if !desk.knows(request, None) {
        return Ok(Duties::new(desk.alloc()));
    }
    desk.closed(request, moment)?;
    Ok(Duties::new(desk.alloc()))
}
