//! A trade has a time.
ghost use Rattle.std.specs.Prelude.{◌≡◌, ℕ, List, Some, None};
ghost use Rattle.dealer_desk.specs.DealerOutput.{moment_of};
ghost use Rattle.investor_desk.specs.InvestorOutput as investor_output;
ghost use Rattle.laws_trades.specs.TradeTimes.{IsAnsweredAt, IsAwarded, IsHitOf, IsSaidTo};
ghost use Rattle.laws_trades.specs.TradeTimes.{IsToldAt};
ghost use Rattle.laws_trades.specs.Withdrawals.{IsSaid};
ghost use Rattle.market_terms.specs.declared.closes.Close.TheVariants.{Hit};
ghost use Rattle.market_terms.specs.declared.rooms.RoomRef.{RoomRef};
ghost use Rattle.quote_messages.specs.declared.out_messages.ClosingNotice.{ClosingNotice};
ghost use Rattle.quote_messages.specs.declared.out_messages.OutMessage.TheVariants as out;
ghost use Rattle.step_replay.specs.AuditTrail as venue;
ghost use Rattle.step_replay.specs.InvestorTrail.{sent_by};
ghost use Rattle.step_replay.specs.Lists.{In};
ghost use Rattle.step_replay.specs.VenueFacts.{of_dealer, of_investor};
ghost use Rattle.step_replay.specs.declared.steps.Step.{Step};
ghost use Rattle.venue_rows.specs.Rows.{Configuration, dealer_numbered};
ghost use Rattle.venue_rows.specs.declared.dealer_rows.DealerRow.{DealerRow};

use crate::awards::an_award_is_in_time;

/// Both messages of a trade bear the moment of the award, which is that of the hit.
///
/// A room is awarded at one moment (`once`). At that moment a message of its investor came in its
/// turn which hits the quote that won, by what stood at the investor's desk before the message
/// (`hit`). A dealer's notice 694=1 bears in 52 (60 on the wire) the moment at which the room of its
/// request was awarded (`dealers`), and an investor's answer 297=0 to a hit that of the room of the
/// request which the investor asked under the answer's 131 (`investors`; `specs/TradeTimes`).
///
/// It ends at: which fields the messages have; which quote a hit names by its 117: the desk's
/// definition says it. (`laws_rooms::each_response_is_answered` says, by 693, 52 and 117, which hit
/// an answer belongs to.)
pub fn a_trade_has_a_time()
    ensures hit { (config : Configuration) (steps : List Step) (room : RoomRef) (moment : ℕ)
        → (is : IsAwarded (venue.audit_trail config steps).facts room moment)
        → IsHitOf config (venue.audit_trail config steps).facts room is.end moment }
    ensures once { (config : Configuration) (steps : List Step) (room : RoomRef)
        (moment other : ℕ) → IsAwarded (venue.audit_trail config steps).facts room moment
        → IsAwarded (venue.audit_trail config steps).facts room other → moment ≡ other }
    ensures dealers { (config : Configuration) (steps : List Step) (dealer : ℕ) (row : DealerRow)
        (bytes : List ℕ) (notice : ClosingNotice) → dealer_numbered config dealer ≡ Some row
        → (is : IsSaid config.date row (of_dealer dealer (venue.audit_trail config steps).facts)
        bytes) → is.message ≡ out.ClosingNotice notice → notice.close ≡ Hit
        → IsToldAt (venue.audit_trail config steps).facts dealer notice.request.number
        (moment_of is.event) }
    ensures investors { (config : Configuration) (steps : List Step) (investor : ℕ)
        (bytes : List ℕ)
        → In bytes (sent_by (of_investor investor (venue.audit_trail config steps).facts))
        → (is : IsSaidTo config (venue.audit_trail config steps).facts investor bytes)
        × ((id request : List ℕ) (quote : ℕ)
        → is.message ≡ out.HitReport id request quote None
        → IsAnsweredAt (venue.audit_trail config steps).facts investor request
        (investor_output.moment_of is.event)) }
{
    an_award_is_in_time();
}
