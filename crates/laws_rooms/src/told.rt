//! What a dealer answers is told in its order.
ghost use Rattle.std.specs.Prelude.{◌≡◌, ℕ, List, Some};
ghost use Rattle.investor_desk.specs.InvestorDesk.{market_of};
ghost use Rattle.laws_rooms.specs.Tellings.{AreAllTold, AreToldFirst, IsLive};
ghost use Rattle.market_terms.specs.declared.rooms.RoomRef.{RoomRef};
ghost use Rattle.step_replay.specs.AuditTrail as venue;
ghost use Rattle.step_replay.specs.LiveDays.{live_trail};
ghost use Rattle.step_replay.specs.VenueFacts.{of_investor, of_room};
ghost use Rattle.step_replay.specs.declared.steps.Step.{Step};
ghost use Rattle.laws_days.specs.LiveDuties.{NoDutyIsLeft};
ghost use Rattle.venue_rows.specs.Rows.{Configuration, dealer_numbered, investor_numbered};
ghost use Rattle.venue_rows.specs.declared.dealer_rows.DealerRow.{DealerRow};
ghost use Rattle.venue_rows.specs.declared.investor_rows.InvestorRow.{InvestorRow};

use dealer_desk::{limits_are_kept, what_is_asked_is_of_the_day};

/// A decline has its place among the quotes of its dealer, as the investor is told of them.
///
/// Once no duty is left, the investor of a room was told the first of the dealer's quotes and
/// declines that took effect in the room, in their order: the trail of the investor has a quote
/// where it was shown, and a decline where 35=AI with 297=11, the request's 131 and the dealer's
/// 448 was sent (`specs/Tellings`). It was told all of them while the request is open at its desk.
///
/// It ends at: days on which a duty is left; that no other message says a decline. (Withdrawals:
/// `laws_rooms::each_answer_is_told_in_its_turn`.)
pub fn answers_are_told_as_they_took_effect()
    ensures { (config : Configuration) (steps : List Step) (dealer : ℕ) (row : DealerRow)
        (room : RoomRef) (investor : InvestorRow) → dealer_numbered config dealer ≡ Some row
        → investor_numbered config room.investor ≡ Some investor
        → NoDutyIsLeft (venue.audit_trail config steps)
        → AreToldFirst config (market_of config room.investor investor) dealer row.name room.n
        (of_room room (venue.audit_trail config steps).facts)
        (of_investor room.investor (venue.audit_trail config steps).facts) }
{
    limits_are_kept();
    what_is_asked_is_of_the_day();
}

/// On a live day an investor is told all quotes and declines of a dealer that took effect, in their
/// order (`specs/Tellings`).
///
/// The steps of such a day come one by one, and none of them leaves a duty.
///
/// It ends at: that no other message says a decline. (Withdrawals:
/// `laws_rooms::each_answer_is_told_on_a_live_day`.)
pub fn answers_are_all_told_on_a_live_day()
    ensures { (config : Configuration) (steps : List Step) (dealer : ℕ) (row : DealerRow)
        (room : RoomRef) (investor : InvestorRow) → dealer_numbered config dealer ≡ Some row
        → investor_numbered config room.investor ≡ Some investor → IsLive config steps
        → AreAllTold config (market_of config room.investor investor) dealer row.name room.n
        (of_room room (live_trail config steps).facts)
        (of_investor room.investor (live_trail config steps).facts) }
{
    limits_are_kept();
    what_is_asked_is_of_the_day();
}
