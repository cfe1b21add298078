//! What a dealer answers is told in its turn, withdrawals too.
ghost use Rattle.std.specs.Prelude.{◌≡◌, ℕ, List, Some};
ghost use Rattle.investor_desk.specs.InvestorDesk.{market_of};
ghost use Rattle.laws_rooms.specs.Tellings.{AreAllToldInTurn, AreToldInTurn, IsLive};
ghost use Rattle.market_terms.specs.declared.rooms.RoomRef.{RoomRef};
ghost use Rattle.step_replay.specs.AuditTrail as venue;
ghost use Rattle.step_replay.specs.LiveDays.{live_trail};
ghost use Rattle.step_replay.specs.VenueFacts.{of_investor, of_room};
ghost use Rattle.step_replay.specs.declared.steps.Step.{Step};
ghost use Rattle.laws_days.specs.LiveDuties.{NoDutyIsLeft};
ghost use Rattle.venue_rows.specs.Rows.{Configuration, KeepsLimits, dealer_numbered};
ghost use Rattle.venue_rows.specs.Rows.{investor_numbered};
ghost use Rattle.venue_rows.specs.declared.dealer_rows.DealerRow.{DealerRow};
ghost use Rattle.venue_rows.specs.declared.investor_rows.InvestorRow.{InvestorRow};

use dealer_desk::{limits_are_kept, what_is_asked_is_of_the_day};

/// Each quote, each withdrawal and the decline of a dealer is told in its turn.
///
/// Once no duty is left, the investor of a room was told the first of those that took effect in the
/// room, in their order, and of no other quote or withdrawal of the dealer: the trail of the
/// investor has a quote where it was shown, and a withdrawal where it was told that the quote is
/// gone (`specs/Tellings`). Of a quote that another one of the dealer replaces it was told so just
/// before that one was shown. It was told all of them while the request is open at its desk.
///
/// It ends at: days on which a duty is left; that no other message says a decline; two firms of one
/// name, which no program takes (`KeepsLimits`); the dealer's own desk (of that
/// `laws_rooms::each_answer_takes_effect_in_its_order`). (The message that says that a quote is
/// gone: `laws_rooms::each_quote_that_is_gone_is_reported`.)
pub fn each_answer_is_told_in_its_turn()
    ensures { (config : Configuration) (steps : List Step) (dealer : ℕ) (row : DealerRow)
        (room : RoomRef) (investor : InvestorRow) → KeepsLimits config
        → dealer_numbered config dealer ≡ Some row
        → investor_numbered config room.investor ≡ Some investor
        → NoDutyIsLeft (venue.audit_trail config steps)
        → AreToldInTurn config (market_of config room.investor investor) dealer row.name room.n
        (of_room room (venue.audit_trail config steps).facts)
        (of_investor room.investor (venue.audit_trail config steps).facts) }
{
    limits_are_kept();
    what_is_asked_is_of_the_day();
}

/// On a live day an investor is told all quotes, withdrawals and declines of a dealer that took
/// effect, in their order, and of no other quote or withdrawal of its (`specs/Tellings`).
///
/// The steps of such a day come one by one, and none of them leaves a duty.
///
/// It ends at: that no other message says a decline; two firms of one name, which no program takes
/// (`KeepsLimits`); the dealer's own desk.
pub fn each_answer_is_told_on_a_live_day()
    ensures { (config : Configuration) (steps : List Step) (dealer : ℕ) (row : DealerRow)
        (room : RoomRef) (investor : InvestorRow) → KeepsLimits config
        → dealer_numbered config dealer ≡ Some row
        → investor_numbered config room.investor ≡ Some investor → IsLive config steps
        → AreAllToldInTurn config (market_of config room.investor investor) dealer row.name room.n
        (of_room room (live_trail config steps).facts)
        (of_investor room.investor (live_trail config steps).facts) }
{
    limits_are_kept();
    what_is_asked_is_of_the_day();
}
