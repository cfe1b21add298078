//! How a trade is named by those who made it.
ghost use Rattle.std.specs.Prelude.{◌≡◌, ℕ, List, Some};
ghost use Rattle.venue_rows.specs.Rows.{Configuration, KeepsLimits, dealer_numbered};
ghost use Rattle.venue_rows.specs.Rows.{investor_numbered};
ghost use Rattle.venue_rows.specs.declared.dealer_rows.DealerRow.{DealerRow};
ghost use Rattle.venue_rows.specs.declared.investor_rows.InvestorRow.{InvestorRow};
ghost use Rattle.step_replay.specs.AuditTrail.{audit_trail};
ghost use Rattle.step_replay.specs.declared.steps.Step.{Step};
ghost use Rattle.step_replay.specs.VenueFacts.{of_dealer};
ghost use Rattle.laws_days.specs.LiveDuties.{NoDutyIsLeft};
ghost use Rattle.laws_trades.specs.TradeNames.{NamesOneTrade, hits_of, notices_to};

use dealer_desk::{limits_are_kept, what_is_asked_is_of_the_day};

/// A trade has one name: by the firms' names (448), as they stand at each firm's desk, the rooms of
/// a dealer's notices 694=1 on an investor's requests begin the list of those of the investor's
/// answers 297=0 to hits of the dealer's quotes.
///
/// So the k-th of each is of one request, and the day, the two names and k name a trade. The
/// premise: the configuration keeps its limits.
///
/// It ends at: two firms of one name, which no program takes (`KeepsLimits`); the `trade` lines
/// from which TradeID (1003) is made (`laws_trades::a_trade_is_printed_under_one_name`).
pub fn a_trade_has_one_name()
    ensures { (config : Configuration) (steps : List Step) (investor dealer : ℕ)
        (investor_row : InvestorRow) (dealer_row : DealerRow) → KeepsLimits config
        → investor_numbered config investor ≡ Some investor_row
        → dealer_numbered config dealer ≡ Some dealer_row
        → NamesOneTrade (audit_trail config steps).facts investor dealer investor_row.name dealer_row.name }
{
    limits_are_kept();
    what_is_asked_is_of_the_day();
}

/// Where no duty is left, the two lists of `a_trade_has_one_name` are one: each trade has one place
/// in both.
///
/// The premise is that of `a_trade_has_one_name`.
///
/// It ends at: days on which a duty is left; what `a_trade_has_one_name` ends at.
pub fn a_trade_is_named_on_both_sides()
    ensures { (config : Configuration) (steps : List Step) (investor dealer : ℕ)
        (investor_row : InvestorRow) (dealer_row : DealerRow) → KeepsLimits config
        → investor_numbered config investor ≡ Some investor_row
        → dealer_numbered config dealer ≡ Some dealer_row → NoDutyIsLeft (audit_trail config steps)
        → hits_of investor dealer_row.name (audit_trail config steps).facts
        ≡ notices_to investor_row.name (of_dealer dealer (audit_trail config steps).facts) }
{
    limits_are_kept();
    what_is_asked_is_of_the_day();
}
