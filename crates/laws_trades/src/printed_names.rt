//! One name for each trade, in the lines of both sides.
ghost use Rattle.std.specs.Prelude.{◌≡◌, ℕ, List, Some};
ghost use Rattle.laws_trades.specs.TradeLines.{AreNamed};
ghost use Rattle.step_replay.specs.AuditTrail as venue;
ghost use Rattle.step_replay.specs.declared.steps.Step.{Step};
ghost use Rattle.laws_days.specs.LiveDuties.{NoDutyIsLeft};
ghost use Rattle.laws_trades.specs.Trades.{Deal, Trade};
ghost use Rattle.venue_rows.specs.Rows.{Configuration, KeepsLimits, investor_numbered};
ghost use Rattle.venue_rows.specs.declared.investor_rows.InvestorRow.{InvestorRow};

use crate::names::a_trade_is_named_on_both_sides;
use crate::sides::both_sides_of_a_trade_agree;
use dealer_desk::{limits_are_kept, the_same_facts_have_the_same_notes};

/// Where no duty is left, the `trade` lines that the venue prints of one trade, one for each side,
/// have the same name (`both`), and no other trade of the day has it (`no_other`).
///
/// Each line stands behind the message that tells its side of the trade (`specs/TradeLines`). The
/// premise: the configuration keeps its limits.
///
/// It ends at: days on which a duty is left; that no other `trade` line is printed; TradeID (1003),
/// which is tested to be that name.
pub fn a_trade_is_printed_under_one_name()
    ensures both { (config : Configuration) (steps : List Step) (investor_row : InvestorRow)
        → KeepsLimits config → NoDutyIsLeft (venue.audit_trail config steps)
        → (trade : Trade config (venue.audit_trail config steps).facts)
        → investor_numbered config trade.deal.investor ≡ Some investor_row
        → (name : List ℕ)
        × AreNamed config (venue.audit_trail config steps) trade.deal investor_row name }
    ensures no_other { (config : Configuration) (steps : List Step) (name : List ℕ)
        (one other : Deal config (venue.audit_trail config steps).facts)
        (investor_row another : InvestorRow) → KeepsLimits config
        → NoDutyIsLeft (venue.audit_trail config steps)
        → investor_numbered config one.investor ≡ Some investor_row
        → investor_numbered config other.investor ≡ Some another
        → AreNamed config (venue.audit_trail config steps) one investor_row name
        → AreNamed config (venue.audit_trail config steps) other another name
        → (one.investor ≡ other.investor) × (one.asked.number ≡ other.asked.number) }
{
    a_trade_is_named_on_both_sides();
    both_sides_of_a_trade_agree();
    limits_are_kept();
    the_same_facts_have_the_same_notes();
}
