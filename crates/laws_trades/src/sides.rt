//! The two sides of a trade: what the venue tells an investor whose hit is awarded, and the dealer
//! whose quote was hit.
ghost use Rattle.std.specs.Prelude.{◌≡◌, ℕ, List, Some};
ghost use Rattle.market_terms.specs.declared.closes.Close.TheVariants.{Hit};
ghost use Rattle.venue_rows.specs.Rows.{Configuration, dealer_numbered};
ghost use Rattle.venue_rows.specs.declared.dealer_rows.DealerRow.{DealerRow};
ghost use Rattle.dealer_desk.specs.DealerFacts.{Told};
ghost use Rattle.step_replay.specs.AuditTrail.{audit_trail};
ghost use Rattle.step_replay.specs.DealerTrail.{facts_of};
ghost use Rattle.step_replay.specs.Lists.{In};
ghost use Rattle.step_replay.specs.VenueFacts.{of_dealer};
ghost use Rattle.step_replay.specs.declared.steps.Step.{Step};
ghost use Rattle.laws_days.specs.LiveDuties.{NoDutyIsLeft};
ghost use Rattle.laws_trades.specs.Trades.{Trade, answered, at_investor};

use dealer_desk::{limits_are_kept, what_is_asked_is_of_the_day};

/// Both sides of a trade agree: each awarded hit of a quote (`answers`), and each notice to a
/// dealer that it won (`notices`), belongs to a `Trade`, in which the quote's dealer was told the
/// price that the investor was shown, and the bond, side and quantity that were asked for.
///
/// The investor knows the quote as Qk. Only the dealer that Qk names was told 694=1 of that
/// request, once, with the 117 of its quote that has the word of Qk. Of the words of that request's
/// quotes only this quote's is lifted.
///
/// It ends at: days on which work is left: on those the dealer may not have been sent its notice
/// yet; which quote a hit names by its 117: the desk's definition says it.
/// (`laws_trades::a_trade_has_a_time` says that the moment of the notice is the award's.)
pub fn both_sides_of_a_trade_agree()
    ensures answers { (config : Configuration) (steps : List Step)
        (investor request quote price : ℕ) (dealer : List ℕ)
        → NoDutyIsLeft (audit_trail config steps)
        → In (answered request quote dealer price)
        (at_investor investor (audit_trail config steps).facts)
        → (trade : Trade config (audit_trail config steps).facts)
        × (trade.deal.investor ≡ investor) × (trade.deal.asked.number ≡ request)
        × (trade.deal.shown.number ≡ quote) × (trade.deal.row.name ≡ dealer)
        × (trade.deal.quote.price ≡ price) }
    ensures notices { (config : Configuration) (steps : List Step) (dealer : ℕ)
        (row : DealerRow) (request moment : ℕ)
        → NoDutyIsLeft (audit_trail config steps) → dealer_numbered config dealer ≡ Some row
        → In (Told request Hit moment)
        (facts_of (of_dealer dealer (audit_trail config steps).facts))
        → (trade : Trade config (audit_trail config steps).facts)
        × (trade.deal.dealer ≡ dealer) × (trade.deal.quote.request ≡ request) }
{
    limits_are_kept();
    what_is_asked_is_of_the_day();
}
