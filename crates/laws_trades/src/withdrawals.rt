//! What is confirmed as withdrawn is never traded.
ghost use Rattle.std.specs.Prelude.{◌≡◌, ℕ, List, Some, false};
ghost use Rattle.dealer_desk.specs.DealerFacts.{Quoted};
ghost use Rattle.dealer_desk.specs.declared.accepted.AcceptedQuote.{AcceptedQuote};
ghost use Rattle.laws_trades.specs.Withdrawals.{Confirms, IsSaid};
ghost use Rattle.step_replay.specs.AuditTrail as venue;
ghost use Rattle.step_replay.specs.DealerTrail.{facts_of, was_lifted};
ghost use Rattle.step_replay.specs.Lists.{In};
ghost use Rattle.step_replay.specs.VenueFacts.{of_dealer};
ghost use Rattle.step_replay.specs.declared.steps.Step.{Step};
ghost use Rattle.laws_trades.specs.Trades.{Trade};
ghost use Rattle.venue_rows.specs.Rows.{Configuration, dealer_numbered};
ghost use Rattle.venue_rows.specs.declared.dealer_rows.DealerRow.{DealerRow};

use laws_shown::quotes_are_shown_once;
use step_replay::no_quote_is_lifted_and_withdrawn;

/// A quote whose withdrawal was confirmed is never traded.
///
/// Each message to a dealer is what an event at its desk says (`said`). If it says that a quote is
/// withdrawn (297=17 with its QuoteID, 117) or replaced (297=0 of the new one), no hit lifts that
/// quote (`unlifted`), and no `Trade` is of it (`untraded`), before or after the message
/// (`specs/Withdrawals`).
///
/// It ends at: the messages, on days on which work is left (the law is about a `Trade`, not about
/// messages; when no work is left, each 297=0 that answers a hit, and each 694=1, belongs to a
/// `Trade`); which fields the messages have.
pub fn what_is_withdrawn_is_never_traded()
    ensures said { (config : Configuration) (steps : List Step) (dealer : ℕ) (row : DealerRow)
        (bytes : List ℕ) → dealer_numbered config dealer ≡ Some row
        → In bytes (venue.sent_to config dealer (venue.audit_trail config steps))
        → IsSaid config.date row (of_dealer dealer (venue.audit_trail config steps).facts) bytes }
    ensures unlifted { (config : Configuration) (steps : List Step) (dealer : ℕ) (row : DealerRow)
        (bytes : List ℕ) (quote : AcceptedQuote) → dealer_numbered config dealer ≡ Some row
        → (is : IsSaid config.date row (of_dealer dealer (venue.audit_trail config steps).facts)
        bytes) → Confirms is.stood is.message quote
        → In (Quoted quote)
        (facts_of (of_dealer dealer (venue.audit_trail config steps).facts))
        → was_lifted (of_dealer dealer (venue.audit_trail config steps).facts) quote.number
        ≡ false }
    ensures untraded { (config : Configuration) (steps : List Step) (dealer : ℕ) (row : DealerRow)
        (bytes : List ℕ) (quote : AcceptedQuote) → dealer_numbered config dealer ≡ Some row
        → (is : IsSaid config.date row (of_dealer dealer (venue.audit_trail config steps).facts)
        bytes) → Confirms is.stood is.message quote
        → In (Quoted quote)
        (facts_of (of_dealer dealer (venue.audit_trail config steps).facts))
        → (trade : Trade config (venue.audit_trail config steps).facts)
        → trade.deal.dealer ≡ dealer → trade.deal.quote.id ≡ quote.id → ⊥ }
{
    no_quote_is_lifted_and_withdrawn();
    quotes_are_shown_once();
}
