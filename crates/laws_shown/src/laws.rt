//! What is shown is what was written.
ghost use Rattle.std.specs.Prelude.{◌≡◌, ℕ, List, Some, codes};
ghost use Rattle.market_terms.specs.declared.asks.Ask.{Ask};
ghost use Rattle.venue_rows.specs.Rows.{Configuration, KeepsLimits, dealer_numbered, investor_numbered};
ghost use Rattle.venue_rows.specs.declared.dealer_rows.DealerRow.{DealerRow};
ghost use Rattle.venue_rows.specs.declared.investor_rows.InvestorRow.{InvestorRow};
ghost use Rattle.dealer_desk.specs.DealerFacts.{Quoted, Shown};
ghost use Rattle.dealer_desk.specs.declared.accepted.AcceptedQuote.{AcceptedQuote};
ghost use Rattle.investor_desk.specs.InvestorFacts.{Asked};
ghost use Rattle.investor_desk.specs.declared.standing.AcceptedRequest.{AcceptedRequest};
ghost use Rattle.investor_desk.specs.declared.standing.ShownOffer.{ShownOffer};
ghost use Rattle.step_replay.specs.AuditTrail as venue;
ghost use Rattle.step_replay.specs.Lists.{In};
ghost use Rattle.step_replay.specs.declared.steps.Step.{Step};
ghost use Rattle.laws_shown.specs.Said.{SaysWhenRead};
ghost use Rattle.laws_shown.specs.ShownQuotes.{AreShownInOrder, AreShownInTurn, AreShownOnce};
ghost use Rattle.laws_shown.specs.ShownQuotes.{AreNumberedAsTheyCame, AreOfTheirOwn};
ghost use Rattle.laws_shown.specs.ShownQuotes.{ComesFromAQuote};
ghost use Rattle.laws_shown.specs.ShownQuotes.{ShowsWhatWasQuoted, WasWritten, shown_to};
ghost use Rattle.laws_shown.specs.ShownRequests.{ComesFromARequest, IsWrittenRequest};
ghost use Rattle.laws_shown.specs.ShownRequests.{ShowsWhatWasAsked, at_dealer, at_investor};
ghost use Rattle.laws_shown.specs.ShownRequests.{room_of};

/// Each request that was accepted is what its investor wrote, and its dealers are those whose names
/// the message gives (448), in their order (`accepted`). Each that a dealer was shown is one that was
/// accepted, and names this dealer (`shown`).
pub fn requests_are_shown_as_written()
    ensures accepted { (config : Configuration) (steps : List Step) (investor : ℕ)
        (request : AcceptedRequest)
        → In (Asked request) (at_investor investor (venue.audit_trail config steps).facts)
        → IsWrittenRequest config (venue.audit_trail config steps).facts
        (room_of investor request.number) request }
    ensures shown { (config : Configuration) (steps : List Step) (dealer : ℕ) (ask : Ask)
        (moment : ℕ)
        → In (Shown ask moment) (at_dealer dealer (venue.audit_trail config steps).facts)
        → ComesFromARequest config (venue.audit_trail config steps).facts dealer ask }
{}

/// Each quote that was accepted is what its dealer wrote, on a request that its investor wrote
/// (`accepted`), and each quote that an investor was shown is one that was accepted: its price, its
/// valid-until and its dealer (`shown`).
pub fn quotes_are_shown_as_written()
    ensures accepted { (config : Configuration) (steps : List Step) (dealer : ℕ)
        (quote : AcceptedQuote)
        → In (Quoted quote) (at_dealer dealer (venue.audit_trail config steps).facts)
        → WasWritten config (venue.audit_trail config steps).facts dealer quote }
    ensures shown { (config : Configuration) (steps : List Step) (investor : ℕ)
        (shown : ShownOffer)
        → In shown (shown_to investor (venue.audit_trail config steps).facts)
        → ComesFromAQuote config (venue.audit_trail config steps).facts investor shown }
{}

/// The quotes of a dealer on one request are shown in the order in which they came: by the dealer's
/// own numbers, which count its accepted quotes.
///
/// It ends at: quotes of two dealers, or on two requests.
pub fn quotes_are_shown_in_order()
    ensures order { (config : Configuration) (steps : List Step) (investor : ℕ)
        → AreShownInOrder config (venue.audit_trail config steps).facts investor }
    ensures numbers { (config : Configuration) (steps : List Step) (dealer : ℕ) (row : DealerRow)
        → dealer_numbered config dealer ≡ Some row
        → AreNumberedAsTheyCame (venue.audit_trail config steps).facts dealer }
{}

/// A quote is shown at most once (`once`), and came in a message of its own (`own`): no two have
/// one QuoteID (117).
pub fn quotes_are_shown_once()
    ensures once { (config : Configuration) (steps : List Step) (investor : ℕ)
        → AreShownOnce config (venue.audit_trail config steps).facts investor }
    ensures own { (config : Configuration) (steps : List Step) (dealer : ℕ) (row : DealerRow)
        → dealer_numbered config dealer ≡ Some row
        → AreOfTheirOwn (venue.audit_trail config steps).facts dealer }
{}

/// What is shown was quoted: a Quote shows an investor what the quote's dealer wrote
/// (`investors`), and a QuoteRequest shows a dealer what an investor wrote in a request that
/// names this dealer (`dealers`). Only messages that are frames are compared, by their prices,
/// bonds and moments, not by their bytes.
///
/// There is one Quote for each quote that the investor was shown, in their order (`in_turn`). What
/// a dealer is shown needs a configuration that keeps its limits, since a dealer whose name has an
/// SOH could read anything after it.
///
/// It ends at: [made-up lists](docs/MARKET.md#a-dealers-day-alone); bytes that are no frame; the
/// 131 of a QuoteRequest; that there is a QuoteRequest for each request that a dealer was shown.
pub fn what_is_shown_was_quoted()
    ensures investors { (config : Configuration) (steps : List Step) (investor : ℕ)
        (row : InvestorRow) (message : List ℕ)
        → investor_numbered config investor ≡ Some row
        → In message (venue.sent_to config investor (venue.audit_trail config steps))
        → SaysWhenRead (codes "S")
        (ShowsWhatWasQuoted config (venue.audit_trail config steps).facts investor) message }
    ensures in_turn { (config : Configuration) (steps : List Step) (investor : ℕ)
        (row : InvestorRow) → investor_numbered config investor ≡ Some row
        → AreShownInTurn config (venue.audit_trail config steps).facts investor
        (venue.sent_to config investor (venue.audit_trail config steps))
        (shown_to investor (venue.audit_trail config steps).facts) }
    ensures dealers { (config : Configuration) (steps : List Step) (dealer : ℕ) (row : DealerRow)
        (message : List ℕ)
        → KeepsLimits config → dealer_numbered config dealer ≡ Some row
        → In message (venue.sent_to config dealer (venue.audit_trail config steps))
        → SaysWhenRead (codes "R")
        (ShowsWhatWasAsked config (venue.audit_trail config steps).facts dealer) message }
{}
