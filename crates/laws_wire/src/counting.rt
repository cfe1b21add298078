//! What a session takes is counted.
ghost use Rattle.std.specs.Prelude.{◌≡◌, ◌≤◌, ℕ, Bool, List, Option, Some, true};
ghost use Rattle.dealer_desk.specs.DealerFacts as at_dealer;
ghost use Rattle.dealer_desk.specs.DealerOutput as dealer_output;
ghost use Rattle.dealer_desk.specs.DealerRules.{dealer_verdict};
ghost use Rattle.fix_sessions.specs.Steps.{came};
ghost use Rattle.fix_sessions.specs.declared.state.Clock.{Clock};
ghost use Rattle.fix_sessions.specs.declared.state.Session.{Session};
ghost use Rattle.fix_sessions.specs.declared.texts.Names.{Names};
ghost use Rattle.fix_sessions.specs.declared.turns.Denial.{Denial};
ghost use Rattle.investor_desk.specs.InvestorFacts as at_investor;
ghost use Rattle.investor_desk.specs.InvestorOutput as investor_output;
ghost use Rattle.investor_desk.specs.InvestorRules.{InvestorMarket, investor_verdict};
ghost use Rattle.venue_rows.specs.declared.dealer_rows.DealerRow.{DealerRow};
ghost use Rattle.wire_messages.specs.ToVenue.{IsGiven};

use crate::crossed::what_is_taken_crosses;

/// The venue counts what a session gives it: under the number that the desk expects, while that is
/// at most 999,999,999, the message is neither dropped nor out of sequence.
///
/// So it is at a dealer's desk (`dealer`) and an investor's (`investor`), whatever stands there,
/// and whatever the message says.
pub fn what_a_session_takes_is_counted()
    ensures dealer { (names : Names) (s : Session) (connection : ℕ) (clock : Clock)
        (bytes given : List ℕ) (is_known : Bool) (denial : Option Denial) (number : ℕ)
        (date : List ℕ) (row : DealerRow) (book : at_dealer.DealerBook) (moment : ℕ)
        → (came names s connection clock bytes is_known denial).takes ≡ Some number
        → at_dealer.expected_number book ≤ 999999999
        → IsGiven given bytes (at_dealer.expected_number book)
        → dealer_output.uses_number (dealer_verdict date row book moment given) ≡ true }
    ensures investor { (names : Names) (s : Session) (connection : ℕ) (clock : Clock)
        (bytes given : List ℕ) (is_known : Bool) (denial : Option Denial) (number : ℕ)
        (market : InvestorMarket) (book : at_investor.InvestorBook) (moment : ℕ)
        → (came names s connection clock bytes is_known denial).takes ≡ Some number
        → at_investor.expected_number book ≤ 999999999
        → IsGiven given bytes (at_investor.expected_number book)
        → investor_output.uses_number (investor_verdict market book moment given) ≡ true }
{
    what_is_taken_crosses();
}
