//! A law of what duties find: the tests that their actions make before anything happens never fail.
ghost use Rattle.std.specs.Prelude.{◌≡◌, ℕ, true, List, ◌∷◌, Some};
ghost use Rattle.market_terms.specs.declared.duties.Duty.{Duty};
ghost use Rattle.venue_rows.specs.Rows.{Configuration, dealer_numbered};
ghost use Rattle.venue_rows.specs.declared.dealer_rows.DealerRow.{DealerRow};
ghost use Rattle.step_replay.specs.Actions.{dealer_of};
ghost use Rattle.step_replay.specs.AuditTrail as venue;
ghost use Rattle.laws_days.specs.Conditions.{has_word_asked, is_met};
ghost use Rattle.venue_steps.specs.declared.actors.Actor.{Actor};
ghost use Rattle.step_replay.specs.declared.steps.Step.{Step};

use dealer_desk::{limits_are_kept, what_is_asked_is_of_the_day};

/// In a venue the duty that an actor does next meets its test (`duties`), and no dealer's message
/// asks a word which the venue does not have (`messages`).
///
/// It ends at: what comes from outside and may fail its test, such as a sweep of a room, or a
/// message of a firm, that the venue does not have.
pub fn steps_meet_their_tests()
    ensures duties { (config : Configuration) (steps : List Step) (actor : Actor) (duty : Duty)
        (rest : List Duty)
        → venue.pending actor (venue.audit_trail config steps) ≡ duty ∷ rest
        → is_met config (venue.audit_trail config steps).facts actor duty ≡ true }
    ensures messages { (config : Configuration) (steps : List Step) (dealer : ℕ)
        (row : DealerRow) (moment : ℕ) (bytes : List ℕ)
        → dealer_numbered config dealer ≡ Some row
        → has_word_asked config (venue.audit_trail config steps).facts moment bytes
        (dealer_of dealer row) ≡ true }
{
    limits_are_kept();
    what_is_asked_is_of_the_day();
}
