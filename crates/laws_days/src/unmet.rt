//! What an action does whose test fails.
ghost use Rattle.std.specs.Prelude.{◌≡◌, ℕ, false, List};
ghost use Rattle.market_terms.specs.declared.duties.Duty.{Duty};
ghost use Rattle.venue_rows.specs.Rows.{Configuration};
ghost use Rattle.venue_steps.specs.declared.actors.Actor.{Actor};
ghost use Rattle.step_replay.specs.Actions.{Dealer, nothing, received_by_dealer};
ghost use Rattle.step_replay.specs.DutyEffects.{duty_effect};
ghost use Rattle.step_replay.specs.VenueFacts.{Fact};
ghost use Rattle.laws_days.specs.Conditions.{has_word_asked, is_met};

/// A duty whose test (`laws_days/specs/Conditions`) fails does nothing (`duties`), and neither
/// does a dealer's message that asks a word which the venue does not have (`messages`).
///
/// They add no fact and leave no duty, whatever facts stand.
pub fn actions_that_fail_their_tests_do_nothing()
    ensures duties { (config : Configuration) (facts : List Fact) (actor : Actor) (duty : Duty)
        → is_met config facts actor duty ≡ false
        → duty_effect config facts actor duty ≡ nothing }
    ensures messages { (config : Configuration) (facts : List Fact) (dealer : Dealer) (moment : ℕ)
        (bytes : List ℕ) → has_word_asked config facts moment bytes dealer ≡ false
        → received_by_dealer config facts moment bytes dealer ≡ nothing }
{}
