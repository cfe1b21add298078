//! Laws of the audit trail: what is true of every list of steps of every venue.
ghost use Rattle.std.specs.Prelude.{◌≡◌, ℕ, List, Some, false, ◌&&◌, nat_lt, slice_get, true};
ghost use Rattle.std.specs.Option.{option_map};
ghost use Rattle.market_terms.specs.declared.duties.Duty.{Duty};
ghost use Rattle.market_terms.specs.declared.rooms.RoomRef.{RoomRef};
ghost use Rattle.venue_rows.specs.Rows.{Configuration, dealer_numbered};
ghost use Rattle.venue_rows.specs.declared.dealer_rows.DealerRow.{DealerRow};
ghost use Rattle.venue_steps.specs.Placed.{placed, swept};
ghost use Rattle.venue_steps.specs.declared.actors.Actor.{Actor};
ghost use Rattle.step_replay.specs.DutyEffects.{duty_effect, sweep_effect};
ghost use Rattle.step_replay.specs.AuditTrail as venue;
ghost use Rattle.step_replay.specs.WhereComing.{effect_where};
ghost use Rattle.step_replay.specs.DealerView.{dealer_view};
ghost use Rattle.step_replay.specs.DealerTrail.{was_lifted, was_withdrawn};
ghost use Rattle.step_replay.specs.FirmDays.{FirmDay, firm_days};
ghost use Rattle.step_replay.specs.LiveDays.{live_messages, live_trail, messages_for};
ghost use Rattle.step_replay.specs.StepFaults.{firms_of};
ghost use Rattle.step_replay.specs.VenueFacts.{Fact, of_dealer};
ghost use Rattle.step_replay.specs.declared.steps.Step.{Step};

/// What a dealer is sent follows from the date, its row and its [due
/// list](docs/PROOFS.md#the-headline), and from nothing else.
///
/// After every list of steps the messages are the dealer view of these three.
///
/// It ends at: what the due list itself gives away; times and session numbers on the wire.
pub fn dealers_are_sent_their_view()
    ensures { (config : Configuration) (steps : List Step) (dealer : ℕ) (row : DealerRow)
        → dealer_numbered config dealer ≡ Some row
        → venue.sent_to config dealer (venue.audit_trail config steps)
        ≡ dealer_view config.date row (venue.due_to dealer (venue.audit_trail config steps)) }
{}

/// With one date and one row, equal due lists of a dealer give equal messages, byte for byte.
///
/// The two venues may differ in the steps of every firm and their order, the numbers of the firms,
/// the bonds and all other rows.
///
/// It ends at: what the due list itself gives away; times and session numbers on the wire.
pub fn dealers_are_isolated()
    ensures { (one other : Configuration) (steps others : List Step) (dealer number : ℕ)
        (row : DealerRow) → one.date ≡ other.date
        → dealer_numbered one dealer ≡ Some row → dealer_numbered other number ≡ Some row
        → venue.due_to dealer (venue.audit_trail one steps)
        ≡ venue.due_to number (venue.audit_trail other others)
        → venue.sent_to one dealer (venue.audit_trail one steps)
        ≡ venue.sent_to other number (venue.audit_trail other others) }
{}

/// No quote of a dealer is both lifted and withdrawn.
///
/// It ends at: the messages that tell of it: `laws_trades::what_is_withdrawn_is_never_traded`.
pub fn no_quote_is_lifted_and_withdrawn()
    ensures { (config : Configuration) (steps : List Step) (dealer : ℕ) (row : DealerRow)
        (quote : ℕ) → dealer_numbered config dealer ≡ Some row
        → (was_lifted (of_dealer dealer (venue.audit_trail config steps).facts) quote
        && was_withdrawn (of_dealer dealer (venue.audit_trail config steps).facts) quote)
        ≡ false }
{}

/// A firm's messages are one list, whoever gives it: what a replay gives of its day (`days`), what
/// it was sent by the audit trail, and, where steps come one by one, what the venue gives of it
/// (`live`) are the same messages in one order.
pub fn firms_are_sent_one_list()
    ensures days { (config : Configuration) (steps : List Step) (firm : ℕ)
        → nat_lt firm (firms_of config) ≡ true
        → option_map (λ (day : FirmDay). day.sent)
        (slice_get (firm_days config (venue.audit_trail config steps).facts) firm)
        ≡ Some (venue.sent_to config firm (venue.audit_trail config steps)) }
    ensures live { (config : Configuration) (steps : List Step) (firm : ℕ)
        → messages_for firm (live_messages config steps)
        ≡ venue.sent_to config firm (live_trail config steps) }
{}

/// What a replay gives of a dealer's day, and what a venue sends it that answers as steps come, are
/// the dealer view of its due list.
pub fn dealers_are_given_their_view()
    ensures days { (config : Configuration) (steps : List Step) (dealer : ℕ) (row : DealerRow)
        → dealer_numbered config dealer ≡ Some row
        → option_map (λ (day : FirmDay). day.sent)
        (slice_get (firm_days config (venue.audit_trail config steps).facts) dealer)
        ≡ Some (dealer_view config.date row
        (venue.due_to dealer (venue.audit_trail config steps))) }
    ensures live { (config : Configuration) (steps : List Step) (dealer : ℕ) (row : DealerRow)
        → dealer_numbered config dealer ≡ Some row
        → messages_for dealer (live_messages config steps)
        ≡ dealer_view config.date row (venue.due_to dealer (live_trail config steps)) }
{}

/// What an action of the venue adds and leaves is what comes by the market's table: it gives of a
/// duty (`placed`) or a sweep (`swept`) the one place where it is done and what comes there.
///
/// The place's own line says what that adds; where nothing comes, nothing happens.
pub fn actions_do_what_comes_by_the_table()
    ensures duties { (config : Configuration) (facts : List Fact) (by : Actor) (duty : Duty)
        → duty_effect config facts by duty ≡ effect_where config facts (placed config by duty) }
    ensures sweeps { (config : Configuration) (facts : List Fact) (room : RoomRef) (moment : ℕ)
        → sweep_effect config facts room moment
        ≡ effect_where config facts (swept config room moment) }
{}
