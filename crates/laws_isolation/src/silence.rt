//! What other dealers do is not heard before a hit.
ghost use Rattle.std.specs.Prelude.{◌≡◌, ℕ, false, List, Some};
ghost use Rattle.std.specs.List.{list_any};
ghost use Rattle.venue_rows.specs.Rows.{Configuration, dealer_numbered};
ghost use Rattle.venue_rows.specs.declared.dealer_rows.DealerRow.{DealerRow};
ghost use Rattle.step_replay.specs.AuditTrail as venue;
ghost use Rattle.step_replay.specs.declared.steps.Step.{Step};
ghost use Rattle.laws_isolation.specs.Silence.{AreOneBesides, brings_hit, has_hit};

/// If two days of one venue differ only in what other dealers send, and in when the venue does its
/// work for them, and nobody hits a quote on either, a dealer's due lists are the same (`due`), and
/// it is sent the same bytes (`sent`).
///
/// The messages of the other dealers may be any, and any number.
///
/// It ends at: the first hit of a day, by any investor on any request; what an investor does about
/// what it is shown, such as a pass or a new request. Beyond the hit `price_law` covers prices, and
/// `laws_isolation::presence_is_not_told` whether others quoted.
pub fn dealers_are_silent_to_each_other()
    ensures due { (config : Configuration) (steps others : List Step) (dealer : ℕ)
        (row : DealerRow) → dealer_numbered config dealer ≡ Some row
        → AreOneBesides config dealer steps others
        → venue.due_to dealer (venue.audit_trail config steps)
        ≡ venue.due_to dealer (venue.audit_trail config others) }
    ensures sent { (config : Configuration) (steps others : List Step) (dealer : ℕ)
        (row : DealerRow) → dealer_numbered config dealer ≡ Some row
        → AreOneBesides config dealer steps others
        → venue.sent_to config dealer (venue.audit_trail config steps)
        ≡ venue.sent_to config dealer (venue.audit_trail config others) }
{}

/// A day to which no QuoteResponse (35=AJ) with 694=1 comes from a firm that is no dealer has no
/// hit.
pub fn a_hit_takes_a_message()
    ensures { (config : Configuration) (steps : List Step)
        → list_any (brings_hit config) steps ≡ false → has_hit config steps ≡ false }
{}
