//! Laws of settlements and closing notices: what is true of every list of steps of every venue.
ghost use Rattle.std.specs.Prelude.{◌≡◌, ◌≤◌, ℕ, true, List, [], ◌∷◌, ◌++◌, length, Some};
ghost use Rattle.market_terms.specs.declared.closes.Close.{Close};
ghost use Rattle.market_terms.specs.declared.closes.Close.TheVariants.{Hit};
ghost use Rattle.market_terms.specs.declared.rooms.RoomRef.{RoomRef};
ghost use Rattle.quote_word.specs.declared.settled.Settled.{Settled};
ghost use Rattle.venue_rows.specs.Rows.{Configuration, dealer_numbered};
ghost use Rattle.venue_rows.specs.declared.dealer_rows.DealerRow.{DealerRow};
ghost use Rattle.dealer_desk.specs.DealerFacts.{Told};
ghost use Rattle.request_room.specs.RoomFacts.{end_of, is_named};
ghost use Rattle.request_room.specs.declared.ends.End.{End};
ghost use Rattle.venue_steps.specs.RoomSteps.{close_for};
ghost use Rattle.laws_days.specs.Answers.{settlement_by_view, settlement_in, asked_at};
ghost use Rattle.laws_days.specs.Answers.{next_settlement};
ghost use Rattle.step_replay.specs.AuditTrail as venue;
ghost use Rattle.step_replay.specs.DealerTrail.{AtDesk, DealerEntry};
ghost use Rattle.laws_days.specs.Notices.{IsToldOnce, NamesLiftedQuote, notices_of};
ghost use Rattle.laws_days.specs.Notices.{was_shown};
ghost use Rattle.step_replay.specs.VenueFacts.{of_dealer, of_room};
ghost use Rattle.venue_steps.specs.declared.actors.Actor.{Actor};
ghost use Rattle.step_replay.specs.declared.steps.Step.{Step};

use dealer_desk::{limits_are_kept, what_is_asked_is_of_the_day, words_are_asked_event_by_event};

/// If a lifting of a quote that [counts](docs/MARKET.md#a-dealers-day-alone) stands in the due list
/// before the quote's dealer asks its word, the word was settled lifted; else withdrawn.
///
/// Where a message of the dealer or a drop asks the word of a quote, the first settlement that
/// stands behind it is of that quote (`asked`). Each settlement in the dealer's trail is the one
/// that the dealer view gives at its place (`answered`).
pub fn words_are_settled_as_the_view_says()
    ensures asked { (config : Configuration) (steps : List Step) (dealer : ℕ) (row : DealerRow)
        (before after : List DealerEntry) (entry : DealerEntry) (quote : ℕ)
        → dealer_numbered config dealer ≡ Some row
        → of_dealer dealer (venue.audit_trail config steps).facts ≡ before ++ entry ∷ after
        → asked_at config.date row before entry ≡ Some quote
        → next_settlement after ≡ Some (quote, settlement_by_view config.date row before quote) }
    ensures answered { (config : Configuration) (steps : List Step) (dealer : ℕ) (row : DealerRow)
        (before after : List DealerEntry) (entry : DealerEntry) (quote : ℕ) (settlement : Settled)
        → dealer_numbered config dealer ≡ Some row
        → of_dealer dealer (venue.audit_trail config steps).facts ≡ before ++ entry ∷ after
        → settlement_in entry ≡ Some (quote, settlement)
        → settlement ≡ settlement_by_view config.date row before quote }
{
    words_are_asked_event_by_event();
}

/// A dealer has at most one closing notice of a request (`once`), after it was shown the request
/// (`after`).
///
/// It ends at: that the notice is sent: these are facts at the dealer's desk, and `DealerOutput`
/// says that each sends a message. (Of 694=1 `laws_trades::both_sides_of_a_trade_are_sent_it` says
/// it.)
pub fn notices_come_once_after_their_requests()
    ensures after { (config : Configuration) (steps : List Step) (dealer : ℕ) (row : DealerRow)
        (before after : List DealerEntry) (request : ℕ) (close : Close) (moment : ℕ)
        → dealer_numbered config dealer ≡ Some row
        → of_dealer dealer (venue.audit_trail config steps).facts
        ≡ before ++ AtDesk (Told request close moment) ∷ after
        → was_shown before request ≡ true }
    ensures once { (config : Configuration) (steps : List Step) (dealer : ℕ) (row : DealerRow)
        (request : ℕ) → dealer_numbered config dealer ≡ Some row
        → length (notices_of request (of_dealer dealer (venue.audit_trail config steps).facts))
        ≤ 1 }
{}

/// A dealer's notice of a hit (694=1) names the quote that was lifted: the dealer's live quote on
/// that request, whose word was lifted before the notice.
pub fn a_hit_notice_names_the_lifted_quote()
    ensures { (config : Configuration) (steps : List Step) (dealer : ℕ) (row : DealerRow)
        (before after : List DealerEntry) (request moment : ℕ)
        → dealer_numbered config dealer ≡ Some row
        → of_dealer dealer (venue.audit_trail config steps).facts
        ≡ before ++ AtDesk (Told request Hit moment) ∷ after
        → NamesLiftedQuote config.date row before request moment after }
{
    limits_are_kept();
    what_is_asked_is_of_the_day();
}

/// Where a room has ended and no duty is left, each dealer that the room's request names has
/// exactly one closing notice of it, which says how the request ended for that dealer. The dealer
/// was shown the request.
///
/// It ends at: days on which a duty is left; that the notice is sent: these are facts at the
/// dealer's desk, and `DealerOutput` says that each sends a message. (Of 694=1
/// `laws_trades::both_sides_of_a_trade_are_sent_it` says it.)
pub fn each_named_dealer_is_told_once()
    ensures { (config : Configuration) (steps : List Step) (room : RoomRef) (end : End) (dealer : ℕ)
        → ((actor : Actor) → venue.pending actor (venue.audit_trail config steps) ≡ [])
        → end_of (of_room room (venue.audit_trail config steps).facts) ≡ Some end
        → is_named (of_room room (venue.audit_trail config steps).facts) dealer ≡ true
        → IsToldOnce (of_dealer dealer (venue.audit_trail config steps).facts) room
        (close_for end dealer) }
{
    limits_are_kept();
    what_is_asked_is_of_the_day();
}
