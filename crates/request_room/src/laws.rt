//! Laws over the definitions of a room, each the contract of a function that does nothing.
ghost use Rattle.std.specs.Prelude.{◌≡◌, ◌≢◌, ◌≤◌, ◌↔◌, ℕ, List, [], ◌∷◌, ◌++◌, length, filter};
ghost use Rattle.std.specs.Prelude.{AllPairs, Contains, IfSome, IsTrue, map};
ghost use Rattle.market_terms.specs.declared.asks.Side.{Side};
ghost use Rattle.quote_word.specs.declared.settled.Settled.TheVariants.{Lifted};
ghost use Rattle.request_room.specs.declared.events.RoomEvent.{RoomEvent};
ghost use Rattle.request_room.specs.declared.events.RoomEvent.TheVariants as event;
ghost use Rattle.request_room.specs.declared.quotes.PostedQuote.{PostedQuote};
ghost use Rattle.request_room.specs.RoomFacts.{RoomFact, end_of, hears, is_award, is_ended};
ghost use Rattle.request_room.specs.RoomFacts.{is_ending};
ghost use Rattle.request_room.specs.Book.{IsBest, IsEndOf, book_of, cover_of, event_facts, others};
ghost use Rattle.request_room.specs.Book.{hit_question, room_after};
ghost use Rattle.request_room.specs.Unpriced.{unpriced, unpriced_event};

/// A room begins with no fact, and one event more adds what `event_facts` says of it to the facts
/// that stand: so whoever tells a room one event at a time follows it by its facts alone.
pub fn facts_after_one_event_more()
    ensures begins { room_after [] ≡ [] }
    ensures more { (events : List RoomEvent) (event : RoomEvent) → room_after (events ++ event ∷ [])
        ≡ room_after events ++ event_facts (room_after events) event }
{}

/// A room that has ended changes no more, whatever is tried on it: its facts stay, and with them
/// its book and its end.
pub fn an_ended_room_changes_no_more()
    ensures { (events more : List RoomEvent) → IsTrue (is_ended (room_after events))
        → room_after (events ++ more) ≡ room_after events }
{}

/// A request is awarded at most once: its room, which holds the quotes on it, ends at most once
/// (`ends`), and is awarded at most once (`awards`).
///
/// It ends at: that a venue has one room for a request: a definition says so (`RoomRef`).
/// (`laws_trades::an_award_is_in_time` says of the venue's facts that a room that was awarded was
/// open.)
pub fn a_room_ends_once()
    ensures ends { (events : List RoomEvent) → length (filter is_ending (room_after events)) ≤ 1 }
    ensures awards { (events : List RoomEvent) → length (filter is_award (room_after events)) ≤ 1 }
{}

/// Of any book `cover_of`, by which the definition of a hit names the cover, gives the best quote
/// of another dealer (`best`, `another`), and nothing only where there is none (`none`).
///
/// No other's quote is better, and each other's that was posted earlier is worse.
///
/// It ends at: that the cover of an award is that of its room's book.
/// (`laws_trades::an_award_names_the_best_cover` says it.)
pub fn the_cover_is_the_best_other_quote()
    ensures best { (side : Side) (winner : ℕ) (book : List PostedQuote)
        → IfSome (cover_of side winner book) (λ cover. IsBest side (others winner book) cover) }
    ensures another { (side : Side) (winner : ℕ) (book : List PostedQuote)
        → IfSome (cover_of side winner book) (λ cover. cover.dealer ≢ winner) }
    ensures none { (side : Side) (winner : ℕ) (book : List PostedQuote)
        → (cover_of side winner book ≡ None) ↔ (others winner book ≡ []) }
{}

/// The book has one quote of a dealer at most.
pub fn a_dealer_has_one_quote()
    ensures { (facts : List RoomFact)
        → AllPairs (λ one other. one.dealer ≢ other.dealer) (book_of facts) }
{}

/// A room that was awarded has a winner, and its cover, where there is one, is another dealer. A
/// room that ended otherwise has neither.
pub fn only_an_award_has_a_winner()
    ensures { (events : List RoomEvent)
        → IfSome (end_of (room_after events)) (λ end. IsEndOf end.kind end.winner end.cover) }
{}

/// A room is awarded by a hit alone: where it has a winner, one of its events is a hit of the
/// winner's word that was settled lifted.
pub fn an_awarded_word_was_lifted()
    ensures { (events : List RoomEvent)
        → IfSome (end_of (room_after events)) (λ end. IfSome end.winner
        (λ winner. (moment : ℕ) × Contains events (event.Hit winner.1 moment (Some Lifted)))) }
{}

/// A room's step asks for prices only to find the cover.
///
/// In a room without prices, and without who was the cover, each step does what it does in the
/// room, except for both (`kept`), a hit meets the same checks (`hits`), and the same dealers are
/// heard (`heard`).
pub fn no_step_asks_a_price()
    ensures kept { (facts : List RoomFact) (more : RoomEvent)
        → map unpriced (event_facts (map unpriced facts) (unpriced_event more))
        ≡ map unpriced (event_facts facts more) }
    ensures hits { (facts : List RoomFact) (word : ℕ) (moment : ℕ)
        → hit_question (map unpriced facts) word moment ≡ hit_question facts word moment }
    ensures heard { (facts : List RoomFact) (dealer : ℕ)
        → hears (map unpriced facts) dealer ≡ hears facts dealer }
{}
