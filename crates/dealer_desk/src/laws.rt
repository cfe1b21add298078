//! Laws over the definitions of a desk, each the contract of a function that does nothing.
ghost use Rattle.std.specs.Prelude.{◌≡◌, ◌≤◌, ℕ, true, List, [], ◌∷◌, ◌++◌, Option, None, is_some};
ghost use Rattle.std.specs.Prelude.{Bool, IfSome, length, filter, map, All};
ghost use Rattle.venue_rows.specs.declared.dealer_rows.DealerRow.{DealerRow};
ghost use Rattle.quote_word.specs.declared.settled.Settled.{Settled};
ghost use Rattle.dealer_desk.specs.declared.events.DealerEvent.{DealerEvent};
ghost use Rattle.dealer_desk.specs.declared.events.DealerEvent.TheVariants as event;
ghost use Rattle.dealer_desk.specs.DealerFacts.{DealerBook, DealerFact, book_of, exposure_of};
ghost use Rattle.dealer_desk.specs.DealerFacts.{finds_lifted, is_live_on, is_withdrawal};
ghost use Rattle.dealer_desk.specs.DealerFacts.{number_to_drop, quote_to_drop, quotes_accepted};
ghost use Rattle.dealer_desk.specs.DealerRules.{dealer_verdict};
ghost use Rattle.dealer_desk.specs.DealerDesk.{DeskEvents, facts_at, book_at, rooms_at, verdict_at};
ghost use Rattle.dealer_desk.specs.DealerOutput.{desk_after, event_facts, word_asked, room_of};
ghost use Rattle.dealer_desk.specs.DealerOutput.{verdict_duty, unpost_dropped, dealer_output};
ghost use Rattle.dealer_desk.specs.DealerNotes.{dealer_notes};
ghost use Rattle.dealer_desk.specs.SettledWords.{settled_words, asked_by};
ghost use Rattle.dealer_desk.specs.DeskLaws.{IsOfDay, request_meant, says_lifted, says_withdrawn};
ghost use Rattle.dealer_desk.specs.DeskLaws.{withdraws};
ghost use Rattle.dealer_desk.specs.Unpriced.{unpriced, unpriced_book, unpriced_event};
ghost use Rattle.std.specs.List.{list_any};

/// The facts after one event more are those before it, and behind them what this event adds: a
/// function of the book as it stood, of the day and of the dealer's row.
pub fn facts_after_one_event_more()
    ensures { (date : List ℕ) (row : DealerRow) (events : List DealerEvent) (more : DealerEvent)
        → (desk_after date row (events ++ more ∷ [])).facts
        ≡ (desk_after date row events).facts
        ++ event_facts date row (book_of (desk_after date row events).facts) more }
{}

/// What a desk notes follows from its facts: two desks of one row and day at which the same became
/// so have noted the same, whatever the rooms of the requests that were shown there.
pub fn the_same_facts_have_the_same_notes()
    ensures { (date : List ℕ) (row : DealerRow) (events others : List DealerEvent)
        → (desk_after date row events).facts ≡ (desk_after date row others).facts
        → dealer_notes date row events ≡ dealer_notes date row others }
{}

/// There are as many notes as messages that a desk sent, each a note or none.
///
/// It ends at: what a note says, which `dealer_desk::DealerDesk::notes` ensures.
pub fn each_message_has_its_note()
    ensures { (date : List ℕ) (row : DealerRow) (events : List DealerEvent)
        → length (dealer_notes date row events) ≡ length (dealer_output date row events) }
{}

/// The words that were asked stand in the facts, each with its settlement: one event more adds the
/// word that it asks, if it asks one, and changes none of those before it.
pub fn words_are_asked_event_by_event()
    ensures { (date : List ℕ) (row : DealerRow) (events : List DealerEvent) (more : DealerEvent)
        → settled_words (desk_after date row (events ++ more ∷ [])).facts
        ≡ settled_words (desk_after date row events).facts
        ++ asked_by date row (book_of (desk_after date row events).facts) more }
{}

/// A quote is late or withdrawn in the facts exactly where its word was asked and settled so.
pub fn facts_say_how_words_were_settled()
    ensures late { (facts : List DealerFact) (quote : ℕ)
        → list_any (finds_lifted quote) facts
        ≡ list_any (says_lifted quote) (settled_words facts) }
    ensures withdrawn { (facts : List DealerFact) (quote : ℕ)
        → list_any (withdraws quote) facts
        ≡ list_any (says_withdrawn quote) (settled_words facts) }
{}

/// A settlement that comes where no word is asked changes no fact.
pub fn a_settlement_unasked_changes_nothing()
    ensures own { (date : List ℕ) (row : DealerRow) (book : DealerBook)
        (moment : ℕ) (bytes : List ℕ) (settlement : Option Settled)
        → word_asked (dealer_verdict date row book moment bytes) ≡ None
        → event_facts date row book (event.Received moment bytes settlement)
        ≡ event_facts date row book (event.Received moment bytes None) }
    ensures drop { (date : List ℕ) (row : DealerRow) (book : DealerBook)
        (last : ℕ) (moment : ℕ) (settlement : Option Settled)
        → number_to_drop book last ≡ None
        → event_facts date row book (event.Drop last moment settlement)
        ≡ event_facts date row book (event.Drop last moment None) }
{}

/// Of a dealer's quotes on one request at most one is live, and the limits of the dealer's row are
/// kept: no more quotes than it may have in a day, and no more exposure.
pub fn limits_are_kept()
    ensures lone { (date : List ℕ) (row : DealerRow) (events : List DealerEvent) (request : ℕ)
        → length (filter (is_live_on request)
        (book_of (desk_after date row events).facts).quotes) ≤ 1 }
    ensures quotes { (date : List ℕ) (row : DealerRow) (events : List DealerEvent)
        → quotes_accepted (book_of (desk_after date row events).facts) ≤ row.quotes }
    ensures exposure { (date : List ℕ) (row : DealerRow) (events : List DealerEvent)
        → exposure_of (book_of (desk_after date row events).facts) ≤ row.exposure }
{}

/// What a message or a drop leaves to be done names a quote of the day, from 1 to the quotes of the
/// dealer's row, and the request of an accepted quote, cancel or decline and of a dropped quote has
/// a room: so the duty is there.
pub fn what_is_left_is_of_the_day()
    ensures message { (desk : DeskEvents) (moment : ℕ) (bytes : List ℕ)
        (settlement : Option Settled)
        → IfSome (verdict_duty (rooms_at desk) moment (verdict_at desk moment bytes) settlement)
        (IsOfDay desk.row) }
    ensures room { (desk : DeskEvents) (moment : ℕ) (bytes : List ℕ)
        → IfSome (request_meant (verdict_at desk moment bytes))
        (λ request. is_some (room_of (rooms_at desk) request) ≡ true) }
    ensures drop { (desk : DeskEvents) (last : ℕ) (moment : ℕ) (settlement : Option Settled)
        → IfSome
        (unpost_dropped (rooms_at desk) moment settlement (quote_to_drop (book_at desk) last))
        (IsOfDay desk.row) }
    ensures drop_room { (desk : DeskEvents) (last : ℕ)
        → IfSome (quote_to_drop (book_at desk) last)
        (λ own. is_some (room_of (rooms_at desk) own.quote.request) ≡ true) }
{}

/// A word that is asked, by a message or a drop, is that of a quote of the day: from 1 to the
/// quotes of the dealer's row.
pub fn what_is_asked_is_of_the_day()
    ensures message { (desk : DeskEvents) (moment : ℕ) (bytes : List ℕ)
        → IfSome (word_asked (verdict_at desk moment bytes))
        (λ quote. (1 ≤ quote) × (quote ≤ desk.row.quotes)) }
    ensures drop { (desk : DeskEvents) (last : ℕ)
        → IfSome (number_to_drop (book_at desk) last)
        (λ quote. (1 ≤ quote) × (quote ≤ desk.row.quotes)) }
{}

/// Each quote stands as its word was settled: it is withdrawn exactly where its word was asked and
/// is withdrawn, and it is known to be lifted exactly where its word was asked and found lifted.
pub fn quotes_stand_as_their_words_were_settled()
    ensures withdrawn { (desk : DeskEvents)
        → All (λ own. is_withdrawal own.end
        ≡ list_any (says_withdrawn own.quote.number) (settled_words (facts_at desk)))
        (book_at desk).quotes }
    ensures lifted { (desk : DeskEvents)
        → All (λ own. own.is_known_lifted
        ≡ list_any (says_lifted own.quote.number) (settled_words (facts_at desk)))
        (book_at desk).quotes }
{}

/// No verdict of a dealer's desk asks for a price that stands there, or who was the cover. It asks
/// only for the price of the message itself.
///
/// At a desk without prices, and with Cover (694=4) and Done Away (694=5) as one, each message gets
/// the verdict that it gets at the desk (`verdicts`). Each event adds what it adds there, except
/// prices and covers (`kept`).
pub fn no_dealer_verdict_asks_a_price()
    ensures verdicts { (book : DealerBook) (date : List ℕ) (row : DealerRow) (moment : ℕ)
        (bytes : List ℕ) → dealer_verdict date row (unpriced_book book) moment bytes
        ≡ dealer_verdict date row book moment bytes }
    ensures kept { (date : List ℕ) (row : DealerRow) (bytes_stay : Bool) (book : DealerBook)
        (more : DealerEvent)
        → map (unpriced bytes_stay)
        (event_facts date row (unpriced_book book) (unpriced_event more))
        ≡ map (unpriced bytes_stay) (event_facts date row book more) }
    ensures books { (bytes_stay : Bool) (facts : List DealerFact)
        → book_of (map (unpriced bytes_stay) facts) ≡ unpriced_book (book_of facts) }
{}
