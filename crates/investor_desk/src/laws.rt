//! Laws over the definitions of a desk, each the contract of a function that does nothing.
ghost use Rattle.std.specs.Prelude.{◌≡◌, ◌≤◌, ℕ, List, [], ◌∷◌, ◌++◌, length, map, IfSome};
ghost use Rattle.std.specs.Prelude.{Option};
ghost use Rattle.investor_desk.specs.declared.events.InvestorEvent.{InvestorEvent};
ghost use Rattle.investor_desk.specs.InvestorFacts.{InvestorBook, InvestorFact, book_of, knows};
ghost use Rattle.investor_desk.specs.InvestorFacts.{requests_accepted, requests_open};
ghost use Rattle.investor_desk.specs.InvestorRules.{InvestorMarket, investor_verdict};
ghost use Rattle.investor_desk.specs.InvestorDesk.{DeskEvents, verdict_at};
ghost use Rattle.investor_desk.specs.InvestorOutput.{desk_after, event_facts, event_messages};
ghost use Rattle.investor_desk.specs.InvestorOutput.{investor_output, moment_of, sent_with};
ghost use Rattle.investor_desk.specs.InvestorOutput.{beside_each, event_note, investor_notes};
ghost use Rattle.investor_desk.specs.InvestorOutput.{verdict_duty};
ghost use Rattle.investor_desk.specs.DeskLaws.{IsOfDay, fact_note, last_fact};
ghost use Rattle.investor_desk.specs.Unpriced.{unpriced, unpriced_book, unpriced_event};

/// The facts after one event more are those before it, and behind them what this event adds: a
/// function of the book as it stood. So are the messages, and what is noted beside them.
pub fn facts_after_one_event_more()
    ensures facts { (market : InvestorMarket) (events : List InvestorEvent) (more : InvestorEvent)
        → (desk_after market (events ++ more ∷ [])).facts
        ≡ (desk_after market events).facts
        ++ event_facts market (book_of (desk_after market events).facts) more }
    ensures sent { (market : InvestorMarket) (events : List InvestorEvent) (more : InvestorEvent)
        → investor_output market (events ++ more ∷ [])
        ≡ sent_with market (investor_output market events) (moment_of more)
        (event_messages market (book_of (desk_after market events).facts) more) }
    ensures notes { (market : InvestorMarket) (events : List InvestorEvent) (more : InvestorEvent)
        → investor_notes market (events ++ more ∷ [])
        ≡ investor_notes market events
        ++ beside_each (event_messages market (book_of (desk_after market events).facts) more)
        (event_note market (book_of (desk_after market events).facts) more) }
{}

/// There are as many notes as messages that a desk sent, each a note or none.
///
/// It ends at: what a note says, which `investor_desk::InvestorDesk::notes` ensures.
pub fn each_message_has_its_note()
    ensures { (market : InvestorMarket) (events : List InvestorEvent)
        → length (investor_notes market events) ≡ length (investor_output market events) }
{}

/// What is noted of an event follows from the last fact that it adds: it is noted of a request that
/// was refused, and of a request that was closed by the award of a quote.
pub fn a_note_is_of_the_last_fact()
    ensures { (market : InvestorMarket) (book : InvestorBook) (more : InvestorEvent)
        → event_note market book more
        ≡ fact_note market book (last_fact (event_facts market book more)) }
{}

/// The limits of the investor's row are kept: no more requests than it may have in a day, and no
/// more of them open.
pub fn limits_are_kept()
    ensures requests { (market : InvestorMarket) (events : List InvestorEvent)
        → requests_accepted (book_of (desk_after market events).facts) ≤ market.row.requests }
    ensures open_requests { (market : InvestorMarket) (events : List InvestorEvent)
        → requests_open (book_of (desk_after market events).facts) ≤ market.row.open_limit }
{}

/// What a message leaves is to be done in the room of a request of the day, from 1 to the
/// requests of the investor's row, and a request that is opened names 1 to 8 dealers of the venue,
/// none of them twice.
pub fn what_is_left_is_of_the_day()
    ensures { (desk : DeskEvents) (moment : ℕ) (bytes : List ℕ)
        → IfSome (verdict_duty desk.market moment (verdict_at desk moment bytes))
        (IsOfDay desk.market) }
{}

/// No verdict of an investor's desk asks for a price that stands there.
///
/// At a desk without prices each message gets the verdict that it gets at the desk (`verdicts`),
/// the same requests and quotes are known (`known`), and each event adds what it adds there, except
/// prices (`kept`).
pub fn no_investor_verdict_asks_a_price()
    ensures verdicts { (market : InvestorMarket) (book : InvestorBook) (moment : ℕ)
        (bytes : List ℕ) → investor_verdict market (unpriced_book book) moment bytes
        ≡ investor_verdict market book moment bytes }
    ensures known { (book : InvestorBook) (number : ℕ) (quote : Option ℕ)
        → knows (unpriced_book book) number quote ≡ knows book number quote }
    ensures kept { (market : InvestorMarket) (book : InvestorBook) (more : InvestorEvent)
        → map unpriced (event_facts market (unpriced_book book) (unpriced_event more))
        ≡ map unpriced (event_facts market book more) }
    ensures books { (facts : List InvestorFact)
        → book_of (map unpriced facts) ≡ unpriced_book (book_of facts) }
{}
