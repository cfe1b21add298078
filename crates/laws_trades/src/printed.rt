//! Under which name a trade is printed.
ghost use Rattle.std.specs.Prelude.{◌≡◌, ℕ, ◌+◌, List, ◌∷◌, ◌++◌, Some, length};
ghost use Rattle.investor_desk.specs.InvestorDesk.{market_of};
ghost use Rattle.laws_trades.specs.PrintedTrades.{IsPrintedAs, IsPrintedToDealer};
ghost use Rattle.market_terms.specs.declared.rooms.RoomRef.{RoomRef};
ghost use Rattle.step_replay.specs.AuditTrail as venue;
ghost use Rattle.step_replay.specs.NoteViews.{dealer_note_view};
ghost use Rattle.step_replay.specs.NotedTrail.{notes_by};
ghost use Rattle.step_replay.specs.VenueFacts.{of_dealer, of_investor};
ghost use Rattle.step_replay.specs.declared.steps.Step.{Step};
ghost use Rattle.laws_trades.specs.TradeNames.{hits_of, notices_to};
ghost use Rattle.venue_rows.specs.Rows.{Configuration, dealer_numbered, investor_numbered};
ghost use Rattle.venue_rows.specs.declared.dealer_rows.DealerRow.{DealerRow};
ghost use Rattle.venue_rows.specs.declared.investor_rows.InvestorRow.{InvestorRow};

use dealer_desk::the_same_facts_have_the_same_notes;

/// A trade is printed to its investor under its place in the list of the two firms' trades.
///
/// The list has the rooms of the investor's hits on this dealer's quotes that were answered 297=0, in
/// order (`hits_of`). After the message of the k-th of them the line `trade` names the day, the two
/// firms and k.
///
/// It ends at: the lines that are printed to the dealer
/// (`laws_trades::a_trade_is_printed_to_its_dealer`).
pub fn a_trade_is_printed_to_its_investor()
    ensures { (config : Configuration) (steps : List Step) (investor : ℕ) (investor_row : InvestorRow)
        (dealer : List ℕ) (before later : List RoomRef) (room : RoomRef)
        → investor_numbered config investor ≡ Some investor_row
        → hits_of investor dealer (venue.audit_trail config steps).facts
        ≡ before ++ room ∷ later
        → IsPrintedAs config.date investor_row.name dealer
        (of_investor investor (venue.audit_trail config steps).facts)
        (notes_by (market_of config investor investor_row)
        (of_investor investor (venue.audit_trail config steps).facts)) room
        (length before + 1) }
{}

/// A trade is printed to its dealer under its place in the list of the two firms' trades.
///
/// The list has the rooms of the dealer's notices 694=1 on this investor's requests, in order
/// (`notices_to`). After the message of the k-th of them the line `trade` names the day, the two
/// firms and k.
///
/// It ends at: the lines that are printed to the investor
/// (`laws_trades::a_trade_is_printed_to_its_investor`).
pub fn a_trade_is_printed_to_its_dealer()
    ensures { (config : Configuration) (steps : List Step) (dealer : ℕ) (dealer_row : DealerRow)
        (investor : List ℕ) (before later : List RoomRef) (room : RoomRef)
        → dealer_numbered config dealer ≡ Some dealer_row
        → notices_to investor (of_dealer dealer (venue.audit_trail config steps).facts)
        ≡ before ++ room ∷ later
        → IsPrintedToDealer config.date dealer_row.name investor
        (of_dealer dealer (venue.audit_trail config steps).facts)
        (dealer_note_view config.date dealer_row
        (venue.due_to dealer (venue.audit_trail config steps))) room (length before + 1) }
{
    the_same_facts_have_the_same_notes();
}
