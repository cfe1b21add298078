//! Bytes that a desk can't read change nothing but the list of its events.
ghost use Rattle.std.specs.Prelude.{◌≡◌, ℕ, List, ◌∷◌, ◌++◌, Option, None};
ghost use Rattle.market_terms.specs.declared.rooms.RoomRef.{RoomRef};
ghost use Rattle.quote_word.specs.declared.settled.Settled.{Settled};
ghost use Rattle.venue_rows.specs.declared.dealer_rows.DealerRow.{DealerRow};
ghost use Rattle.dealer_desk.specs.DealerFacts.{DealerBook};
ghost use Rattle.dealer_desk.specs.DealerOutput as dealer;
ghost use Rattle.dealer_desk.specs.DealerRules.{dealer_verdict};
ghost use Rattle.dealer_desk.specs.declared.events.DealerEvent.{DealerEvent};
ghost use Rattle.dealer_desk.specs.declared.events.DealerEvent.TheVariants as at_dealer;
ghost use Rattle.dealer_desk.specs.declared.verdicts.DealerVerdict.TheVariants as dealer_said;
ghost use Rattle.investor_desk.specs.InvestorFacts.{InvestorBook};
ghost use Rattle.investor_desk.specs.InvestorOutput as investor;
ghost use Rattle.investor_desk.specs.InvestorRules.{InvestorMarket, investor_verdict};
ghost use Rattle.investor_desk.specs.declared.events.InvestorEvent.{InvestorEvent};
ghost use Rattle.investor_desk.specs.declared.events.InvestorEvent.TheVariants as at_investor;
ghost use Rattle.investor_desk.specs.declared.verdicts.InvestorVerdict.TheVariants as investor_said;
ghost use Rattle.laws_days.specs.Unread.{IsUnread, IsSameDealer, IsSameInvestor};

use fix_fields::frame_of_is_the_reading;

/// Bytes that are no frame, and a frame without a readable MsgSeqNum (34), change only a dealer's
/// desk's list of events: whatever follows finds the desk as if they had not come (`unheard`).
///
/// They are dropped, whenever they come (`dropped`), ask no word and leave no duty (`silent`).
pub fn a_dealers_desk_hears_no_unread_bytes()
    ensures dropped { (date : List ℕ) (row : DealerRow) (book : DealerBook) (moment : ℕ)
        (bytes : List ℕ) → IsUnread bytes
        → dealer_verdict date row book moment bytes ≡ dealer_said.Dropped }
    ensures silent { (rooms : List RoomRef) (moment : ℕ) (settlement : Option Settled)
        → (dealer.word_asked dealer_said.Dropped ≡ None)
        × (dealer.verdict_duty rooms moment dealer_said.Dropped settlement ≡ None) }
    ensures unheard { (date : List ℕ) (row : DealerRow) (before after : List DealerEvent)
        (moment : ℕ) (bytes : List ℕ) (settlement : Option Settled) → IsUnread bytes
        → IsSameDealer
        (dealer.desk_after date row (before ++ at_dealer.Received moment bytes settlement ∷ after))
        (dealer.desk_after date row (before ++ after)) }
{
    frame_of_is_the_reading();
}

/// Bytes that are no frame, and a frame without a readable MsgSeqNum (34), change only an
/// investor's desk's list of events: whatever follows finds the desk as if they had not come
/// (`unheard`).
///
/// They are dropped, whenever they come (`dropped`), and leave no duty (`silent`).
pub fn an_investors_desk_hears_no_unread_bytes()
    ensures dropped { (market : InvestorMarket) (book : InvestorBook) (moment : ℕ)
        (bytes : List ℕ) → IsUnread bytes
        → investor_verdict market book moment bytes ≡ investor_said.Dropped }
    ensures silent { (market : InvestorMarket) (moment : ℕ)
        → investor.verdict_duty market moment investor_said.Dropped ≡ None }
    ensures unheard { (market : InvestorMarket) (before after : List InvestorEvent) (moment : ℕ)
        (bytes : List ℕ) → IsUnread bytes
        → IsSameInvestor
        (investor.desk_after market (before ++ at_investor.Received moment bytes ∷ after))
        (investor.desk_after market (before ++ after)) }
{
    frame_of_is_the_reading();
}
