//! What was sent so far to each firm of a venue that answers as steps come, what is noted of it, and
//! what happened at the desk of an investor.
ghost use Rattle.std.specs.Prelude.{◌≡◌, List, slice_get};
ghost use Rattle.std.specs.Option.{option_copied, option_map};
ghost use Rattle.investor_desk.specs.InvestorDesk.{market_of};
ghost use Rattle.step_replay.specs.AuditTrail as venue;
ghost use Rattle.step_replay.specs.FirmDays.{FirmDay, firm_days};
ghost use Rattle.step_replay.specs.InvestorEvents.{events_of, happened_to};
ghost use Rattle.step_replay.specs.LiveDays as live;
ghost use Rattle.step_replay.specs.LiveStanding.{IsAt};
ghost use Rattle.step_replay.specs.NoteViews as spec;
ghost use Rattle.step_replay.specs.NotedTrail.{notes_by};
ghost use Rattle.step_replay.specs.Standing.{Stands};
ghost use Rattle.step_replay.specs.VenueFacts.{Fact, of_investor};
ghost use Rattle.step_replay.specs.declared.steps.Step.{Step};
ghost use Rattle.venue_rows.specs.Rows.{Configuration, dealer_numbered, investor_numbered};
ghost use Rattle.venue_rows.specs.declared.dealer_rows.DealerRow.{DealerRow};
ghost use Rattle.venue_rows.specs.declared.investor_rows.InvestorRow.{InvestorRow};

use crate::floor::Floor;
use crate::investor_actions::place_of;
use crate::live::{LiveVenue, sent_on};
use dealer_desk::{DealerNote, the_same_facts_have_the_same_notes};
use investor_desk::{InvestorEvent, InvestorNote};
use quote_messages::SentMessage;

impl LiveVenue {
    /// What the firm with this number was sent so far, or none where no firm has it.
    pub fn sent(&self, firm: u16) -> Option<&[SentMessage]>
        ensures { (config : Configuration) (steps : List Step) → IsAt config steps self.now
            → option_copied result ≡ option_map (λ (day : FirmDay). day.sent)
            (slice_get (firm_days config (live.live_trail config steps).facts) firm) }
    {
        sent_on(&self.replay.floor, firm)
    }

    /// What is noted beside each message of the dealer with this number, or none where no dealer has
    /// it: it follows from what was due to the dealer, as the messages do.
    pub fn dealer_notes(&self, firm: u16) -> Option<&[Option<DealerNote>]>
        ensures { (config : Configuration) (steps : List Step) → IsAt config steps self.now
            → option_copied result
            ≡ option_map (λ (row : DealerRow). spec.dealer_note_view config.date row
            (venue.due_to firm (live.live_trail config steps))) (dealer_numbered config firm) }
    {
        the_same_facts_have_the_same_notes();
        let Some(place) = self.replay.floor.dealers.get(usize::from(firm)) else {
            return None;
        };
        Some(place.desk.notes())
    }

    /// What is noted beside each message of the investor with this number, or none where no investor
    /// has it: it follows from what became so at its place.
    pub fn investor_notes(&self, firm: u16) -> Option<&[Option<InvestorNote>]>
        ensures { (config : Configuration) (steps : List Step) → IsAt config steps self.now
            → option_copied result ≡ option_map (λ (row : InvestorRow).
            notes_by (market_of config firm row)
            (of_investor firm (live.live_trail config steps).facts)) (investor_numbered config firm) }
    {
        let Some(at) = place_of(firm, self.replay.floor.dealers.len()) else {
            return None;
        };
        let Some(place) = self.replay.floor.investors.get(at) else {
            return None;
        };
        Some(place.desk.notes())
    }

    /// The events at the desk of the investor with this number so far, the first one first, or none
    /// where no investor has it.
    pub fn investor_events(&self, firm: u16) -> Option<&[InvestorEvent]>
        ensures { (config : Configuration) (steps : List Step) → IsAt config steps self.now
            → option_copied result ≡ option_map (λ (row : InvestorRow).
            happened_to firm (live.live_trail config steps)) (investor_numbered config firm) }
    {
        events_on(&self.replay.floor, firm)
    }
}

/// The events at the desk of the investor with this number, or none where no investor has it.
pub(crate) fn events_on(floor: &Floor, firm: u16) -> Option<&[InvestorEvent]>
    ensures { (config : Configuration) (facts : List Fact) → Stands config facts floor.now
        → option_copied result ≡ option_map (λ (row : InvestorRow).
        events_of (of_investor firm facts)) (investor_numbered config firm) }
{
    let Some(at) = place_of(firm, floor.dealers.len()) else {
        return None;
    };
    let Some(place) = floor.investors.get(at) else {
        return None;
    };
    Some(place.desk.events())
}
