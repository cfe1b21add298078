//! The two sides of a trade on a day on threads.
ghost use Rattle.std.specs.Prelude.{◌≡◌, ℕ, List, Some, true};
ghost use Rattle.fix_fields.specs.Frame.{Field, frame_of};
ghost use Rattle.fix_fields.specs.UtcTimestamp.{IsDate};
ghost use Rattle.venue_rows.specs.Rows.{Configuration, KeepsLimits, dealer_numbered, investor_numbered};
ghost use Rattle.venue_rows.specs.declared.dealer_rows.DealerRow.{DealerRow};
ghost use Rattle.venue_rows.specs.declared.investor_rows.InvestorRow.{InvestorRow};
ghost use Rattle.step_replay.specs.AuditTrail.{audit_trail};
ghost use Rattle.step_replay.specs.Lists.{In};
ghost use Rattle.step_replay.specs.declared.steps.Step.{Step};
ghost use Rattle.recorded_days.specs.Records.{RecordedDay};
ghost use Rattle.day_weaving.specs.Weaving.{SendAsRecorded, sent_by_record};
ghost use Rattle.laws_days.specs.LiveDuties.{NoDutyIsLeft};
ghost use Rattle.laws_trades.specs.SentTrades.{AnswerIsOfTrade, NoticeIsOfTrade, is_answer, is_notice};

use crate::sent::both_sides_of_a_trade_are_sent_it;
use step_replay::firms_are_sent_one_list;

/// The same of the messages in the record of a day on threads that a list of steps sends, as the
/// steps do into which `weave` makes a day.
///
/// The premises are those of `both_sides_of_a_trade_are_sent_it`, of these steps.
///
/// It ends at: days on which a duty is left (no theorem says that a day did all its duties); a
/// record that no list of steps sends (`weave` gives one wherever it is Ok).
pub fn both_sides_of_a_trade_are_sent_it_on_threads()
    ensures answers { (config : Configuration) (day : RecordedDay) (steps : List Step)
        (investor : ℕ) (investor_row : InvestorRow) (sent : List (List ℕ)) (message : List ℕ)
        → KeepsLimits config → IsDate config.date
        → SendAsRecorded config day steps → NoDutyIsLeft (audit_trail config steps)
        → investor_numbered config investor ≡ Some investor_row
        → sent_by_record day investor ≡ Some sent → In message sent
        → (fields : List Field) → frame_of message ≡ Some fields → is_answer fields ≡ true
        → AnswerIsOfTrade config (audit_trail config steps) investor fields }
    ensures notices { (config : Configuration) (day : RecordedDay) (steps : List Step)
        (dealer : ℕ) (dealer_row : DealerRow) (sent : List (List ℕ)) (message : List ℕ)
        → KeepsLimits config → IsDate config.date
        → SendAsRecorded config day steps → NoDutyIsLeft (audit_trail config steps)
        → dealer_numbered config dealer ≡ Some dealer_row
        → sent_by_record day dealer ≡ Some sent → In message sent
        → (fields : List Field) → frame_of message ≡ Some fields → is_notice fields ≡ true
        → NoticeIsOfTrade config (audit_trail config steps) dealer fields }
{
    both_sides_of_a_trade_are_sent_it();
    firms_are_sent_one_list();
}
