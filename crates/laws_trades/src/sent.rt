//! The two sides of a trade in the bytes that the venue sent.
ghost use Rattle.std.specs.Prelude.{◌≡◌, ℕ, List, Some, true};
ghost use Rattle.fix_fields.specs.Frame.{Field, frame_of};
ghost use Rattle.fix_fields.specs.UtcTimestamp.{IsDate};
ghost use Rattle.venue_rows.specs.Rows.{Configuration, KeepsLimits, dealer_numbered, investor_numbered};
ghost use Rattle.venue_rows.specs.declared.dealer_rows.DealerRow.{DealerRow};
ghost use Rattle.venue_rows.specs.declared.investor_rows.InvestorRow.{InvestorRow};
ghost use Rattle.step_replay.specs.AuditTrail.{audit_trail, sent_to};
ghost use Rattle.step_replay.specs.Lists.{In};
ghost use Rattle.step_replay.specs.declared.steps.Step.{Step};
ghost use Rattle.laws_days.specs.LiveDuties.{NoDutyIsLeft};
ghost use Rattle.laws_trades.specs.SentTrades.{AnswerIsOfTrade, NoticeIsOfTrade, is_answer, is_notice};

use dealer_desk::{limits_are_kept, what_is_asked_is_of_the_day};

/// The same of sent messages, as anyone reads them as frames (`frame_of`): both sides of a trade
/// are sent it.
///
/// A QuoteStatusReport (35=AI) with a QuoteRespID (693) and 297=0 is of a trade, and its 117 is the
/// Qk of that (`answers`). A QuoteResponse (35=AJ) with 694=1 is of one, field by field
/// (`notices`). The other side was sent its message, which has no other reading. The premises: the
/// configuration keeps its limits, and the day is a date.
///
/// It ends at: days on which a duty is left; bytes that are no frame (of at most 4,096): the type
/// `SentMessage` says that each is one; the other fields of an answer, such as 131, and that it
/// bears no bond, quantity or price.
pub fn both_sides_of_a_trade_are_sent_it()
    ensures answers { (config : Configuration) (steps : List Step) (investor : ℕ)
        (investor_row : InvestorRow) (message : List ℕ) → KeepsLimits config → IsDate config.date
        → NoDutyIsLeft (audit_trail config steps)
        → investor_numbered config investor ≡ Some investor_row
        → In message (sent_to config investor (audit_trail config steps))
        → (fields : List Field) → frame_of message ≡ Some fields → is_answer fields ≡ true
        → AnswerIsOfTrade config (audit_trail config steps) investor fields }
    ensures notices { (config : Configuration) (steps : List Step) (dealer : ℕ)
        (dealer_row : DealerRow) (message : List ℕ) → KeepsLimits config → IsDate config.date
        → NoDutyIsLeft (audit_trail config steps)
        → dealer_numbered config dealer ≡ Some dealer_row
        → In message (sent_to config dealer (audit_trail config steps))
        → (fields : List Field) → frame_of message ≡ Some fields → is_notice fields ≡ true
        → NoticeIsOfTrade config (audit_trail config steps) dealer fields }
{
    limits_are_kept();
    what_is_asked_is_of_the_day();
}
