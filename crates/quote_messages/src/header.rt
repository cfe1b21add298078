//! The header of a message of either role.
ghost use Rattle.std.specs.Prelude.{◌≡◌, ℕ, List, [], ◌∷◌, Some, MatchResult};
ghost use Rattle.quote_messages.specs.ValueForms.{OneOf};
ghost use Rattle.quote_messages.specs.SessionLines.{required, text_at, first_fault};
ghost use Rattle.quote_messages.specs.SessionChecks.{header_lines};

use crate::slots::FieldSlots;
use crate::tag_reading::{check_text, required_moment, trader};
use crate::{SessionFault, SessionRejectReason};
use fix_fields::Date;
use venue_rows::{Name, Traders};

/// The trader that sent a message, or the first fault of its header but for MsgType (35):
/// SenderCompID (49), TargetCompID (56), SendingTime (52), SenderSubID (50).
pub(crate) fn read_header(
    date: &Date,
    name: &Name,
    traders: &Traders,
    message: &FieldSlots,
) -> Result<Name, SessionFault>
    ensures { (types : List (List ℕ)) → MatchResult result
        (λ trader. (first_fault (header_lines name.now traders.now types) date.now message.now
        ≡ first_fault (required 35 (OneOf types SessionRejectReason.InvalidMsgType)
        ∷ []) date.now message.now)
        × (trader ≡ text_at 50 message.now))
        (λ fault. first_fault (header_lines name.now traders.now types) date.now message.now
        ≡ Some fault) }
{
    check_text(
        message,
        49,
        name.as_bytes(),
        SessionRejectReason::CompIdProblem,
    )?;
    check_text(message, 56, b"VENUE", SessionRejectReason::CompIdProblem)?;
    required_moment(date, message, 52)?;
    let trader = trader(message, traders)?;
    Ok(trader)
}
