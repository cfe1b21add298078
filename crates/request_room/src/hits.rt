//! What a hit meets.
ghost use Rattle.std.specs.Prelude.{◌≡◌, Some};
ghost use Rattle.request_room.specs.Book.{hit_settled, is_expired, is_lift, is_past_deadline};

use crate::{End, PostedQuote, RoomRequest};
use fix_fields::Moment;
use market_terms::HitRefusal;
use quote_word::Settled;

/// Whether a moment is at or past the deadline of the request.
pub(crate) fn is_past_deadline(request: &Option<RoomRequest>, moment: Moment) -> bool
    ensures { result ≡ is_past_deadline request.now moment }
{
    match request {
        None => false,
        Some(request) => request.ask.deadline <= moment,
    }
}

/// Whether a quote's own validity has ended.
pub(crate) fn is_expired(quote: PostedQuote, moment: Moment) -> bool
    ensures { result ≡ is_expired (Some quote) moment }
{
    match quote.valid_until {
        None => false,
        Some(until) => until <= moment,
    }
}

/// Whether a word was asked and is lifted.
fn is_lift(settlement: Option<Settled>) -> bool
    ensures { result ≡ is_lift settlement }
{
    match settlement {
        Some(Settled::Lifted) => true,
        Some(Settled::Withdrawn) => false,
        None => false,
    }
}

/// What becomes of a hit: its refusal, or the award where its word is lifted.
pub(crate) fn settled(
    refusal: Option<HitRefusal>,
    settlement: Option<Settled>,
    award: End,
) -> Result<End, HitRefusal>
    ensures { result ≡ hit_settled refusal settlement award }
{
    if let Some(refused) = refusal {
        return Err(refused);
    }
    if !is_lift(settlement) {
        return Err(HitRefusal::Withdrawn);
    }
    Ok(award)
}
