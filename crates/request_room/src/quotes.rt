//! Quotes as they stand in a room.
ghost use Rattle.std.specs.Prelude.{◌≡◌};

use crate::RoomEvent;
use bond_prices::Ticks;
use fix_fields::Moment;

/// A quote that was posted in a room, for the full quantity of its request.
#[derive(Clone, Copy)]
pub struct PostedQuote {
    /// The number of its dealer among the firms of the configuration.
    pub dealer: u16,
    /// Its word, by which the room names it.
    pub word: u32,
    /// Its price in ticks of 1/256 point: an offer (OfferPx 133) where the investor buys, a bid
    /// (BidPx 132) where it sells.
    pub price: Ticks,
    /// The moment from which on it can't be hit (ValidUntilTime 62), where one was given.
    pub valid_until: Option<Moment>,
}

impl PostedQuote {
    /// Its posting.
    pub(crate) fn posting(&self) -> RoomEvent
        ensures { result ≡ RoomEvent.Post self.now.dealer self.now.word self.now.price
            self.now.valid_until }
    {
        RoomEvent::Post {
            dealer: self.dealer,
            word: self.word,
            price: self.price,
            valid_until: self.valid_until,
        }
    }
}
