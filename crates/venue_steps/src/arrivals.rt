//! What comes to a place.
use fix_fields::Moment;
use market_terms::{Ask, AskedDealers, Close, Offer, Reply, ResponseRef, RoomRef};
use venue_rows::Name;

/// The number of a dealer or an investor among the firms.
pub type FirmNumber = u16;

/// The number of a request among those of its investor, from 1.
pub type RequestNumber = u32;

/// The number of a quote among those of its dealer, from 1.
pub type QuoteNumber = u32;

/// The word of a quote, by its number in the venue.
pub type WordNumber = u32;

/// What comes to a place of the venue, behind the number or the name of the place. A drop and a hit
/// ask a word there, where one is to be asked; nothing else does.
#[derive(Drop)]
pub enum Placement {
    /// At the desk of a dealer.
    Dealer(FirmNumber, ForDealer),
    /// At the same: the next quote of its cancel of all is dropped, none later than this.
    Drop(FirmNumber, QuoteNumber, Moment),
    /// At the desk of an investor.
    Investor(FirmNumber, ForInvestor),
    /// In the room of a request.
    Room(RoomRef, ForRoom),
    /// In the same: a response of its investor hits the quote with this word.
    Hit(RoomRef, ResponseRef, WordNumber, Moment),
}

/// What comes to a dealer's desk for a duty, and asks no word.
#[derive(Drop)]
pub enum ForDealer {
    /// It is shown the request of a room.
    Show(RoomRef, Ask, Moment),
    /// It is told how the request of a room ended for it.
    Tell(RoomRef, Close, Moment),
}

/// What comes to an investor's desk for a duty, each about one of its requests.
#[derive(Drop)]
pub enum ForInvestor {
    /// It is shown a quote.
    Relay(RequestNumber, Offer, Moment),
    /// It is told that the quote with this word is gone.
    Gone(RequestNumber, WordNumber, Moment),
    /// It is told that this dealer declined.
    Declined(RequestNumber, Name, Moment),
    /// It is sent what the room replied to a response, which hits a quote or passes the request.
    Answer(RequestNumber, ResponseRef, Reply, Moment),
    /// It is told that its request expired.
    Close(RequestNumber, Moment),
}

/// What comes to the room of a request for a duty or a sweep, and asks no word.
#[derive(Drop)]
pub enum ForRoom {
    /// It is opened for this, to the dealers that the request names, in its order.
    Open(Ask, AskedDealers, Moment),
    /// Each named dealer was shown the request.
    Ready(Moment),
    /// A dealer's quote is posted, as the investor sees it, with its word.
    Post(FirmNumber, Offer, Moment),
    /// A dealer's quote with this word is taken out.
    Unpost(FirmNumber, WordNumber, Moment),
    /// A dealer declines.
    Decline(FirmNumber, Moment),
    /// A response of the investor passes the request.
    Pass(ResponseRef, Moment),
    /// The clock sweeps the room.
    Expire(Moment),
}
