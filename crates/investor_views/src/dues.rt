//! What is due to one investor.
use bond_prices::Ticks;
use fix_fields::Moment;
use market_terms::{Reply, ResponseRef};
use quote_messages::Message;
use venue_rows::Name;

/// The number of a request among those of the investor that were accepted, from 1.
pub type OwnRequest = u32;

/// The number of a quote among those that the investor was shown (QuoteID 117), from 1.
pub type OfferNumber = u64;

/// One item of what is due to an investor. Requests and quotes have the investor's own numbers.
#[derive(Drop)]
pub enum InvestorDue {
    /// A message of the investor's own, whatever its bytes are, and the moment at which it comes.
    Own(Moment, Message),
    /// A quote comes, which the investor is offered: the request that it answers, the dealer that
    /// quotes, the price on the asked side, the moment from which on it can't be hit (ValidUntilTime
    /// 62), where one was given, and the moment of the dealer's message.
    Offered(OwnRequest, Name, Ticks, Option<Moment>, Moment),
    /// A quote is taken back: the request that it answered, the quote (0 where it stood on no open
    /// request any more), and the moment of the dealer's message.
    Gone(OwnRequest, OfferNumber, Moment),
    /// A dealer declines: the request, the dealer, and the moment of its message.
    Declined(OwnRequest, Name, Moment),
    /// The reply to a hit or a pass: the request, the response that it is to, what the room
    /// decided, and the moment of the response.
    Answered(OwnRequest, ResponseRef, Reply, Moment),
    /// A request expires, and the moment of the sweep.
    Expired(OwnRequest, Moment),
}
