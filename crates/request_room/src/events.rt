//! The events of a room.

use crate::KeptRequest;
use bond_prices::Ticks;
use fix_fields::Moment;
use quote_word::Settled;

/// What was tried on a room, whether or not it changed the room, in the order in which it was.
#[derive(Drop)]
pub enum RoomEvent {
    /// It is opened for a request (QuoteRequest 35=R).
    Open(KeptRequest),
    /// Each named dealer was shown the request.
    Ready,
    /// A quote is posted (Quote 35=S).
    Post {
        /// The number of its dealer among the firms of the configuration.
        dealer: u16,
        /// The word of the quote.
        word: u32,
        /// Its price on the asked side, in ticks of 1/256 point.
        price: Ticks,
        /// The moment from which on it can't be hit (ValidUntilTime 62), where one was given.
        valid_until: Option<Moment>,
    },
    /// A quote is taken out: its dealer withdrew it (QuoteCancel 35=Z).
    Unpost {
        /// The number of the dealer among the firms of the configuration.
        dealer: u16,
        /// The word of the quote.
        word: u32,
    },
    /// A dealer declines (QuoteRequestReject 35=AG).
    Decline {
        /// The number of the dealer among the firms of the configuration.
        dealer: u16,
    },
    /// The investor hits a quote (QuoteRespType 694=1).
    Hit {
        /// The word of the quote.
        word: u32,
        /// The moment of the hit.
        moment: Moment,
        /// What the word is from then on, where it was asked.
        settlement: Option<Settled>,
    },
    /// The investor passes (QuoteRespType 694=6).
    Pass {
        /// The moment of the pass.
        moment: Moment,
    },
    /// A sweep for requests past their deadline comes.
    Expire {
        /// The moment of the sweep.
        moment: Moment,
    },
}
