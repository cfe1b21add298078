//! What a step leaves to be done later.

use crate::{Ask, AskedDealers, Close, Offer, Reply, ResponseRef, RoomRef};
use bond_prices::Ticks;
use fix_fields::Moment;

/// What a step leaves to be done later. It stands in the queue of the firm that did the step, or of
/// the clock for a sweep, so it does not name that firm. Its moment is that of the step that
/// began it, and what is sent for it bears that moment.
#[derive(Drop)]
pub enum Duty {
    /// A request was accepted: its room is opened. It stands in its investor's queue.
    Open {
        /// The room of the request.
        room: RoomRef,
        /// What is asked for.
        ask: Ask,
        /// The dealers that the request names, in its order.
        dealers: AskedDealers,
        /// The moment of the request.
        moment: Moment,
    },
    /// A room was opened: one of its dealers is shown the request.
    Show {
        /// The number of the dealer among the firms.
        dealer: u16,
        /// The room of the request.
        room: RoomRef,
        /// What is asked for.
        ask: Ask,
        /// The moment of the request.
        moment: Moment,
    },
    /// Each dealer that the request names was shown it: its room is open from now on.
    Ready {
        /// The room of the request.
        room: RoomRef,
        /// The moment of the request.
        moment: Moment,
    },
    /// A quote was accepted: it is posted in the room of its request. It stands in its dealer's
    /// queue.
    Post {
        /// The room of the request that it answers.
        room: RoomRef,
        /// Which of the dealer's accepted quotes it is, from 1.
        quote: u32,
        /// Its price on the asked side.
        price: Ticks,
        /// The moment from which on it can't be hit (ValidUntilTime 62), where one was given.
        valid_until: Option<Moment>,
        /// The moment of the message.
        moment: Moment,
    },
    /// A post took effect: the investor is shown the quote.
    Relay {
        /// The room of the request that it answers.
        room: RoomRef,
        /// The quote as the investor sees it.
        offer: Offer,
        /// The moment of the message.
        moment: Moment,
    },
    /// A quote was withdrawn: it is taken out of the room of its request. It stands in its dealer's
    /// queue.
    Unpost {
        /// The room of the request that it answered.
        room: RoomRef,
        /// Which of the dealer's accepted quotes it is, from 1.
        quote: u32,
        /// The moment of the message.
        moment: Moment,
    },
    /// An unpost took effect: the investor is told that the quote is gone.
    Gone {
        /// The room of the request that it answered.
        room: RoomRef,
        /// The quote's word.
        word: u32,
        /// The moment of the message.
        moment: Moment,
    },
    /// A dealer declined a request: its room takes note. It stands in its dealer's queue.
    Decline {
        /// The room of the request.
        room: RoomRef,
        /// The moment of the message.
        moment: Moment,
    },
    /// A decline took effect: the investor is told.
    Declined {
        /// The room of the request.
        room: RoomRef,
        /// The moment of the message.
        moment: Moment,
    },
    /// The investor hits a quote that it was shown (QuoteRespType 694=1): the room decides.
    Hit {
        /// The room of the request that the quote answers.
        room: RoomRef,
        /// The response that hits it.
        response: ResponseRef,
        /// The quote's word.
        word: u32,
        /// The moment of the response.
        moment: Moment,
    },
    /// The investor passes a request (QuoteRespType 694=6): the room decides.
    Pass {
        /// The room of the request.
        room: RoomRef,
        /// The response that passes it.
        response: ResponseRef,
        /// The moment of the response.
        moment: Moment,
    },
    /// The room has decided on a hit or a pass: the investor is sent its reply.
    Answer {
        /// The room of the request.
        room: RoomRef,
        /// The response that it is to.
        response: ResponseRef,
        /// What the room decided.
        reply: Reply,
        /// The moment of the response.
        moment: Moment,
    },
    /// A sweep ended the room: the investor is told that its request expired. It stands in the
    /// clock's queue.
    Close {
        /// The room of the request.
        room: RoomRef,
        /// The moment of the sweep.
        moment: Moment,
    },
    /// The room has ended: one of its dealers is told how.
    Tell {
        /// The number of the dealer among the firms.
        dealer: u16,
        /// The room of the request.
        room: RoomRef,
        /// How it ended for that dealer.
        close: Close,
        /// The moment of the hit, the pass or the sweep.
        moment: Moment,
    },
    /// A dealer cancels all its quotes (QuoteCancelType 298=4): the next of them is dropped. It
    /// stands in its dealer's queue.
    Drop {
        /// How many quotes of the dealer were accepted when the cancel came: no later one is
        /// dropped.
        last: u32,
        /// The moment of the cancel.
        moment: Moment,
    },
}

/// A blank, for the unused places of an array of duties. It means nothing.
impl Default for Duty {
    fn default() -> Self {
        Duty::Ready {
            room: RoomRef { investor: 0, n: 0 },
            moment: Moment::new(0).unwrap(),
        }
    }
}
