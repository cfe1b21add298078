//! The events at a dealer's desk.

use fix_fields::Moment;
use market_terms::{Ask, Close, RoomRef};
use quote_messages::Message;
use quote_word::Settled;

/// What comes to a desk, in the order in which it came.
#[derive(Drop)]
pub enum DealerEvent {
    /// A message of the dealer's own.
    Received {
        /// The moment at which it came.
        moment: Moment,
        /// Its bytes, whatever they are.
        message: Message,
        /// What the word that it asked is from then on, where it asked one.
        settlement: Option<Settled>,
    },
    /// A request is shown to the dealer.
    Shown {
        /// The room of the request. Nothing that is sent looks at it.
        room: RoomRef,
        /// What is asked for.
        ask: Ask,
        /// The moment at which it is shown.
        moment: Moment,
    },
    /// The dealer is told how a request ended.
    Told {
        /// Which of the requests shown to the dealer it is, from 1.
        request: u64,
        /// How it ended.
        close: Close,
        /// The moment of the notice.
        moment: Moment,
    },
    /// The next of the quotes that a cancel of all quotes means is dropped.
    Drop {
        /// How many quotes of the dealer were accepted when the cancel came: no later one is
        /// dropped.
        last: u32,
        /// The moment of the cancel.
        moment: Moment,
        /// What the word that it asked is from then on, where it asked one.
        settlement: Option<Settled>,
    },
}
