//! What a desk notes beside the messages that it sends.

use crate::DealerRefusal;
use venue_rows::Name;

/// What a desk notes beside a message that it sends. No message bears it.
#[derive(Drop)]
pub enum DealerNote {
    /// The message refuses one of the dealer's own: the reason.
    Refused(DealerRefusal),
    /// The message tells the dealer of a trade of its own: its quote was lifted (694=1).
    Trade {
        /// The investor that lifted it.
        investor: Name,
    },
}
