//! The places of a venue at which actions have an order.
use market_terms::RoomRef;

/// A desk or a room.
#[derive(Clone, Copy)]
pub enum Site {
    /// The desk of the firm with this number.
    Desk(u16),
    /// A room.
    Room(RoomRef),
}
