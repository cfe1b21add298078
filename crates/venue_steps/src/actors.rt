//! Who does what is left to be done.

/// Who has duties to do: each firm those that its own messages began, and the clock those that its
/// sweeps began. Each has one queue of them, first in, first out.
#[derive(Clone, Copy, Debug)]
pub enum Actor {
    /// The firm with this number: the dealers from 0 on, behind them the investors.
    Firm(u16),
    /// The clock.
    Clock,
}
