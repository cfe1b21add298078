//! Requests and quotes as they stand at a desk.

use crate::AcceptedQuote;
use market_terms::{Ask, Close};

/// A request that the dealer was shown, as it stands.
#[derive(Drop)]
pub struct StandingRequest {
    /// Which of the requests shown to the dealer it is, from 1.
    pub number: u64,
    /// What is asked for.
    pub ask: Ask,
    /// Whether the dealer declined it.
    pub is_declined: bool,
    /// Whether its closing notice was sent.
    pub is_told: bool,
}

/// An accepted quote, as it stands.
#[derive(Drop)]
pub struct StandingQuote {
    /// What was accepted.
    pub quote: AcceptedQuote,
    /// Whether it is known to be lifted: its word was asked and found lifted.
    pub is_known_lifted: bool,
    /// What ended it, where something did. It is live until then.
    pub end: Option<QuoteEnd>,
}

/// What ends a quote.
#[derive(Clone, Copy)]
pub enum QuoteEnd {
    /// Its dealer withdrew it.
    Withdrawn(Withdrawal),
    /// Its request was closed, and the dealer was told so.
    Closed(Close),
}

/// What withdraws a quote.
#[derive(Clone, Copy)]
pub enum Withdrawal {
    /// The dealer's next quote on its request takes its place.
    Replacement,
    /// A cancel, of this quote or of all.
    Cancel,
}
