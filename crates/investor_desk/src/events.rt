//! The events at an investor's desk.
ghost use Rattle.std.specs.Prelude.{◌≡◌, IfOk};

use crate::answers::response_again;
use fix_fields::{Memory, Moment};
use market_terms::{Offer, Reply, ResponseRef};
use quote_messages::Message;
use std::alloc::Global;
use std::marker::Model;
use venue_rows::Name;

/// What comes to a desk, in the order in which it came. Requests go by their numbers among the
/// accepted requests of the investor, from 1.
#[derive(Drop)]
pub enum InvestorEvent {
    /// A message of the investor's own.
    Received {
        /// The moment at which it came.
        moment: Moment,
        /// Its bytes, whatever they are.
        message: Message,
    },
    /// A quote was posted for a request.
    QuoteCame {
        /// The request.
        request: u32,
        /// The quote.
        offer: Offer,
        /// The moment of the dealer's message.
        moment: Moment,
    },
    /// A quote was taken back from a request.
    QuoteGone {
        /// The request.
        request: u32,
        /// The quote's word.
        word: u32,
        /// The moment of the dealer's message.
        moment: Moment,
    },
    /// A dealer declined a request.
    DealerDeclined {
        /// The request.
        request: u32,
        /// The dealer.
        dealer: Name,
        /// The moment of the dealer's message.
        moment: Moment,
    },
    /// The room has decided on a hit or a pass.
    Answered {
        /// The request.
        request: u32,
        /// The response that it is to.
        response: KeptResponse,
        /// What the room decided.
        reply: Reply,
        /// The moment of the response.
        moment: Moment,
    },
    /// A request expired.
    Closed {
        /// The request.
        request: u32,
        /// The moment of the sweep.
        moment: Moment,
    },
}

/// The response of an event. It stands behind a box, since few of the events at a desk have one,
/// and each takes as much memory as the largest. A contract sees the response.
#[derive(Drop)]
pub struct KeptResponse {
    response: Box<ResponseRef>,
}

impl Model for KeptResponse {
    ghost use Rattle.market_terms.specs.declared.rooms.ResponseRef.{ResponseRef};

    ghost Value = { ResponseRef };

    ghost view = { λ kept. kept.response.value };
}

impl KeptResponse {
    /// A response, kept beyond the call that brings it.
    pub(crate) fn of(alloc: Global, response: &ResponseRef) -> Result<Self, Memory>
        ensures { IfOk result (λ kept. kept ≡ response.now) }
    {
        let response = Box::new(alloc, response_again(response))?;
        Ok(KeptResponse { response })
    }

    /// The response.
    pub fn response(&self) -> &ResponseRef
        ensures { result.now ≡ self.now }
    {
        &self.response
    }
}
