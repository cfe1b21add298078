//! The request of a room.
ghost use Rattle.std.specs.Prelude.{◌≡◌, ◌==◌, IfOk};
ghost use Rattle.std.specs.List.{list_any};

use fix_fields::Memory;
use market_terms::{Ask, AskedDealers};
use std::alloc::Global;
use std::marker::Model;

/// What a room is opened for.
#[derive(Drop)]
pub struct RoomRequest {
    /// What the investor asks for.
    pub ask: Ask,
    /// The 1 to 8 dealers that it names, in its order.
    pub dealers: AskedDealers,
}

impl RoomRequest {
    /// The same request once more. It takes no memory.
    pub fn copy(&self) -> Self
        ensures { result ≡ self.now }
    {
        RoomRequest {
            ask: self.ask.copy(),
            dealers: self.dealers.copy(),
        }
    }

    /// Whether it names a dealer.
    pub fn names(&self, dealer: u16) -> bool
        ensures { result ≡ list_any (λ named. named == dealer) self.now.dealers }
    {
        self.dealers.names(dealer)
    }
}

/// The request of an event. It stands behind a box, since of the events of a room one alone has a
/// request, and each takes as much memory as the largest. A contract sees the request.
#[derive(Drop)]
pub struct KeptRequest {
    request: Box<RoomRequest>,
}

impl Model for KeptRequest {
    ghost use Rattle.request_room.specs.declared.requests.RoomRequest.{RoomRequest};

    ghost Value = { RoomRequest };

    ghost view = { λ kept. kept.request.value };
}

impl KeptRequest {
    /// A request that is kept.
    pub(crate) fn new(alloc: Global, request: RoomRequest) -> Result<Self, Memory>
        ensures { IfOk result (λ kept. kept ≡ request) }
    {
        let request = Box::new(alloc, request)?;
        Ok(KeptRequest { request })
    }

    /// The request.
    pub fn request(&self) -> &RoomRequest
        ensures { result.now ≡ self.now }
    {
        &self.request
    }
}
