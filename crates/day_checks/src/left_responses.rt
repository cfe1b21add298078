//! The hits and passes that the messages of an investor left, and whether they are what its desk
//! was answered.
ghost use Rattle.std.specs.Prelude.{◌≡◌, ◌↔◌, IsTrue};
ghost use Rattle.day_checks.specs.LeftResponses as spec;
ghost use Rattle.day_checks.specs.LeftResponseWords.{response_in};

use fix_fields::Moment;
use investor_desk::InvestorEvent;
use market_terms::{Duty, ResponseRef, RoomRef};

/// A hit or a pass that a message of an investor left, to be done in a room and answered.
#[derive(Drop)]
pub struct LeftResponse {
    /// The investor's request.
    pub(crate) request: u32,
    /// The response.
    pub(crate) response: ResponseRef,
    /// The moment of the message.
    pub(crate) moment: Moment,
}

/// The response among the duties that a message left, of which there is at most one: none where the
/// message was no hit and no pass, or was refused.
pub fn response_in(duties: &[Duty]) -> Option<LeftResponse>
    ensures { result ≡ response_in duties.now }
{
    let Some(duty) = duties.first() else {
        return None;
    };
    response_of(duty)
}

/// The response that a duty brings to a room.
fn response_of(duty: &Duty) -> Option<LeftResponse>
    ensures { result ≡ spec.response_of duty.now }
{
    match duty {
        Duty::Hit {
            room,
            response,
            moment,
            ..
        } => Some(left_by(room, response, *moment)),
        Duty::Pass {
            room,
            response,
            moment,
        } => Some(left_by(room, response, *moment)),
        _ => None,
    }
}

/// A response to the request of a room.
fn left_by(room: &RoomRef, response: &ResponseRef, moment: Moment) -> LeftResponse
    ensures { result ≡ record { request = room.now.n; response = response.now; moment = moment } }
{
    LeftResponse {
        request: room.n,
        response: ResponseRef {
            id: response.id.copy(),
            k: response.k,
        },
        moment,
    }
}

/// Whether these responses are, in their order, those that were answered by these events at the desk
/// of an investor.
pub fn are_answered(events: &[InvestorEvent], left: &[LeftResponse]) -> bool
    ensures { IsTrue result ↔ (spec.responses_answered events.now ≡ left.now) }
{
    let mut events = events;
    let mut left = left;
    while let Some((event, later)) = events.split_first() {
        events = later;
        let InvestorEvent::Answered {
            request,
            response,
            moment,
            ..
        } = event
        else {
            continue;
        };
        let Some((first, rest)) = left.split_first() else {
            return false;
        };
        if !is_response(first, *request, response.response(), *moment) {
            return false;
        }
        left = rest;
    }
    left.is_empty()
}

/// Whether a response is this one to the request with this number, at this moment.
fn is_response(left: &LeftResponse, request: u32, response: &ResponseRef, moment: Moment) -> bool
    ensures { IsTrue result
        ↔ (left.now ≡ record { request = request; response = response.now; moment = moment }) }
{
    if left.request != request {
        return false;
    }
    if left.moment != moment {
        return false;
    }
    if left.response.k != response.k {
        return false;
    }
    left.response.id.as_bytes() == response.id.as_bytes()
}
