//! What comes to a place, and asks no word there, is brought to it: by the one step of its name.
ghost use Rattle.std.specs.Prelude.{◌≡◌, [], IfOk, OnOk, OnErr};
ghost use Rattle.venue_steps.specs.Brought as spec;

use crate::Duties;
use crate::arrivals::{ForDealer, ForInvestor, ForRoom};
use crate::dealers::{do_show, do_tell};
use crate::ends::{do_expire, do_pass};
use crate::investors::{do_answer, do_close, do_declined, do_gone, do_relay};
use crate::rooms::{do_decline, do_open, do_post, do_ready, do_unpost};
use dealer_desk::DealerDesk;
use fix_fields::Memory;
use investor_desk::InvestorDesk;
use market_terms::RoomRef;
use request_room::Room;

/// What comes to a dealer's desk does its step there. Nothing follows. It fails for memory alone,
/// and then the desk is as before.
pub fn bring_to_dealer(desk: &mut DealerDesk, what: ForDealer) -> Result<Duties, Memory>
    ensures ok { OnOk result (desk.new ≡ spec.dealer_with desk.old what) }
    ensures duties { IfOk result (λ duties. duties.items ≡ []) }
    ensures err { OnErr result (desk.new ≡ desk.old) }
{
    match what {
        ForDealer::Show(room, ask, moment) => do_show(desk, room, ask, moment),
        ForDealer::Tell(room, close, moment) => do_tell(desk, room, close, moment),
    }
}

/// What comes to an investor's desk does its step there. Nothing follows. It fails for memory
/// alone, and then the desk is as before.
pub fn bring_to_investor(desk: &mut InvestorDesk, what: ForInvestor) -> Result<Duties, Memory>
    ensures ok { OnOk result (desk.new ≡ spec.investor_with desk.old what) }
    ensures duties { IfOk result (λ duties. duties.items ≡ []) }
    ensures err { OnErr result (desk.new ≡ desk.old) }
{
    match what {
        ForInvestor::Relay(request, offer, moment) => do_relay(desk, request, &offer, moment),
        ForInvestor::Gone(request, word, moment) => do_gone(desk, request, word, moment),
        ForInvestor::Declined(request, name, moment) => do_declined(desk, request, name, moment),
        ForInvestor::Answer(request, response, reply, moment) => {
            do_answer(desk, request, &response, reply, moment)
        }
        ForInvestor::Close(request, moment) => do_close(desk, request, moment),
    }
}

/// What comes to the room of this name does its step there, and leaves the duties of that step. It
/// fails for memory alone, and then the room is as before.
pub fn bring_to_room(room: &mut Room, at: RoomRef, what: ForRoom) -> Result<Duties, Memory>
    ensures ok { OnOk result (room.new ≡ spec.room_with room.old what) }
    ensures duties { IfOk result (λ duties.
        duties.items ≡ spec.duties_in_room at room.old what) }
    ensures err { OnErr result (room.new ≡ room.old) }
{
    match what {
        ForRoom::Open(ask, dealers, moment) => do_open(room, at, ask, dealers, moment),
        ForRoom::Ready(_) => do_ready(room),
        ForRoom::Post(dealer, offer, moment) => do_post(room, at, dealer, offer, moment),
        ForRoom::Unpost(dealer, word, moment) => do_unpost(room, at, dealer, word, moment),
        ForRoom::Decline(dealer, moment) => do_decline(room, at, dealer, moment),
        ForRoom::Pass(response, moment) => do_pass(room, at, response, moment),
        ForRoom::Expire(moment) => do_expire(room, at, moment),
    }
}
