//! What an action does: it takes the lock of the one place that the market's table gives, and brings
//! it what comes there.
ghost use Rattle.std.specs.Prelude.{◌≡◌};
ghost use Rattle.session_worker.specs.Comings.{MayCome};
ghost use Rattle.venue_steps.specs.declared.arrivals.Placement.TheVariants as place;
ghost use Rattle.venue_steps.specs.declared.actors.Actor.TheVariants as actor;

use crate::actors::Shift;
use crate::done::Done;
use crate::gates::Gate;
use crate::naming::Naming;
use fix_fields::{Memory, Moment};
use market_terms::{Duty, ResponseRef, RoomRef};
use std::sync::Wait;
use step_replay::Actor;
use venue_steps::{ForDealer, ForInvestor, ForRoom, Placement, placed, swept};

impl<'v, J: Naming, R: Wait, G: Gate> Shift<'v, J, R, G> {
    /// The actor does a duty, at its one place.
    pub(crate) fn act(&self, duty: Duty) -> Result<Done, Memory> {
        let Some(arrival) = placed(&self.venue.config, self.by, duty) else {
            return Ok(Done::nothing(self.venue.alloc));
        };
        let done = self.bring(arrival)?;
        Ok(done)
    }

    /// The clock sweeps a room.
    pub(crate) fn expire(&self, room: RoomRef, moment: Moment) -> Result<Done, Memory> {
        let Some(arrival) = swept(&self.venue.config, room, moment) else {
            return Ok(Done::nothing(self.venue.alloc));
        };
        let done = self.bring(arrival)?;
        Ok(done)
    }

    /// Brings to a place what comes there.
    fn bring(&self, arrival: Placement) -> Result<Done, Memory>
        requires { MayCome J.config self.now.by arrival }
    {
        match arrival {
            Placement::Dealer(firm, what) => self.to_dealer(firm, what),
            Placement::Drop(firm, last, moment) => self.to_drop(firm, last, moment),
            Placement::Investor(firm, what) => self.to_investor(firm, what),
            Placement::Room(room, what) => self.to_room(room, what),
            Placement::Hit(room, response, word, moment) => {
                self.to_hit(room, response, word, moment)
            }
        }
    }

    /// The same at a dealer's desk.
    fn to_dealer(&self, firm: u16, what: ForDealer) -> Result<Done, Memory>
        requires { MayCome J.config self.now.by (place.Dealer firm what) }
    {
        let Some(mut desk) = self.venue.lock_dealer(self.rt, firm) else {
            return Ok(Done::nothing(self.venue.alloc));
        };
        let done = desk.bring(self.action(), firm, what)?;
        Ok(done)
    }

    /// The same of a drop.
    fn to_drop(&self, firm: u16, last: u32, moment: Moment) -> Result<Done, Memory>
        requires { MayCome J.config self.now.by (place.Drop firm last moment) }
    {
        let Some(mut desk) = self.venue.lock_dealer(self.rt, firm) else {
            return Ok(Done::nothing(self.venue.alloc));
        };
        let acting = self.acting();
        let done = desk.drop_next(acting, firm, last, moment)?;
        Ok(done)
    }

    /// The same at an investor's desk.
    fn to_investor(&self, firm: u16, what: ForInvestor) -> Result<Done, Memory>
        requires { MayCome J.config self.now.by (place.Investor firm what) }
    {
        let Some(mut desk) = self.venue.lock_investor(self.rt, firm) else {
            return Ok(Done::nothing(self.venue.alloc));
        };
        let done = desk.bring(self.action(), firm, what)?;
        Ok(done)
    }

    /// The same in a room.
    fn to_room(&self, at: RoomRef, what: ForRoom) -> Result<Done, Memory>
        requires { MayCome J.config self.now.by (place.Room at what) }
    {
        let Some(mut room) = self.venue.lock_room(self.rt, at) else {
            return Ok(Done::nothing(self.venue.alloc));
        };
        let done = room.bring(self.action(), at, what)?;
        Ok(done)
    }

    /// The same of a hit.
    fn to_hit(
        &self,
        at: RoomRef,
        response: ResponseRef,
        word: u32,
        moment: Moment,
    ) -> Result<Done, Memory>
        requires { MayCome J.config self.now.by (place.Hit at response word moment) }
    {
        let Some(mut room) = self.venue.lock_room(self.rt, at) else {
            return Ok(Done::nothing(self.venue.alloc));
        };
        let acting = self.acting();
        let done = room.hit(acting, at, response, word, moment)?;
        Ok(done)
    }

    /// A message of the firm comes to its own desk, that of a dealer or of an investor.
    pub(crate) fn receive(&self, moment: Moment, bytes: &[u8]) -> Result<Done, Memory> {
        let Actor::Firm(firm) = self.by else {
            return Ok(Done::nothing(self.venue.alloc));
        };
        let Some(mut desk) = self.venue.lock_dealer(self.rt, firm) else {
            let done = self.investor_receives(firm, moment, bytes)?;
            return Ok(done);
        };
        let acting = self.acting();
        let done = desk.receive(acting, moment, bytes)?;
        Ok(done)
    }

    /// The same of an investor.
    fn investor_receives(&self, firm: u16, moment: Moment, bytes: &[u8]) -> Result<Done, Memory>
        requires { self.now.by ≡ actor.Firm firm }
    {
        let Some(mut desk) = self.venue.lock_investor(self.rt, firm) else {
            return Ok(Done::nothing(self.venue.alloc));
        };
        let done = desk.receive(self.action(), moment, bytes)?;
        Ok(done)
    }
}
