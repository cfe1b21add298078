//! What happens at the dealers' desks of a replay.
ghost use Rattle.std.specs.Prelude.{IfOk};
ghost use Rattle.step_replay.specs.Standing.{Acts, ActsOnce};
ghost use Rattle.step_replay.specs.Actions as action;
ghost use Rattle.step_replay.specs.Coming as coming;

use crate::floor::Floor;
use dealer_desk::what_is_asked_is_of_the_day;
use fix_fields::{Memory, Moment};
use venue_steps::{Duties, ForDealer, bring_to_dealer, do_drop, own_dealer};

impl Floor {
    /// What comes to a dealer's desk is brought to it.
    pub(crate) fn to_dealer(&mut self, dealer: u16, what: ForDealer) -> Result<Duties, Memory>
        ensures { IfOk result (λ duties. ActsOnce (λ config facts.
            action.done_by (action.dealer_at config dealer) (coming.dealer_gets config facts what))
            self.old self.new duties.items) }
    {
        let Some(place) = self.dealers.get_mut(usize::from(dealer)) else {
            return Ok(self.nothing());
        };
        let duties = bring_to_dealer(&mut place.desk, what)?;
        Ok(duties)
    }

    /// A message of a dealer comes to its desk.
    pub(crate) fn dealer_receives(
        &mut self,
        dealer: u16,
        moment: Moment,
        bytes: &[u8],
    ) -> Result<Duties, Memory>
        ensures { IfOk result (λ duties. Acts (λ config facts.
            action.done_by (action.dealer_at config dealer)
            (action.received_by_dealer config facts moment bytes.now))
            self.old self.new duties.items) }
    {
        what_is_asked_is_of_the_day();
        let Some(place) = self.dealers.get_mut(usize::from(dealer)) else {
            return Ok(self.nothing());
        };
        let first = place.first_word;
        let duties = own_dealer(&mut place.desk, &mut self.words, first, moment, bytes)?;
        Ok(duties)
    }

    /// The next quote of a dealer's cancel of all is dropped, of those up to `last`.
    pub(crate) fn drop_next(
        &mut self,
        dealer: u16,
        last: u32,
        moment: Moment,
    ) -> Result<Duties, Memory>
        ensures { IfOk result (λ duties. ActsOnce (λ config facts.
            action.done_by (action.dealer_at config dealer)
            (action.dropped_by config facts last moment))
            self.old self.new duties.items) }
    {
        what_is_asked_is_of_the_day();
        let Some(place) = self.dealers.get_mut(usize::from(dealer)) else {
            return Ok(self.nothing());
        };
        let first = place.first_word;
        let duties = do_drop(&mut place.desk, &mut self.words, first, last, moment)?;
        Ok(duties)
    }
}
