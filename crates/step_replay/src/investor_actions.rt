//! What happens at the investors' desks of a replay.
ghost use Rattle.std.specs.Prelude.{◌≡◌, ◌<◌, ◌+◌, None, IfOk, IfSome};
ghost use Rattle.investor_desk.specs.InvestorDesk as investor_output;
ghost use Rattle.step_replay.specs.Standing.{Acts, ActsOnce};
ghost use Rattle.step_replay.specs.Actions as action;
ghost use Rattle.step_replay.specs.Coming as coming;

use crate::floor::Floor;
use fix_fields::{Memory, Moment};
use venue_steps::{Duties, ForInvestor, bring_to_investor, own_investor};

/// Where the investor with this number among the firms has its place among the investors', which
/// are numbered behind these dealers: none for a dealer's number.
pub(crate) fn place_of(firm: u16, dealers: usize) -> Option<usize>
    ensures some { IfSome result (λ at. firm ≡ dealers + at) }
    ensures none { result ≡ None → firm < dealers }
{
    let firm = usize::from(firm);
    if firm < dealers {
        return None;
    }
    Some(firm - dealers)
}

impl Floor {
    /// A message of an investor comes to its desk.
    pub(crate) fn investor_receives(
        &mut self,
        firm: u16,
        moment: Moment,
        bytes: &[u8],
    ) -> Result<Duties, Memory>
        ensures { IfOk result (λ duties. Acts (λ config facts.
            action.done_for (investor_output.market_for config firm)
            (action.received_by_investor facts moment bytes.now))
            self.old self.new duties.items) }
    {
        let Some(at) = place_of(firm, self.dealers.len()) else {
            return Ok(self.nothing());
        };
        let Some(place) = self.investors.get_mut(at) else {
            return Ok(self.nothing());
        };
        let duties = own_investor(&mut place.desk, moment, bytes)?;
        Ok(duties)
    }

    /// What comes to an investor's desk is brought to it.
    pub(crate) fn to_investor(&mut self, firm: u16, what: ForInvestor) -> Result<Duties, Memory>
        ensures { IfOk result (λ duties. ActsOnce (λ config facts.
            action.done_for (investor_output.market_for config firm)
            (coming.investor_gets facts what))
            self.old self.new duties.items) }
    {
        let Some(at) = place_of(firm, self.dealers.len()) else {
            return Ok(self.nothing());
        };
        let Some(place) = self.investors.get_mut(at) else {
            return Ok(self.nothing());
        };
        let duties = bring_to_investor(&mut place.desk, what)?;
        Ok(duties)
    }
}
