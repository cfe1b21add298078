//! A hit of a replay, and the liftings that a dealer's place notes.
ghost use Rattle.std.specs.Prelude.{◌≡◌, IfOk, OnOk};
ghost use Rattle.step_replay.specs.Liftings as noted;
ghost use Rattle.step_replay.specs.Standing.{ActsOnce};
ghost use Rattle.step_replay.specs.Actions as action;

use crate::floor::{DealerPlace, Floor, Lifting};
use fix_fields::{Memory, Moment};
use market_terms::{Duty, Reply, ResponseRef, RoomRef};
use quote_word::Words;
use venue_steps::{Duties, do_hit};

impl Floor {
    /// The investor hits a quote in the room of its request. Where it is awarded, the place of the
    /// quote's dealer notes the lifting.
    #[tactic(auto, using(crate::proofs::RoomPlaceLemmas::investor_inside, crate::proofs::RoomPlaceLemmas::room_inside))]
    pub(crate) fn hit(
        &mut self,
        room: RoomRef,
        response: ResponseRef,
        word: u32,
        moment: Moment,
    ) -> Result<Duties, Memory>
        ensures { IfOk result (λ duties. ActsOnce
            (λ config facts. action.hit_in config facts room response word moment)
            self.old self.new duties.items) }
    {
        let Some((investor, index)) = self.room_place(room) else {
            return Ok(self.nothing());
        };
        let place = &mut self.investors[investor].rooms[index];
        let duties = do_hit(place, &mut self.words, room, response, word, moment)?;
        self.note_award(&duties, word)?;
        Ok(duties)
    }

    /// Notes that the quote with this word was lifted, where the hit of it that left these duties is
    /// awarded.
    fn note_award(&mut self, duties: &Duties, word: u32) -> Result<(), Memory>
        ensures { OnOk result (noted.NotesWhere (noted.awards duties.now.items) word self.old
            self.new) }
    {
        if !awards(duties) {
            return Ok(());
        }
        self.note_lifting(word)?;
        Ok(())
    }

    /// Notes at the place of its dealer that the quote with this word was lifted.
    fn note_lifting(&mut self, word: u32) -> Result<(), Memory>
        ensures { OnOk result (noted.Notes word self.old self.new) }
    {
        if word >= self.words.len() {
            return Ok(());
        }
        let Some(owner) = self.owners.get(word as usize) else {
            return Ok(());
        };
        let Some(place) = self.dealers.get_mut(usize::from(*owner)) else {
            return Ok(());
        };
        let quote = word.saturating_sub(place.first_word) + 1;
        place.note(quote)?;
        Ok(())
    }
}

impl DealerPlace {
    /// Notes that a quote of the dealer was lifted, behind the events that have come to its desk.
    fn note(&mut self, quote: u32) -> Result<(), Memory>
        ensures { OnOk result (noted.Noted quote self.old self.new) }
    {
        let after = self.desk.events().len();
        self.liftings.push(Lifting { quote, after })?;
        Ok(())
    }
}

/// Whether the duties that a hit leaves say that it is awarded: the investor is answered first.
fn awards(duties: &Duties) -> bool
    ensures { result ≡ noted.awards duties.now.items }
{
    let Some(Duty::Answer { reply, .. }) = duties.first() else {
        return false;
    };
    matches!(reply, Reply::Awarded)
}
