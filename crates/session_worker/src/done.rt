//! What an action left.
ghost use Rattle.std.specs.Prelude.{◌≡◌, []};
ghost use Rattle.session_worker.specs.declared.watched.WordsAsked.TheVariants as all_asked;

use crate::watched::WordsAsked;
use market_terms::Duty;
use std::alloc::Global;
use venue_steps::Duties;

/// What an action left: the duties that follow, and all the words that it asked.
#[derive(Drop)]
pub(crate) struct Done {
    pub(crate) duties: Duties,
    pub(crate) asked: WordsAsked,
}

impl Done {
    /// An action that asked no word.
    pub(crate) fn unasked(duties: Duties) -> Self
        ensures { result ≡ record { duties = duties; asked = all_asked.Nothing } }
    {
        Done {
            duties,
            asked: WordsAsked::Nothing,
        }
    }

    /// An action at a place that the venue does not have.
    pub(crate) fn nothing(alloc: Global) -> Self
        ensures duties { result.duties.items ≡ [] }
        ensures unasked { result.asked ≡ all_asked.Nothing }
    {
        Done::unasked(Duties::new(alloc))
    }
}
