//! Steps that are replayed, which need not be those of a line.
use super::answers::put_replay_fault;
use super::venues::Venue;
use case_lines::{Call, CaseFault, Place};
use std::alloc::Global;
use step_replay::{due, run};

/// The faults of the replay itself: of an input's lines the program tells before it replays any.
/// Firms go by their numbers, the dealers from 0 on, behind them the investors.
///
/// | call | what it does |
/// |---|---|
/// | `< LINE` | a line more of the configuration |
/// | `open` | reads the configuration; answers the name of its fault |
/// | `in FIRM TIME BODY` | a step more: the frame of a body comes |
/// | `turn FIRM`, `turn CLOCK` | a step more |
/// | `expire FIRM N TIME` | a step more |
/// | `run` | replays them; answers the fault |
/// | `due FIRM` | asks what was due to the dealer; answers the fault |
#[derive(Drop)]
pub(crate) struct Replays {
    venue: Venue,
}

impl Place for Replays {
    fn call(&mut self, call: &mut Call<'_>) -> Result<(), CaseFault> {
        match call.name {
            "run" => self.runs(call.alloc, &mut call.answer),
            "due" => {
                let firm = call.words.firm()?;
                self.tell_due(call.alloc, firm, &mut call.answer)
            }
            _ => self.venue.call(call),
        }
    }
}

impl Replays {
    /// Before the first call.
    pub(crate) fn new(alloc: Global) -> Result<Self, CaseFault> {
        Ok(Replays {
            venue: Venue::new(alloc),
        })
    }

    /// Replays the steps.
    fn runs(&self, alloc: Global, answer: &mut String) -> Result<(), CaseFault> {
        let config = self.venue.config()?;
        match run(alloc, config, self.venue.steps.as_slice()) {
            Ok(_world) => Ok(()),
            Err(fault) => put_replay_fault(answer, fault),
        }
    }

    /// Asks what was due to a dealer.
    fn tell_due(&self, alloc: Global, firm: u16, answer: &mut String) -> Result<(), CaseFault> {
        let config = self.venue.config()?;
        match due(alloc, config, self.venue.steps.as_slice(), firm) {
            Ok(_dues) => Ok(()),
            Err(fault) => put_replay_fault(answer, fault),
        }
    }
}
