//! A day that comes line by line, of which the due text of an investor is printed at its end.
ghost use Rattle.std.specs.Prelude.{◌≡◌, ◌≢◌, ◌++◌, List, ℕ, Some, Err, IfOk, IfErr, OnOk};
ghost use Rattle.input_lines.specs.StepReading.{steps_in};
ghost use Rattle.investor_texts.specs.LineDays as spec;
ghost use Rattle.step_replay.specs.LiveStanding.{IsAt};
ghost use Rattle.step_replay.specs.declared.steps.Step.{Step};
ghost use Rattle.venue_rows.specs.Rows.{Configuration, values_of};
ghost use Rattle.venue_text.specs.LiveLines.{Taken};

use crate::asked_days::asked_investor;
use crate::compare_command::lines_of;
use crate::due_command::text_of;
use crate::same_market::is_same_seen;
use fix_fields::Memory;
use input_lines::{Heard, ProgramFault, Spelled, is_skipped, push_steps, read_venue};
use investor_dues::DueDay;
use std::alloc::Global;
use step_replay::{LiveVenue, Step};
use venue_rows::VenueConfig;
use venue_text::read_live_line;

/// The fault of a line, if it has one.
pub type LineFault = Option<ProgramFault>;

/// A day of a venue that comes line by line, kept for one investor.
#[derive(Drop)]
pub struct InvestorDay {
    pub(crate) config: VenueConfig,
    pub(crate) investor: u16,
    pub(crate) heard: Heard,
    pub(crate) venue: LiveVenue,
}

impl InvestorDay {
    /// The day of the venue that a configuration spells, for INVESTOR, before its first line of
    /// steps; or the first fault: one of the configuration, or [`ProgramFault::Firm`]. Memory may
    /// be refused at any point.
    pub fn open(alloc: Global, name: &[u8], text: &[u8]) -> Result<Self, ProgramFault>
        ensures ok { IfOk result (spec.OpensDay name.now text.now) }
        ensures err { IfErr result (λ fault. fault ≢ ProgramFault.Memory
            → spec.asked_venue name.now text.now ≡ Err fault) }
        ensures unwritten { IfErr result (λ fault. fault ≢ ProgramFault.Write) }
    {
        let config = read_venue(alloc, text)?;
        let investor = asked_investor(&config, name)?;
        let venue = LiveVenue::open(alloc, &config)?;
        let firms = config.dealers().len() + config.investors().len();
        let heard = Heard::nothing(alloc, firms)?;
        Ok(InvestorDay {
            config,
            investor,
            heard,
            venue,
        })
    }

    /// The line with this number comes, and is taken. Its fault is answered, if it has one, and
    /// then it brings nothing else. After an error the day can't go on.
    pub fn keep(&mut self, alloc: Global, line: usize, text: &[u8]) -> Result<LineFault, Memory>
        ensures { IfOk result (λ fault. (name : List ℕ) (config : Configuration)
            (taken : Taken) → spec.KeepsDay name config taken self.old
            → spec.KeepsMore name config taken line text.now self.new fault) }
    {
        if is_skipped(text) {
            return Ok(None);
        }
        let spelled = match read_live_line(alloc, &self.config, &mut self.heard, line, text) {
            Ok(spelled) => spelled,
            Err(fault) => return refused(fault),
        };
        follow(alloc, &self.config, &mut self.venue, spelled)?;
        Ok(None)
    }

    /// The due text of the investor, at the end of the day.
    pub fn into_text(self, alloc: Global) -> Result<Vec<u8>, Memory>
        ensures { IfOk result (λ text. (name : List ℕ) (config : Configuration)
            (taken : Taken) → spec.KeepsDay name config taken self
            → spec.IsDayText name config taken.steps text.items) }
    {
        let InvestorDay {
            config,
            investor,
            venue,
            ..
        } = self;
        let day = DueDay::of_live(alloc, &config, venue, investor)?;
        let text = text_of(alloc, &config, investor, day.dues.as_slice())?;
        Ok(text)
    }
}

/// What is told of a line at fault.
fn refused(fault: ProgramFault) -> Result<LineFault, Memory>
    ensures told { IfOk result (λ told. told ≡ Some fault) }
    ensures other { IfOk result (λ _. fault ≢ ProgramFault.Memory) }
{
    if matches!(fault, ProgramFault::Memory) {
        return Err(Memory);
    }
    Ok(Some(fault))
}

/// The steps of a line are done, each with all duties that it leaves.
fn follow(
    alloc: Global,
    config: &VenueConfig,
    venue: &mut LiveVenue,
    spelled: Spelled,
) -> Result<(), Memory>
    ensures { OnOk result ((steps : List Step) → IsAt config.now steps venue.old
        → IsAt config.now (steps ++ steps_in (values_of config.now) spelled) venue.new) }
{
    let mut steps = Vec::new(alloc);
    push_steps(config, &mut steps, spelled)?;
    follow_all(alloc, config, venue, steps.as_slice())?;
    Ok(())
}

/// Steps are done, each with all duties that it leaves. One that names what the venue does not have
/// is refused, as memory is.
fn follow_all(
    alloc: Global,
    config: &VenueConfig,
    venue: &mut LiveVenue,
    more: &[Step],
) -> Result<(), Memory>
    ensures { OnOk result ((steps : List Step) → IsAt config.now steps venue.old
        → IsAt config.now (steps ++ more.now) venue.new) }
{
    for step in more {
        let Ok(_) = venue.step(alloc, config, step) else {
            return Err(Memory);
        };
    }
    Ok(())
}

/// How two days differ for an investor, in three lines, as
/// [`investor_compare_text`](crate::investor_compare_text) has them.
pub fn investors_compared_text(
    alloc: Global,
    one: InvestorDay,
    other: InvestorDay,
) -> Result<Vec<u8>, Memory>
    ensures { IfOk result (λ text. (name : List ℕ) (config other_config : Configuration)
        (taken other_taken : Taken) → spec.KeepsDay name config taken one
        → spec.KeepsDay name other_config other_taken other
        → spec.AreDaysCompared name config taken.steps other_config other_taken.steps
        text.items) }
{
    let InvestorDay {
        config,
        investor,
        venue,
        ..
    } = one;
    let InvestorDay {
        config: other_config,
        investor: other_investor,
        venue: other_venue,
        ..
    } = other;
    let seen = is_same_seen(&config, investor, &other_config, other_investor);
    let first = DueDay::of_live(alloc, &config, venue, investor)?;
    let second = DueDay::of_live(alloc, &other_config, other_venue, other_investor)?;
    let text = lines_of(alloc, seen, first, investor, second, other_investor)?;
    Ok(text)
}
